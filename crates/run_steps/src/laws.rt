ghost use Rattle.std.specs.Prelude.{◌≤◌, ℕ, IfSome, List};
ghost use Rattle.run_steps.specs.ChangeSteps.{EndsAreChanges, MomentsAreChanges, RenamesAreChanges, StirsAreChanges, StirsAreSteps};
ghost use Rattle.run_steps.specs.FollowingSteps.{BeginsToFollow, ClosingsAreSteps};
ghost use Rattle.run_steps.specs.ForgetSteps.{ForgetsAreSteps};
ghost use Rattle.run_steps.specs.Goes.{step_words};
ghost use Rattle.run_steps.specs.OpeningKeeps.{OpeningsAgainKeep};
ghost use Rattle.run_steps.specs.OpeningSteps.{OpeningsAreSteps, OpeningsKeepReady};
ghost use Rattle.run_steps.specs.ReopeningSteps.{OpeningsAgainAreSteps};
ghost use Rattle.run_steps.specs.ScanSteps.{ScansAreSteps};

use outside::{Bell, Clock, Disk, Folder, Link, Wire};

/// A disk as it reads is one of its images, and is counted among those since an earlier moment. A law; it computes nothing.
pub fn disk_images_are_counted<D: Disk>()
    ensures reads { (disk : D) → IfSome (D.contents disk) (D.images disk) }
    ensures counts { (disk : D) (since : ℕ) (image : List ℕ) → since ≤ D.moment disk →
        D.images disk image → D.images_since disk since image }
{}

/// A scan after the first one is a step of each run that scans its folder again, at the moment that its clock gave last: what was
/// before it is after it, with one more scan. A law; it computes nothing.
pub fn scans_again_are_steps<F: Folder, L: Link, W: Wire<Link = L>, D: Disk, K: Clock, B: Bell>()
    ensures { ScansAreSteps
        (step_words F.Folder F.Tail.Tail L.Link W.Wire D.Disk K.Clock B.Bell) }
{}

/// What a run does with one of its files between two rounds is a step of it: it stirs the file, asks its harvester to end, gives it a
/// new path and reports that to the keeper, or reports to the keeper when it was changed. What was known before is known after it, with
/// the notes that it told. To stir a file supposes nothing. Before its harvester is asked to end, a whole scan after the file's last
/// opening missed it; before it is renamed, the newest scan listed it by its new path and by no other; and the moment is that of the
/// newest scan's entry of its key. A law; it computes nothing.
pub fn changes_are_steps<F: Folder, L: Link, W: Wire<Link = L>, D: Disk, K: Clock, B: Bell>()
    ensures stirs { StirsAreChanges
        (step_words F.Folder F.Tail.Tail L.Link W.Wire D.Disk K.Clock B.Bell) }
    ensures stirs_go { StirsAreSteps
        (step_words F.Folder F.Tail.Tail L.Link W.Wire D.Disk K.Clock B.Bell) }
    ensures ends { EndsAreChanges
        (step_words F.Folder F.Tail.Tail L.Link W.Wire D.Disk K.Clock B.Bell) }
    ensures renames { RenamesAreChanges
        (step_words F.Folder F.Tail.Tail L.Link W.Wire D.Disk K.Clock B.Bell) }
    ensures moments { MomentsAreChanges
        (step_words F.Folder F.Tail.Tail L.Link W.Wire D.Disk K.Clock B.Bell) }
{
    disk_images_are_counted::<D>();
}

/// Telling the keeper that a removed file is forgotten is a step of a run: what was known before it is known after it, with one more
/// file that is forgotten. It supposes that a whole scan after the file's last opening missed it, and that its last tail is closed:
/// its end was found, or the tail was closed before that scan. A law; it computes nothing.
pub fn forgets_are_steps<F: Folder, L: Link, W: Wire<Link = L>, D: Disk, K: Clock, B: Bell>()
    ensures { ForgetsAreSteps
        (step_words F.Folder F.Tail.Tail L.Link W.Wire D.Disk K.Clock B.Bell) }
{
    disk_images_are_counted::<D>();
}

/// A file that is opened again is a step of each run that closed its last tail and reads on: what stood before it stands after it, with
/// one more opening before the last ones if the file is followed. It keeps what each other step keeps, but that a harvester of the
/// file's slot may come, with one more open tail. A law; it computes nothing.
pub fn openings_again_are_steps<F: Folder, L: Link, W: Wire<Link = L>, D: Disk, K: Clock, B: Bell>()
    ensures steps { OpeningsAgainAreSteps
        (step_words F.Folder F.Tail.Tail L.Link W.Wire D.Disk K.Clock B.Bell) }
    ensures keeps { OpeningsAgainKeep
        (step_words F.Folder F.Tail.Tail L.Link W.Wire D.Disk K.Clock B.Bell) }
{
    disk_images_are_counted::<D>();
}

/// A run that reads its files may begin to follow them. While it follows them, it may close the tail of a file that is at rest, or that
/// changed, between two rounds, and goes on to follow them. A law; it computes nothing.
pub fn following_goes_on<F: Folder, L: Link, W: Wire<Link = L>, D: Disk, K: Clock, B: Bell>()
    ensures begins { BeginsToFollow
        (step_words F.Folder F.Tail.Tail L.Link W.Wire D.Disk K.Clock B.Bell) }
    ensures closes { ClosingsAreSteps
        (step_words F.Folder F.Tail.Tail L.Link W.Wire D.Disk K.Clock B.Bell) }
{}

/// A file that is opened for the first time after a later scan is a step of each run that scans its folder again: what stood before it
/// stands after it, with one more file if the file is followed, and rounds may follow. It supposes that the newest scan gave the entry
/// by which the file is opened, with at least the size of the place from which it is read, and that no file and no hidden row has its
/// slot or its key. A law; it computes nothing.
pub fn openings_are_steps<F: Folder, L: Link, W: Wire<Link = L>, D: Disk, K: Clock, B: Bell>()
    ensures steps { OpeningsAreSteps
        (step_words F.Folder F.Tail.Tail L.Link W.Wire D.Disk K.Clock B.Bell) }
    ensures ready { OpeningsKeepReady
        (step_words F.Folder F.Tail.Tail L.Link W.Wire D.Disk K.Clock B.Bell) }
{
    disk_images_are_counted::<D>();
}

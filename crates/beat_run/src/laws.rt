ghost use Rattle.accounts.specs.RunsInARow.{HaveOwnIds};
ghost use Rattle.beat_config.specs.InRange.{AreInRange};
ghost use Rattle.beat_run.specs.AfterCrash.{FindsAreasAsCrashed, FindsKeys};
ghost use Rattle.beat_run.specs.NextRun.{EndedRun, FindsAreasAsLeft, FindsLastKeys, OpensKeptRows, OpensLastRows};
ghost use Rattle.beat_run.specs.UsedImages.{KeepsUsedImages};
ghost use Rattle.event_tree.specs.declared.settings.Settings.{Settings};
ghost use Rattle.registry_log.specs.OnlyRead.{IsOnlyRead};
ghost use Rattle.rounds.specs.WordsOf.{disks_of};

use outside::Disk;
use registry_store::one_choice;
use run_steps::disk_images_are_counted;

/// A disk of which nothing was asked was only read. A law; it computes nothing.
pub fn unasked_disk_is_only_read<D: Disk>()
    ensures { (disk : D) →
        IsOnlyRead D.contents D.images D.moment D.images_since D.faults disk disk }
{}

/// Each row that a run opens was reported by the run before, whatever it hit, or was as that one opened it; and no key loses its row
/// except rightly. So the rows that `accounted_runs_adjoin` asks for are there, and its inputs have their own ids. A law; it computes
/// nothing.
pub fn next_run_opens_kept_rows<D: Disk>()
    ensures opening { (earlier later : EndedRun (disks_of D.Disk)) →
        FindsAreasAsLeft (disks_of D.Disk) earlier.objects later.objects →
        OpensKeptRows (disks_of D.Disk) earlier later }
    ensures opening_behind_last_steps { (earlier later : EndedRun (disks_of D.Disk)) →
        FindsAreasAsLeft (disks_of D.Disk) earlier.objects later.objects →
        OpensLastRows (disks_of D.Disk) earlier later }
    ensures keys { (earlier later : EndedRun (disks_of D.Disk)) →
        FindsAreasAsLeft (disks_of D.Disk) earlier.objects later.objects →
        FindsLastKeys (disks_of D.Disk) earlier later }
    ensures own_ids { (settings : Settings) → AreInRange settings → HaveOwnIds settings.inputs }
{}

/// Each row that a run opens over areas as a crash left them at some moment of the run before, in the order of its account's
/// writes, was told by that run, or stood as it opened it; and no key loses its row but rightly, by some slot of it. The end of a run that ended is
/// such a moment, so the premise can hold. A law; it computes nothing.
pub fn run_after_a_crash_opens_kept_rows<D: Disk>()
    ensures opening { (earlier later : EndedRun (disks_of D.Disk)) →
        FindsAreasAsCrashed (disks_of D.Disk) earlier later.objects →
        OpensKeptRows (disks_of D.Disk) earlier later }
    ensures keys { (earlier later : EndedRun (disks_of D.Disk)) →
        FindsAreasAsCrashed (disks_of D.Disk) earlier later.objects →
        FindsKeys (disks_of D.Disk) earlier later }
    ensures end_is_such_a_moment { (earlier later : EndedRun (disks_of D.Disk)) →
        FindsAreasAsLeft (disks_of D.Disk) earlier.objects later.objects →
        FindsAreasAsCrashed (disks_of D.Disk) earlier later.objects }
{
    disk_images_are_counted::<D>();
    one_choice();
}

/// Whatever a crash at any moment of a run leaves of one area has kept rows, if it is opened and of the area that the run used
/// as it began, or of a greater generation than that had, or if the registry was empty. A law; it computes nothing.
pub fn used_images_have_kept_rows<D: Disk>()
    ensures { (run : EndedRun (disks_of D.Disk)) → KeepsUsedImages (disks_of D.Disk) run }
{
    one_choice();
}

ghost use Rattle.std.specs.Prelude.{◌≡◌, ◌<◌, ◌≤◌, [], All, IfErr, IfOk, OnOk, length};
ghost use Rattle.beat_config.specs.InRange.{AreInRange};
ghost use Rattle.prospect.specs.ListedFiles.{IsListedInRange};
ghost use Rattle.wire_base.specs.Ranges.{IsMoment};
ghost use Rattle.run_steps.specs.BeginErrors.{met_of};
ghost use Rattle.run_steps.specs.Beginnable.{AreBeginnable};
ghost use Rattle.run_steps.specs.Beginning.{beginning, file_of};
ghost use Rattle.run_steps.specs.BeginsAll.{BeginsAll, BeginsFrom, BeginsOrPasses, BeginsSome, Came, EndsBeginning, EndsInFiles, EndsInOne, IsOfInputs, KeepsOthers, both_came, came_of};
ghost use Rattle.run_steps.specs.KnownKeys.{HasRoomToBegin};
ghost use Rattle.run_steps.specs.Unnumbered.{IsMetUnnumbered};
ghost use Rattle.rounds.specs.WordsOf.{tails_of};

use crate::begin::{Admission, begin_one, pass_over};
use crate::begin_error::{BeginError, ended_behind};
use crate::context::Context;
use crate::opening::Opening;
use crate::telling::tell_moments;
use keeper::Keeper;
use outside::{Folder, Link, Wire};
use prospect::Listed;
use report::Passing;
use restart_join::Start;
use rounds::Crew;
use wire_base::{Moment, Slot};

/// What a scan reported, where each file starts, and the moment of the scan.
#[derive(Debug, Drop)]
pub struct Scanned {
    /// The first file of each key; its slot is its place in the list.
    pub listed: Vec<Listed>,
    /// The files that an earlier path led to.
    pub doubled: Vec<Listed>,
    /// Those that were gone as the scan asked them for their keys.
    pub gone: Vec<Listed>,
    /// Those that are too small for their fingerprints.
    pub small: Vec<Listed>,
    pub starts: Vec<Start>,
    pub now: Moment,
}

/// What came of files that were begun.
#[derive(Debug, Drop)]
pub struct BegunFiles {
    /// The paths that were skipped, each with why.
    pub passed: Vec<Passing>,
    /// Whether some file failed. It is not followed, and the others are.
    pub faulty: bool,
}

/// Opens each listed file, reports how each begins, and then when each was changed. `Err` is `NoNative` if a file had
/// no numbers, `FolderFault` if one failed before that, and `NoMemory`; what was begun by then stays begun.
pub fn begin_all<F: Folder, L: Link, W: Wire<Link = L>>(
    context: Context<'_, '_>,
    scanned: &Scanned,
    folder: &mut F,
    crew: &mut Crew<F::Tail, W, L>,
    keeper: &mut Keeper,
) -> Result<BegunFiles, BeginError>
    requires { AreBeginnable context.settings.now scanned.now crew.old keeper.old }
    ensures begun { IfOk result (λ begun. BeginsAll (tails_of F.Tail.Tail)
        context.entry.settings.now keeper.old.store.rows scanned.entry.now.now
        scanned.entry.now.listed.items (came_of begun)
        (beginning F.Folder folder.old crew.old keeper.old)
        (beginning F.Folder folder.new crew.new keeper.new)) }
    ensures ended { IfErr result (λ error. BeginsSome (tails_of F.Tail.Tail)
        context.entry.settings.now keeper.old.store.rows scanned.entry.now.now
        scanned.entry.now.listed.items error
        (beginning F.Folder folder.old crew.old keeper.old)
        (beginning F.Folder folder.new crew.new keeper.new)) }
    ensures ends { IfErr result (λ error.
        EndsBeginning (length scanned.entry.now.listed.items) error
        (beginning F.Folder folder.old crew.old keeper.old)
        (beginning F.Folder folder.new crew.new keeper.new)) }
    ensures unnumbered { IfErr result (λ error. IsMetUnnumbered context.entry.settings.now
        scanned.entry.now.listed.items (F.told folder.old) (F.told folder.new) (met_of error)) }
    ensures kept { KeepsOthers (length scanned.entry.now.listed.items)
        (beginning F.Folder folder.old crew.old keeper.old)
        (beginning F.Folder folder.new crew.new keeper.new) }
{
    let begun = begin_files(context, scanned, folder, crew, keeper)?;
    tell_moments(context.alloc, scanned.listed.as_slice(), keeper)?;
    Ok(begun)
}

/// Opens each, from slot 0 on.
fn begin_files<F: Folder, L: Link, W: Wire<Link = L>>(
    context: Context<'_, '_>,
    scanned: &Scanned,
    folder: &mut F,
    crew: &mut Crew<F::Tail, W, L>,
    keeper: &mut Keeper,
) -> Result<BegunFiles, BeginError>
    requires { AreBeginnable context.settings.now scanned.now crew.old keeper.old }
    ensures begun { IfOk result (λ begun. BeginsFrom (tails_of F.Tail.Tail)
        context.entry.settings.now keeper.old.store.rows scanned.entry.now.now 0
        scanned.entry.now.listed.items (came_of begun)
        (beginning F.Folder folder.old crew.old keeper.old)
        (beginning F.Folder folder.new crew.new keeper.new)) }
    ensures ended { IfErr result (λ error. EndsInFiles (tails_of F.Tail.Tail)
        context.entry.settings.now keeper.old.store.rows scanned.entry.now.now
        scanned.entry.now.listed.items error
        (beginning F.Folder folder.old crew.old keeper.old)
        (beginning F.Folder folder.new crew.new keeper.new)) }
{
    let mut begun = BegunFiles {
        passed: Vec::new(context.alloc),
        faulty: false,
    };
    let mut slot = 0;
    'files: while slot < scanned.listed.len() {
        let opening = Opening {
            slot: Slot(slot as u32),
            listed: &scanned.listed[slot],
            start: scanned.starts[slot],
            now: scanned.now,
        };
        begin_or_pass(context, opening, folder, crew, keeper, &mut begun)?;
        slot += 1;
    }
    Ok(begun)
}

/// Opens and follows the file, or adds its path to those that were skipped, or notes that it failed.
fn begin_or_pass<F: Folder, L: Link, W: Wire<Link = L>>(
    context: Context<'_, '_>,
    opening: Opening<'_>,
    folder: &mut F,
    crew: &mut Crew<F::Tail, W, L>,
    keeper: &mut Keeper,
    begun: &mut BegunFiles,
) -> Result<(), BeginError>
    requires settings { AreInRange context.settings.now }
    requires in_range { IsListedInRange opening.listed.now }
    requires input { opening.listed.now.input < length context.settings.now.inputs }
    requires moment { IsMoment opening.now }
    requires some_lanes { 0 < length crew.old.lanes.items }
    requires start { opening.start.base ≤ opening.listed.now.size }
    requires few { HasRoomToBegin opening.listed.now keeper.old }
    ensures begun { OnOk result ((more : Came) ×
        (came_of begun.new ≡ both_came (came_of begun.old) more) ×
        BeginsOrPasses (tails_of F.Tail.Tail) context.entry.settings.now
        (file_of opening.entry) more
        (beginning F.Folder folder.old crew.old keeper.old)
        (beginning F.Folder folder.new crew.new keeper.new)) }
    ensures ended { IfErr result (λ error. EndsInOne (tails_of F.Tail.Tail)
        context.entry.settings.now (file_of opening.entry) begun.old.faulty error
        (beginning F.Folder folder.old crew.old keeper.old)
        (beginning F.Folder folder.new crew.new keeper.new)) }
{
    match begin_one(context, opening, folder, crew, keeper) {
        Ok(Admission::Followed) => Ok(()),
        Ok(Admission::Skipped(why)) => {
            pass_over(context.alloc, opening.listed, why, &mut begun.passed)?;
            Ok(())
        }
        Ok(Admission::Failed) => {
            begun.faulty = true;
            Ok(())
        }
        Err(error) => Err(ended_behind(begun.faulty, error)),
    }
}

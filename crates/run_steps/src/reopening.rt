ghost use Rattle.std.specs.Prelude.{◌≡◌, ◌<◌, IfSome, IsNone, OnErr, OnOk, length};
ghost use Rattle.restart_join.specs.declared.start.TheConstants.{MAX_EPOCH};
ghost use Rattle.rounds.specs.WordsOf.{tails_of};
ghost use Rattle.run_steps.specs.Beginning.{beginning};
ghost use Rattle.run_steps.specs.Reopening.{AnnouncesRise, FollowsAgain, FollowsListedAgain, GivesUpAgain, IsReopenable, ReopensOne, TakesInAgain, goes_on_at, reopened_of};

use crate::begin::{Admission, admit, ask_key, harvest};
use crate::begin_error::BeginError;
use crate::context::Context;
use crate::leave::release;
use crate::opening::Opening;
use crate::telling::tell;
use harvester::Harvester;
use keeper::Keeper;
use outside::{Folder, FolderError, Link, Wire};
use report::Why;
use restart_join::Start;
use rounds::Crew;
use std::alloc::Global;
use wire_base::{Epoch, NoMemory, Note};

/// A known file that is to be opened again, after its tail was closed.
#[derive(Clone, Copy)]
pub struct Reopening<'a> {
    /// As it was listed last, and from where it is read on.
    pub opening: Opening<'a>,
    /// The epoch in which its last tail was closed. If no event was told in it, the file goes on from where that epoch begins.
    pub last: Epoch,
}

/// Where a file goes on that was told up to this place of its epoch, and is listed with this size: there, or from its first byte in
/// the next epoch. `None` means that it needs an epoch above the last.
pub fn goes_on(told: Start, size: u64) -> Option<Start>
    ensures start { IfSome result (λ start. start ≡ goes_on_at told size) }
    ensures spent { IsNone result → (size < told.base) × (told.epoch ≡ MAX_EPOCH) }
{
    if told.base <= size {
        return Some(told);
    }
    let epoch = told.epoch.checked_add(1)?;
    Some(Start { epoch, base: 0 })
}

/// Opens the file by its path once more, asks it for its key and follows it in the lane of its slot, from where it goes on; the
/// keeper is told its epoch if that rose. Or skips it, if another file has the path or none, or it is too small; or it failed. `Err` is as of the first
/// opening. A file that was opened and is not followed is closed again.
pub fn open_again<F: Folder, L: Link, W: Wire<Link = L>>(
    context: Context<'_, '_>,
    reopening: Reopening<'_>,
    folder: &mut F,
    crew: &mut Crew<F::Tail, W, L>,
    keeper: &mut Keeper,
) -> Result<Admission, BeginError>
    requires { IsReopenable context.settings.now (reopened_of reopening) crew.old }
    ensures opened { ReopensOne (tails_of F.Tail.Tail) context.entry.settings.now
        (reopened_of reopening.entry) result
        (beginning F.Folder folder.old crew.old keeper.old)
        (beginning F.Folder folder.new crew.new keeper.new) }
    ensures carriers { crew.new.carriers ≡ crew.old.carriers }
{
    match folder.open(context.alloc, &reopening.opening.listed.path) {
        Ok(Some(tail)) => follow_known(context, reopening, tail, folder, crew, keeper),
        Ok(None) => Ok(Admission::Skipped(Why::Gone)),
        Err(FolderError::Failed) => Ok(Admission::Failed),
        Err(FolderError::NoMemory) => Err(BeginError::NoMemory),
    }
}

/// Asks an open file for its key, and follows it if that is the one with which it was listed, or closes it.
fn follow_known<F: Folder, L: Link, W: Wire<Link = L>>(
    context: Context<'_, '_>,
    reopening: Reopening<'_>,
    mut tail: F::Tail,
    folder: &mut F,
    crew: &mut Crew<F::Tail, W, L>,
    keeper: &mut Keeper,
) -> Result<Admission, BeginError>
    requires { IsReopenable context.settings.now (reopened_of reopening) crew.old }
    ensures follows { FollowsListedAgain (tails_of F.Tail.Tail) context.entry.settings.now
        (reopened_of reopening.entry) tail result
        (beginning F.Folder folder.old crew.old keeper.old)
        (beginning F.Folder folder.new crew.new keeper.new) }
    ensures carriers { crew.new.carriers ≡ crew.old.carriers }
{
    match ask_key(context, reopening.opening, &mut tail) {
        Ok(None) => match follow_again(context, reopening, tail, folder, crew, keeper) {
            Ok(()) => Ok(Admission::Followed),
            Err(NoMemory) => Err(BeginError::NoMemory),
        },
        Ok(Some(other)) => {
            folder.close(tail);
            Ok(other)
        }
        Err(error) => {
            folder.close(tail);
            Err(error)
        }
    }
}

/// Follows an open file in the lane of its slot, or closes it.
fn follow_again<F: Folder, L: Link, W: Wire<Link = L>>(
    context: Context<'_, '_>,
    reopening: Reopening<'_>,
    tail: F::Tail,
    folder: &mut F,
    crew: &mut Crew<F::Tail, W, L>,
    keeper: &mut Keeper,
) -> Result<(), NoMemory>
    requires { IsReopenable context.settings.now (reopened_of reopening) crew.old }
    ensures follows { OnOk result (FollowsAgain (tails_of F.Tail.Tail) context.entry.settings.now
        (reopened_of reopening.entry) tail
        (beginning F.Folder folder.old crew.old keeper.old)
        (beginning F.Folder folder.new crew.new keeper.new)) }
    ensures gives_up { OnErr result (GivesUpAgain (tails_of F.Tail.Tail)
        (reopened_of reopening.entry) tail
        (beginning F.Folder folder.old crew.old keeper.old)
        (beginning F.Folder folder.new crew.new keeper.new)) }
    ensures carriers { crew.new.carriers ≡ crew.old.carriers }
{
    match harvest(context, reopening.opening, tail) {
        Ok(harvester) => take_in_again(context.alloc, reopening, harvester, folder, crew, keeper),
        Err(tail) => {
            folder.close(tail);
            Err(NoMemory)
        }
    }
}

/// Admits the harvester to the lane of its slot once the keeper was told an epoch that rose, or closes its file.
fn take_in_again<F: Folder, L: Link, W: Wire<Link = L>>(
    alloc: Global,
    reopening: Reopening<'_>,
    harvester: Harvester<F::Tail>,
    folder: &mut F,
    crew: &mut Crew<F::Tail, W, L>,
    keeper: &mut Keeper,
) -> Result<(), NoMemory>
    requires some_lanes { 0 < length crew.old.lanes.items }
    ensures taken { OnOk result (TakesInAgain (reopened_of reopening.entry) harvester
        (beginning F.Folder folder.old crew.old keeper.old)
        (beginning F.Folder folder.new crew.new keeper.new)) }
    ensures gives_up { OnErr result (GivesUpAgain (tails_of F.Tail.Tail)
        (reopened_of reopening.entry) harvester.tail
        (beginning F.Folder folder.old crew.old keeper.old)
        (beginning F.Folder folder.new crew.new keeper.new)) }
    ensures carriers { crew.new.carriers ≡ crew.old.carriers }
{
    if let Err(error) = announce(alloc, reopening, keeper) {
        release(folder, harvester);
        return Err(error);
    }
    match admit(reopening.opening.slot, harvester, crew) {
        Ok(()) => Ok(()),
        Err(harvester) => {
            release(folder, harvester);
            Err(NoMemory)
        }
    }
}

/// Tells the keeper the epoch, if it is another one than was told last. `Err` means out of memory, and leaves the keeper as it was.
fn announce(alloc: Global, reopening: Reopening<'_>, keeper: &mut Keeper) -> Result<(), NoMemory>
    ensures told { OnOk result
        (AnnouncesRise (reopened_of reopening.entry) keeper.old keeper.new) }
    ensures kept { OnErr result (keeper.new ≡ keeper.old) }
{
    let epoch = Epoch(reopening.opening.start.epoch);
    if epoch == reopening.last {
        return Ok(());
    }
    tell(
        alloc,
        Note::Announce {
            slot: reopening.opening.slot,
            epoch,
        },
        keeper,
    )
}

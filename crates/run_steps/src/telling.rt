ghost use Rattle.std.specs.Prelude.{◌≡◌, ◌∷◌, ◌≤◌, [], OnErr, OnOk, length};
ghost use Rattle.std.specs.Bool.{OnFalse, OnTrue};
ghost use Rattle.keeper.specs.FewKeys.{HasRoomFor};
ghost use Rattle.prospect.specs.ListedFiles.{IsListedInRange};
ghost use Rattle.wire_base.specs.Ranges.{IsMoment, IsNote};
ghost use Rattle.run_steps.specs.KnownKeys.{HasRoomToBegin};
ghost use Rattle.run_steps.specs.Telling.{IsFollowed, IsNotFollowed, TellMoments, TellSomeMoments, TellsBegin, TellsMoment, TellsNotes, moment_noted};

use crate::opening::{Opening, begin_of};
use crate::starts::row_of;
use keeper::Keeper;
use prospect::Listed;
use ship_core::Rows;
use std::alloc::Global;
use wire_base::{MAX_MOMENT, Moment, NoMemory, Note, Slot};

/// Reports to the keeper how the file begins, with 0 for its moment of change. `Err` means out of memory, and leaves it as it
/// was; a file whose key the listing did not give counts as that, too.
pub(crate) fn tell_begin(
    alloc: Global,
    opening: Opening<'_>,
    keeper: &mut Keeper,
) -> Result<(), NoMemory>
    requires in_range { IsListedInRange opening.listed.now }
    requires start { opening.start.base ≤ opening.listed.now.size }
    requires few { HasRoomToBegin opening.listed.now keeper.old }
    ensures told { OnOk result
        (TellsBegin opening.entry.slot opening.entry.listed.now opening.entry.start
        keeper.old keeper.new) }
    ensures kept { OnErr result (keeper.new ≡ keeper.old) }
{
    let begin = begin_of(alloc, opening)?;
    tell(
        alloc,
        Note::Begin {
            slot: begin.slot,
            key: begin.key,
            path: begin.path,
            epoch: begin.epoch,
            base: begin.base,
            changed: Moment(0),
        },
        keeper,
    )
}

pub(crate) fn tell(alloc: Global, note: Note, keeper: &mut Keeper) -> Result<(), NoMemory>
    requires range { IsNote note }
    requires few { HasRoomFor keeper.old.store.rows keeper.old.tracked note }
    ensures told { OnOk result (TellsNotes (note ∷ []) keeper.old keeper.new) }
    ensures kept { OnErr result (keeper.new ≡ keeper.old) }
{
    match keeper.tell(alloc, note) {
        Ok(()) => Ok(()),
        Err(_) => Err(NoMemory),
    }
}

/// Reports when each file that is followed was changed: as the scan listed it, or as its row has it if that is later; a
/// moment of 0 is not noted. The slots are the places in the list. `Err` means out of memory, after some of them.
pub fn tell_moments(alloc: Global, listed: &[Listed], keeper: &mut Keeper) -> Result<(), NoMemory>
    requires few { length listed.now ≤ 65_536 }
    ensures told { OnOk result
        (TellMoments keeper.old.store.rows 0 listed.now keeper.old keeper.new) }
    ensures some_told { OnErr result
        (TellSomeMoments keeper.old.store.rows listed.now keeper.old keeper.new) }
{
    let mut slot = 0;
    'files: while slot < listed.len() {
        tell_moment(alloc, Slot(slot as u32), &listed[slot], keeper)?;
        slot += 1;
    }
    Ok(())
}

fn tell_moment(
    alloc: Global,
    slot: Slot,
    listed: &Listed,
    keeper: &mut Keeper,
) -> Result<(), NoMemory>
    ensures told { OnOk result (TellsMoment slot
        (moment_noted keeper.old.store.rows listed.now) keeper.old keeper.new) }
    ensures kept { OnErr result (keeper.new ≡ keeper.old) }
{
    let changed = moment_among(keeper.rows(), listed);
    tell_changed(alloc, slot, changed, keeper)
}

/// Reports when a file was changed that a later scan listed, for the slot that the file has: as that scan listed it, or as its
/// row has it if that is later. The rows are those that the registry had as the run began. A slot that has no Begin, or whose row is
/// gone, has no note, and a moment of 0 is not noted. `Err` means out of memory, and leaves the keeper as it was.
pub fn tell_seen(
    alloc: Global,
    slot: Slot,
    listed: &Listed,
    rows: &Rows,
    keeper: &mut Keeper,
) -> Result<(), NoMemory>
    ensures told { OnOk result (TellsMoment slot
        (moment_noted rows.now listed.now) keeper.old keeper.new) }
    ensures kept { OnErr result (keeper.new ≡ keeper.old) }
{
    tell_changed(alloc, slot, moment_among(rows, listed), keeper)
}

/// Reports this moment for the slot, if it is above 0, the slot has a Begin, and its row is not gone.
fn tell_changed(
    alloc: Global,
    slot: Slot,
    changed: Moment,
    keeper: &mut Keeper,
) -> Result<(), NoMemory>
    requires { IsMoment changed }
    ensures told { OnOk result (TellsMoment slot changed keeper.old keeper.new) }
    ensures kept { OnErr result (keeper.new ≡ keeper.old) }
{
    if changed.0 == 0 || !is_followed(slot, keeper) {
        return Ok(());
    }
    tell(alloc, Note::Seen { slot, changed }, keeper)
}

/// When the file was changed, as the later of its row and the scan has it.
fn moment_among(rows: &Rows, listed: &Listed) -> Moment
    ensures moment { result ≡ moment_noted rows.now listed.now }
    ensures in_range { IsMoment result }
{
    let scanned = listed.changed.0.min(MAX_MOMENT);
    match row_of(rows, &listed.key) {
        Some(row) => Moment(row.changed.0.max(scanned)),
        None => Moment(scanned),
    }
}

/// Whether the slot has a Begin, and its row is not gone.
pub(crate) fn is_followed(slot: Slot, keeper: &Keeper) -> bool
    ensures followed { OnTrue result (IsFollowed slot.0 keeper.now.tracked) }
    ensures not_followed { OnFalse result (IsNotFollowed slot.0 keeper.now.tracked) }
{
    keeper.offset(slot).is_some()
}

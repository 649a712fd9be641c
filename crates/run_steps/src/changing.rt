ghost use Rattle.std.specs.Prelude.{◌≡◌, ◌<◌, IfOk, OnErr, false, length};
ghost use Rattle.std.specs.Bool.{OnFalse, OnTrue};
ghost use Rattle.rounds.specs.Crewed.{lanings};
ghost use Rattle.rounds.specs.WordsOf.{tails_of};
ghost use Rattle.wire_base.specs.Ranges.{IsPath};
ghost use Rattle.run_steps.specs.Changing.{EndsFile, HasNone, NamesBy, RenamesIfThere, StirsFile};

use crate::telling::{is_followed, tell};
use keeper::Keeper;
use lanes::Lane;
use outside::Tail;
use std::alloc::Global;
use wire_base::{NoMemory, Note, Slot, Text};

/// The path by which a scan lists the file of the slot.
#[derive(Debug, Drop)]
pub struct NewName {
    pub slot: Slot,
    /// The number of the scan; that of the first scan of the run is 0.
    pub scan: u64,
    pub path: Text,
}

/// Something was heard of the file of this slot: its harvester is not at rest until its next turn. Whether the lane of the slot
/// has one. Takes no memory.
pub fn stir_file<T: Tail>(slot: Slot, lanes: &mut [Lane<T>]) -> bool
    requires some_lanes { 0 < length lanes.old }
    ensures stirs { OnTrue result (StirsFile slot (lanings lanes.old) (lanings lanes.new)) }
    ensures none { OnFalse result (HasNone slot (lanings lanes.old)) }
    ensures kept { OnFalse result (lanings lanes.new ≡ lanings lanes.old) }
    ensures as_many { length lanes.new ≡ length lanes.old }
{
    let lane = slot.0 as usize % lanes.len();
    lanes[lane].stir(slot)
}

/// The file of this slot was removed: its harvester is asked to end, so that a later turn may find the end of the file, and is not
/// at rest. The file is not forgotten by that. Whether the lane of the slot has one. Takes no memory.
pub fn end_file<T: Tail>(slot: Slot, lanes: &mut [Lane<T>]) -> bool
    requires some_lanes { 0 < length lanes.old }
    ensures ends { OnTrue result
        (EndsFile (tails_of T.Tail) slot (lanings lanes.old) (lanings lanes.new)) }
    ensures none { OnFalse result (HasNone slot (lanings lanes.old)) }
    ensures kept { OnFalse result (lanings lanes.new ≡ lanings lanes.old) }
    ensures as_many { length lanes.new ≡ length lanes.old }
{
    if !stir_file(slot, lanes) {
        return false;
    }
    let lane = slot.0 as usize % lanes.len();
    let _ = lanes[lane].ending(slot, false);
    true
}

/// The file of this slot has another path: the keeper is told of it, and later events have it. A slot that has no Begin, or whose
/// row is gone, has no note. Whether the keeper was told. `Err` means out of memory, and leaves all as it was.
pub fn rename_file<T: Tail>(
    alloc: Global,
    name: NewName,
    lanes: &mut [Lane<T>],
    keeper: &mut Keeper,
) -> Result<bool, NoMemory>
    requires some_lanes { 0 < length lanes.old }
    requires path { IsPath name.path }
    ensures names { IfOk result (NamesBy (tails_of T.Tail) name
        (record { lanes = lanings lanes.old; keeper = keeper.old })
        (record { lanes = lanings lanes.new; keeper = keeper.new })) }
    ensures lanes_kept { OnErr result (lanings lanes.new ≡ lanings lanes.old) }
    ensures keeper_kept { OnErr result (keeper.new ≡ keeper.old) }
    ensures as_many { length lanes.new ≡ length lanes.old }
    ensures keeper_others { keeper.new ≡ record keeper.old { tracked = keeper.new.tracked } }
{
    let NewName { slot, scan, path } = name;
    if !is_followed(slot, keeper) {
        return Ok(false);
    }
    let noted = path.copy(alloc)?;
    let note = Note::Rename {
        slot,
        scan,
        path: noted,
    };
    tell(alloc, note, keeper)?;
    rename_in(slot, path, lanes);
    Ok(true)
}

/// Later events of the file of this slot have this path, if the lane of the slot has a harvester of it.
fn rename_in<T: Tail>(slot: Slot, path: Text, lanes: &mut [Lane<T>])
    requires some_lanes { 0 < length lanes.old }
    ensures renames { RenamesIfThere (tails_of T.Tail) slot (lanings lanes.old)
        (lanings lanes.new) path }
    ensures as_many { length lanes.new ≡ length lanes.old }
{
    let lane = slot.0 as usize % lanes.len();
    let _ = lanes[lane].rename(slot, path);
}

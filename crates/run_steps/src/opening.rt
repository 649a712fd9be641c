ghost use Rattle.std.specs.Prelude.{◌≤◌, IfOk};
ghost use Rattle.prospect.specs.ListedFiles.{IsListedInRange};
ghost use Rattle.wire_base.specs.Ranges.{IsBegin};
ghost use Rattle.run_steps.specs.BeginFor.{IsBeginFor};

use prospect::Listed;
use restart_join::Start;
use std::alloc::Global;
use wire_base::{Begin, Epoch, Moment, NoMemory, Slot};

/// A listed file that is to be opened.
#[derive(Clone, Copy)]
pub struct Opening<'a> {
    /// As it is opened first, its place in the list.
    pub slot: Slot,
    pub listed: &'a Listed,
    /// Where it starts: by its row, or where its last tail was told to.
    pub start: Start,
    /// The moment of the scan.
    pub now: Moment,
}

/// How the file begins. `Err` means out of memory, or a key that the listing did not give.
pub(crate) fn begin_of(alloc: Global, opening: Opening<'_>) -> Result<Begin, NoMemory>
    requires start { opening.start.base ≤ opening.listed.now.size }
    ensures begin { IfOk result
        (IsBeginFor opening.entry.slot opening.entry.listed.now opening.entry.start) }
    ensures in_range { IsListedInRange opening.entry.listed.now → IfOk result IsBegin }
{
    let listed = opening.listed;
    let Some(key) = &listed.key else {
        return Err(NoMemory);
    };
    Ok(Begin {
        slot: opening.slot,
        input: listed.input,
        key: key.copy(alloc)?,
        path: listed.path.copy(alloc)?,
        size: listed.size,
        epoch: Epoch(opening.start.epoch),
        base: opening.start.base,
    })
}

ghost use Rattle.std.specs.Prelude.{◌≡◌, IfOk, OnErr};
ghost use Rattle.wire_base.specs.Ranges.{IsPlace};
ghost use Rattle.run_steps.specs.Forgetting.{ForgetsBy};

use crate::telling::{is_followed, tell};
use keeper::Keeper;
use std::alloc::Global;
use wire_base::{Epoch, NoMemory, Note, Slot};

/// A file that was removed, and where all that was told of it ends.
#[derive(Clone, Copy, Debug, PartialEq, Eq)]
pub struct RemovedFile {
    pub slot: Slot,
    /// The last epoch that was told.
    pub epoch: Epoch,
    /// The end of the last span that was told in that epoch, or the place from which it is read, in bytes.
    pub end: u64,
}

/// The file was removed, and no tail of it is open: the keeper is told to forget it. A slot that has no Begin, or whose row is
/// gone, has no note. Whether the keeper was told. `Err` means out of memory, and leaves it as it was.
pub fn forget_closed(
    alloc: Global,
    file: RemovedFile,
    keeper: &mut Keeper,
) -> Result<bool, NoMemory>
    requires end { IsPlace file.end }
    ensures forgets { IfOk result (ForgetsBy file keeper.old keeper.new) }
    ensures kept { OnErr result (keeper.new ≡ keeper.old) }
{
    let RemovedFile { slot, epoch, end } = file;
    if !is_followed(slot, keeper) {
        return Ok(false);
    }
    tell(alloc, Note::Forget { slot, epoch, end }, keeper)?;
    Ok(true)
}

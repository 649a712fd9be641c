ghost use Rattle.std.specs.Prelude.{◌≡◌, ◌<◌, IfErr, IfOk, IsNone, None, Some};
ghost use Rattle.std.specs.Option.{option_copied};
ghost use Rattle.restart_join.specs.Joining.{full_for, full_slots};
ghost use Rattle.restart_join.specs.Starts.{start_of};

use prospector_core::{MAX_FILES, MAX_SLOTS};
use wire_base::{Full, Row};

/// The last epoch of a file.
pub const MAX_EPOCH: u32 = 4_294_967_295;

/// Where a file goes on.
#[derive(Clone, Copy, Debug, PartialEq, Eq)]
pub struct Start {
    pub epoch: u32,
    /// In bytes.
    pub base: u64,
}

/// Where the file of this row and size goes on, if this many files count and this many slots were given; or what there
/// is too much of.
pub fn start_of(row: Option<&Row>, size: u64, files: usize, slots: u32) -> Result<Start, Full>
    ensures started { IfOk result (λ start. start ≡ start_of size (option_copied row.entry)) }
    ensures room { IfOk result (λ _. full_for files slots size (option_copied row.entry) ≡ None) }
    ensures refused { IfErr result (λ what. full_for files slots size (option_copied row.entry) ≡ Some what) }
    ensures slots_fit { IfOk result (λ _. slots < 4_294_967_295) }
    ensures files_fit { IfOk result (λ _. IsNone row.entry → files < 65_536) }
{
    match row {
        None => {
            if MAX_FILES <= files {
                return Err(Full::Files);
            }
            with_slot(slots, Start { epoch: 0, base: 0 })
        }
        Some(row) => start_with_row(row, size, slots),
    }
}

fn start_with_row(row: &Row, size: u64, slots: u32) -> Result<Start, Full>
    ensures started { IfOk result (λ start. start ≡ start_of size (Some row.now)) }
    ensures room { IfOk result (λ _. full_for 0 slots size (Some row.now) ≡ None) }
    ensures refused { IfErr result (λ what. full_for 0 slots size (Some row.now) ≡ Some what) }
    ensures slots_fit { IfOk result (λ _. slots < 4_294_967_295) }
{
    let epoch = row.epoch.0;
    if row.offset <= size {
        let base = row.offset;
        return with_slot(slots, Start { epoch, base });
    }
    if MAX_EPOCH <= epoch {
        return Err(Full::Epochs);
    }
    let epoch = epoch + 1;
    with_slot(slots, Start { epoch, base: 0 })
}

fn with_slot(slots: u32, start: Start) -> Result<Start, Full>
    ensures same { IfOk result (λ given. given ≡ start) }
    ensures room { IfOk result (λ _. full_slots slots ≡ None) }
    ensures refused { IfErr result (λ what. full_slots slots ≡ Some what) }
    ensures fit { IfOk result (λ _. slots < 4_294_967_295) }
{
    if MAX_SLOTS <= slots {
        return Err(Full::Slots);
    }
    Ok(start)
}

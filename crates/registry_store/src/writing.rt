ghost use Rattle.std.specs.Prelude.{◌≡◌, ◌≢◌, ◌<◌, ◌≤◌, ◌+◌, ◌-◌, ℕ, All, IfOk, IsErrOf, IsSome, List, Some, true, false, if◌then◌else◌, length};
ghost use Rattle.outside.specs.Counts.{Rose};
ghost use Rattle.outside.specs.DiskImages.{LeavesOnly, Only};
ghost use Rattle.registry_log.specs.Area.{area_bytes};
ghost use Rattle.registry_log.specs.Starting.{IsShut};
ghost use Rattle.registry_store.specs.Appending.{HoldsOpened, IsOpenedWithSome, IsStartedWithSome};
ghost use Rattle.registry_store.specs.Beside.{IsSafeBeside};
ghost use Rattle.registry_store.specs.Choice.{Chosen};
ghost use Rattle.registry_store.specs.Committing.{AreFewThroughout};
ghost use Rattle.registry_store.specs.Settled.{AreSettled};
ghost use Rattle.registry_store.specs.Sides.{of_area, other_area, written_of};
ghost use Rattle.registry_store.specs.Standing.{is_worn};
ghost use Rattle.ship_core.specs.Replay.{replay_on};
ghost use Rattle.wire_base.specs.Ranges.{IsOp};

use crate::checkpoint;
use crate::records::append_all;
use outside::Disk;
use registry_log::LogError;
use ship_core::Rows;
use std::alloc::Global;
use wire_base::{MAX_PLACE, Op, Which};

/// A checkpoint starts if the part of an area past its checkpoint is longer, in bytes.
pub const MAX_PAST_START: u64 = 10_485_760;

/// The area that is used.
#[derive(Clone, Copy, Debug, Drop)]
pub(crate) struct Used {
    pub(crate) area: Which,
    pub(crate) generation: u64,
    /// the place of the first gate after the checkpoint
    pub(crate) start: u64,
    /// the place of the last gate
    pub(crate) end: u64,
}

/// Writes operations to `near`, the disk of the area that is used, or a checkpoint and the operations to `far`, the other
/// one.
fn write<D: Disk>(
    alloc: Global,
    used: Used,
    rows: &Rows,
    near: &mut D,
    far: &mut D,
    ops: &[Op],
) -> Result<Used, LogError>
    requires in_range { All IsOp ops.now }
    requires end { used.end < MAX_PLACE }
    requires few { AreFewThroughout rows.now ops.now }
    ensures near_kept { is_worn used.generation used.start used.end ops.now ≡ true → near.new ≡ near.old }
    ensures far_kept { is_worn used.generation used.start used.end ops.now ≡ false → far.new ≡ far.old }
    ensures settled { AreSettled D.contents D.images (of_area used.area near.old far.old) (of_area used.area far.old near.old) (Chosen used.area used.generation rows.now 29 used.end) → IfOk result (λ after. AreSettled D.contents D.images (of_area used.area near.new far.new) (of_area used.area far.new near.new) (Chosen after.area after.generation (replay_on rows.now ops.now) 29 after.end)) }
    ensures near_each_moment { is_worn used.generation used.start used.end ops.now ≡ false → AreSettled D.contents D.images (of_area used.area near.old far.old) (of_area used.area far.old near.old) (Chosen used.area used.generation rows.now 29 used.end) → LeavesOnly D.moment D.images_since near.old near.new (IsSafeBeside used.area (D.contents near.old) (D.images far.old) used.generation rows.now ops.now) }
    ensures far_each_moment { is_worn used.generation used.start used.end ops.now ≡ true → AreSettled D.contents D.images (of_area used.area near.old far.old) (of_area used.area far.old near.old) (Chosen used.area used.generation rows.now 29 used.end) → LeavesOnly D.moment D.images_since far.old far.new (IsSafeBeside (other_area used.area) (D.contents far.old) (D.images near.old) used.generation rows.now ops.now) }
    ensures worn { is_worn used.generation used.start used.end ops.now ≡ true → IfOk result (λ after. (after.area ≡ other_area used.area) × (after.generation ≡ used.generation + 1) × (after.start ≡ length (area_bytes (used.generation + 1) rows.now) - 1)) }
    ensures not_worn { is_worn used.generation used.start used.end ops.now ≡ false → IfOk result (λ after. (after.area ≡ used.area) × (after.generation ≡ used.generation) × (after.start ≡ used.start)) }
    ensures next_in_range { IfOk result (λ after. after.end < MAX_PLACE) }
    ensures near_told { IsSome (D.contents near.old) → IsSome (D.contents near.new) }
    ensures far_told { IsSome (D.contents far.old) → IsSome (D.contents far.new) }
    ensures near_fault { is_worn used.generation used.start used.end ops.now ≡ false → IsErrOf result LogError.DiskFault → Rose (D.faults near.old) (D.faults near.new) }
    ensures far_fault { is_worn used.generation used.start used.end ops.now ≡ true → IsErrOf result LogError.DiskFault → Rose (D.faults far.old) (D.faults far.new) }
    ensures near_faults_never_fall { D.faults near.old ≤ D.faults near.new }
    ensures far_faults_never_fall { D.faults far.old ≤ D.faults far.new }
{
    if is_worn(used, ops) {
        let generation = used.generation + 1;
        let (start, end) = write_anew(alloc, far, generation, rows, ops)?;
        return Ok(Used {
            area: other_area(used.area),
            generation,
            start,
            end,
        });
    }
    let end = append_all(alloc, near, used.end, ops)?;
    Ok(Used {
        area: used.area,
        generation: used.generation,
        start: used.start,
        end,
    })
}

/// A checkpoint is due before these operations.
fn is_worn(used: Used, ops: &[Op]) -> bool
    ensures { result ≡ is_worn used.generation used.start used.end ops.now }
{
    !ops.is_empty()
        && used.end.saturating_sub(used.start) > MAX_PAST_START
        && used.generation < u64::MAX
}

fn other_area(area: Which) -> Which
    ensures { result ≡ other_area area }
{
    match area {
        Which::A => Which::B,
        Which::B => Which::A,
    }
}

/// Writes operations to the area that is used, or a checkpoint and the operations to the other one. Answers the area that is
/// used then.
pub(crate) fn write_areas<D: Disk>(
    alloc: Global,
    used: Used,
    rows: &Rows,
    a: &mut D,
    b: &mut D,
    ops: &[Op],
) -> Result<Used, LogError>
    requires in_range { All IsOp ops.now }
    requires end { used.end < MAX_PLACE }
    requires few { AreFewThroughout rows.now ops.now }
    ensures other_kept { of_area (other_area (written_of used.area (is_worn used.generation used.start used.end ops.now))) a.new b.new ≡ of_area (other_area (written_of used.area (is_worn used.generation used.start used.end ops.now))) a.old b.old }
    ensures settled { AreSettled D.contents D.images a.old b.old (Chosen used.area used.generation rows.now 29 used.end) → IfOk result (λ after. AreSettled D.contents D.images a.new b.new (Chosen after.area after.generation (replay_on rows.now ops.now) 29 after.end)) }
    ensures each_moment { AreSettled D.contents D.images a.old b.old (Chosen used.area used.generation rows.now 29 used.end) → let written = written_of used.area (is_worn used.generation used.start used.end ops.now) in LeavesOnly D.moment D.images_since (of_area written a.old b.old) (of_area written a.new b.new) (IsSafeBeside written (D.contents (of_area written a.old b.old)) (D.images (of_area (other_area written) a.old b.old)) used.generation rows.now ops.now) }
    ensures area { IfOk result (λ after. after.area ≡ written_of used.area (is_worn used.generation used.start used.end ops.now)) }
    ensures generation { IfOk result (λ after. after.generation ≡ (if is_worn used.generation used.start used.end ops.now then used.generation + 1 else used.generation)) }
    ensures start { IfOk result (λ after. after.start ≡ (if is_worn used.generation used.start used.end ops.now then length (area_bytes (used.generation + 1) rows.now) - 1 else used.start)) }
    ensures next_in_range { IfOk result (λ after. after.end < MAX_PLACE) }
    ensures a_told { IsSome (D.contents a.old) → IsSome (D.contents a.new) }
    ensures b_told { IsSome (D.contents b.old) → IsSome (D.contents b.new) }
    ensures fault { let written = written_of used.area (is_worn used.generation used.start used.end ops.now) in IsErrOf result LogError.DiskFault → Rose (D.faults (of_area written a.old b.old)) (D.faults (of_area written a.new b.new)) }
    ensures a_faults_never_fall { D.faults a.old ≤ D.faults a.new }
    ensures b_faults_never_fall { D.faults b.old ≤ D.faults b.new }
{
    match used.area {
        Which::A => write(alloc, used, rows, a, b, ops),
        Which::B => write(alloc, used, rows, b, a, ops),
    }
}

/// A checkpoint, and the operations after it. Answers the places of the first gate after the checkpoint and of the last.
pub(crate) fn write_anew<D: Disk>(
    alloc: Global,
    into: &mut D,
    generation: u64,
    rows: &Rows,
    ops: &[Op],
) -> Result<(u64, u64), LogError>
    requires generation { 0 < generation }
    requires in_range { All IsOp ops.now }
    requires few { AreFewThroughout rows.now ops.now }
    ensures written { IsSome (D.contents into.old) → IfOk result (λ gates. HoldsOpened D.contents D.images into.new generation (replay_on rows.now ops.now) gates.1) }
    ensures each_moment { (before : List ℕ) → D.contents into.old ≡ Some before → Only (D.contents into.old) (D.images into.old) → LeavesOnly D.moment D.images_since into.old into.new (IsStartedWithSome generation rows.now ops.now before) }
    ensures first_gate { IfOk result (λ gates. gates.0 + 1 ≡ length (area_bytes generation rows.now)) }
    ensures next_in_range { IfOk result (λ gates. gates.1 < MAX_PLACE) }
    ensures told { IsSome (D.contents into.old) → IsSome (D.contents into.new) }
    ensures disk_fault_only_where_faults_rose { IsErrOf result LogError.DiskFault →
        Rose (D.faults into.old) (D.faults into.new) }
    ensures never_too_long { result ≢ Err LogError.RecordTooLong }
    ensures faults_never_fall { D.faults into.old ≤ D.faults into.new }
{
    let start = checkpoint(alloc, into, generation, rows)?;
    let end = append_all(alloc, into, start, ops)?;
    Ok((start, end))
}

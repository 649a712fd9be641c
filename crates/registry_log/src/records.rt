ghost use Rattle.std.specs.Prelude.{◌≡◌, ◌≢◌, ◌<◌, ◌≤◌, ℕ, [], All, IfNone, IfOk, IsErrOf, List, MatchOption, OnOk, Some, length};
ghost use Rattle.outside.specs.Counts.{Rose};
ghost use Rattle.ship_core.specs.Replay.{replay_on};
ghost use Rattle.wire_base.specs.Ranges.{IsOp};
ghost use Rattle.registry_log.specs.OnlyRead.{IsOnlyRead};
ghost use Rattle.registry_log.specs.RecordReading.{IsEndWithin, IsReadUpTo, ended_state};
ghost use Rattle.registry_log.specs.State.{IsState};
ghost use Rattle.registry_log.specs.Stretch.{IsStretchOf};

use crate::LogError;
use crate::record::{Head, RECORD_HEAD, read_head, read_operations};
use crate::stretch::Stretch;
use outside::Disk;
use ship_core::Rows;
use std::alloc::Global;
use wire_base::{NoMemory, Op};

/// How many rows a registry has at most.
pub const MAX_ROWS: usize = 65_536;

/// Where and how the records of an area end.
#[derive(Clone, Copy, Drop)]
pub(crate) enum End {
    /// The gate here is closed.
    Closed { gate: u64 },
    /// The gate here is absent, or it is open and no record follows.
    Broken { at: u64 },
}

/// Reads the records from a gate on, and applies their operations to the rows.
pub(crate) fn read_records<D: Disk>(
    alloc: Global,
    disk: &mut D,
    stretch: &mut Stretch,
    rows: &mut Rows,
) -> Result<End, LogError>
    ensures ends { (area : List ℕ) (generation : ℕ) → D.contents disk.old ≡ Some area → IsStretchOf area stretch.old → IsReadUpTo area generation stretch.old.place rows.old → IfOk result (λ end. IsState area (ended_state generation rows.new end)) }
    ensures within { length rows.old ≤ MAX_ROWS → IfOk result (IsEndWithin rows.new) }
    ensures only_read { IsOnlyRead D.contents D.images D.moment D.images_since D.faults
        disk.old disk.new }
    ensures disk_fault_only_where_faults_rose { IsErrOf result LogError.DiskFault →
        Rose (D.faults disk.old) (D.faults disk.new) }
    ensures never_too_long { result ≢ Err LogError.RecordTooLong }
{
    'records: loop {
        if let Some(end) = read_record(alloc, disk, stretch, rows)? {
            return Ok(end);
        }
    }
}

/// Reads one record and applies it; or reports that the records end here.
fn read_record<D: Disk>(
    alloc: Global,
    disk: &mut D,
    stretch: &mut Stretch,
    rows: &mut Rows,
) -> Result<Option<End>, LogError>
    ensures record { (area : List ℕ) (generation : ℕ) → D.contents disk.old ≡ Some area → IsStretchOf area stretch.old → IsReadUpTo area generation stretch.old.place rows.old → IfOk result (λ end. MatchOption end (IsStretchOf area stretch.new × IsReadUpTo area generation stretch.new.place rows.new) (λ end. IsState area (ended_state generation rows.new end))) }
    ensures within { length rows.old ≤ MAX_ROWS → IfOk result (λ end. MatchOption end (length rows.new ≤ MAX_ROWS) (IsEndWithin rows.new)) }
    ensures goes_on { IfOk result (λ end. IfNone end (stretch.old.place < stretch.new.place)) }
    ensures only_read { IsOnlyRead D.contents D.images D.moment D.images_since D.faults
        disk.old disk.new }
    ensures disk_fault_only_where_faults_rose { IsErrOf result LogError.DiskFault →
        Rose (D.faults disk.old) (D.faults disk.new) }
    ensures never_too_long { result ≢ Err LogError.RecordTooLong }
{
    let gate = stretch.place;
    stretch.fill(alloc, disk, RECORD_HEAD)?;
    let size = match read_head(stretch.unread()) {
        Head::Absent => return Ok(Some(End::Broken { at: gate })),
        Head::Broken => return Ok(Some(End::Broken { at: gate })),
        Head::Closed => return Ok(Some(End::Closed { gate })),
        Head::Length(size) => size,
    };
    stretch.fill(alloc, disk, size + 10)?;
    let found = read_operations(alloc, stretch.unread(), size)?;
    let ops = match found {
        Some(ops) => ops,
        None => return Ok(Some(End::Broken { at: gate })),
    };
    apply_all(alloc, rows, ops)?;
    if rows.len() > MAX_ROWS {
        return Ok(Some(End::Broken { at: gate }));
    }
    stretch.pass(size + 10);
    Ok(None)
}

fn apply_all(alloc: Global, rows: &mut Rows, ops: Vec<Op>) -> Result<(), NoMemory>
    requires { All IsOp ops.items }
    ensures { OnOk result (rows.new ≡ replay_on rows.old ops.items) }
{
    for op in ops {
        rows.apply(alloc, op)?;
    }
    Ok(())
}

ghost use Rattle.std.specs.Prelude.{◌≢◌, ◌<◌, ◌≤◌, ℕ, All, IfOk, IsErrOf, IsSome, List};
ghost use Rattle.outside.specs.Counts.{Rose};
ghost use Rattle.outside.specs.DiskImages.{LeavesOnly};
ghost use Rattle.ship_core.specs.Replay.{replay_on};
ghost use Rattle.registry_store.specs.Appending.{HoldsOpened, IsOpenedWithSome};
ghost use Rattle.registry_store.specs.Committing.{AreFewThroughout};
ghost use Rattle.wire_base.specs.Ranges.{IsOp};
ghost use Rattle.wire_base.specs.declared.row.Row.{Row};

use outside::Disk;
use registry_frame::front_body;
use registry_log::{LogError, MAX_BODY, append_body};
use std::alloc::Global;
use wire_base::{MAX_PLACE, Op};

/// Appends the operations to an area whose last gate is at `end`, cut into records, and answers the place of the new
/// last gate.
pub(crate) fn append_all<D: Disk>(
    alloc: Global,
    disk: &mut D,
    end: u64,
    ops: &[Op],
) -> Result<u64, LogError>
    requires in_range { All IsOp ops.now }
    requires end { end < MAX_PLACE }
    ensures appended { (generation : ℕ) (rows : List Row) → HoldsOpened D.contents D.images disk.old generation rows end → AreFewThroughout rows ops.now → IfOk result (HoldsOpened D.contents D.images disk.new generation (replay_on rows ops.now)) }
    ensures each_moment { (generation : ℕ) (rows : List Row) → HoldsOpened D.contents D.images disk.old generation rows end → AreFewThroughout rows ops.now → LeavesOnly D.moment D.images_since disk.old disk.new (IsOpenedWithSome generation rows ops.now) }
    ensures next_in_range { IfOk result (λ gate. gate < MAX_PLACE) }
    ensures told { IsSome (D.contents disk.old) → IsSome (D.contents disk.new) }
    ensures disk_fault_only_where_faults_rose { IsErrOf result LogError.DiskFault →
        Rose (D.faults disk.old) (D.faults disk.new) }
    ensures never_too_long { result ≢ Err LogError.RecordTooLong }
    ensures faults_never_fall { D.faults disk.old ≤ D.faults disk.new }
{
    let mut gate = end;
    let mut done = 0;
    'records: while done < ops.len() {
        let rest = &ops[done..];
        let front = front_body(alloc, rest, MAX_BODY)?;
        gate = append_body(alloc, disk, gate, &rest[..front.count], front.body.bytes())?;
        done += front.count;
    }
    Ok(gate)
}

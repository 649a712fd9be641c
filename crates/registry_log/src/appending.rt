ghost use Rattle.std.specs.Prelude.{◌≡◌, ◌≢◌, ◌<◌, ◌≤◌, ◌+◌, ◌++◌, ◌∷◌, ℕ, [], All, IfOk, IsErrOf, IsSome, List, OnOk, Some, codes, length};
ghost use Rattle.outside.specs.Counts.{Rose};
ghost use Rattle.outside.specs.DiskImages.{LeavesOnly, Only};
ghost use Rattle.registry_frame.specs.Body.{body_bytes};
ghost use Rattle.registry_frame.specs.BodyOf.{IsBodyOf};
ghost use Rattle.registry_log.specs.Appending.{IsBeforeOrAfter, MayAppend, appended_bytes, gate_behind};
ghost use Rattle.registry_log.specs.Records.{record_of};
ghost use Rattle.registry_log.specs.State.{IsOpened};
ghost use Rattle.ship_core.specs.Replay.{replay_on};
ghost use Rattle.wire_base.specs.Ranges.{IsOp};
ghost use Rattle.wire_base.specs.declared.row.Row.{Row};

use crate::synced::write_synced;
use crate::{LogError, MAX_BODY, OPEN};
use outside::Disk;
use registry_frame::body;
use std::alloc::Global;
use wire_base::{MAX_PLACE, NoMemory, Op};

/// Appends a record with these operations to an area whose last gate is at `end`, and answers the place of the new last
/// gate.
///
/// The record is on the disk, after a gate that is closed, before that gate opens. All memory is taken before the disk is
/// called. The operations are those that one body may hold; the caller cuts a longer list.
pub fn append<D: Disk>(alloc: Global, disk: &mut D, end: u64, ops: &[Op]) -> Result<u64, LogError>
    requires some { ops.now ≢ [] }
    requires in_range { All IsOp ops.now }
    requires end { end < MAX_PLACE }

    ensures last_gate { IfOk result (λ gate. gate ≡ gate_behind end ops.now) }
    ensures next_in_range { IfOk result (λ gate. gate < MAX_PLACE) }

    // Of an area that is opened, and whose last gate is at `end`: what it holds afterwards, and how that reads.
    ensures appended { (area : List ℕ) (generation : ℕ) (rows : List Row) →
        D.contents disk.old ≡ Some area → MayAppend area generation rows end ops.now →
        OnOk result (D.contents disk.new ≡ Some (appended_bytes area end ops.now)) }
    ensures opened { (area : List ℕ) (generation : ℕ) (rows : List Row) →
        MayAppend area generation rows end ops.now →
        IfOk result (IsOpened (appended_bytes area end ops.now) generation (replay_on rows ops.now)) }
    ensures durable { OnOk result (Only (D.contents disk.new) (D.images disk.new)) }

    // If nothing was pending, a crash at any moment of the call leaves the rows before or the rows after.
    ensures each_moment { Only (D.contents disk.old) (D.images disk.old) →
        (area : List ℕ) (generation : ℕ) (rows : List Row) →
        D.contents disk.old ≡ Some area → MayAppend area generation rows end ops.now →
        LeavesOnly D.moment D.images_since disk.old disk.new (IsBeforeOrAfter generation rows end ops.now) }

    ensures fits { result ≢ Err LogError.RecordTooLong → result ≢ Err LogError.NoMemory →
        length (body_bytes ops.now) ≤ MAX_BODY }
    ensures too_long { IsErrOf result LogError.RecordTooLong →
        MAX_BODY < length (body_bytes ops.now) }
    ensures too_long_is_not_written { MAX_BODY < length (body_bytes ops.now) → disk.new ≡ disk.old }
    ensures untouched_without_memory { IsErrOf result LogError.NoMemory → disk.new ≡ disk.old }
    ensures disk_fault_only_where_faults_rose { IsErrOf result LogError.DiskFault →
        Rose (D.faults disk.old) (D.faults disk.new) }
    ensures told { IsSome (D.contents disk.old) → IsSome (D.contents disk.new) }
    ensures faults_never_fall { D.faults disk.old ≤ D.faults disk.new }
{
    let body = body(alloc, ops)?;
    if body.bytes().len() > MAX_BODY {
        return Err(LogError::RecordTooLong);
    }
    append_body(alloc, disk, end, ops, body.bytes())
}

/// As `append`, if the body of the record is made already. It is not longer than one body may be.
pub fn append_body<D: Disk>(
    alloc: Global,
    disk: &mut D,
    end: u64,
    _ops: &[Op],
    body: &[u8],
) -> Result<u64, LogError>
    requires body { IsBodyOf _ops.now body.now }
    requires fits { length body.now ≤ MAX_BODY }
    requires end { end < MAX_PLACE }

    ensures last_gate { IfOk result (λ gate. gate ≡ gate_behind end _ops.now) }
    ensures next_in_range { IfOk result (λ gate. gate < MAX_PLACE) }

    // Of an area that is opened, and whose last gate is at `end`: what it holds afterwards, and how that reads.
    ensures appended { (area : List ℕ) (generation : ℕ) (rows : List Row) →
        D.contents disk.old ≡ Some area → MayAppend area generation rows end _ops.now →
        OnOk result (D.contents disk.new ≡ Some (appended_bytes area end _ops.now)) }
    ensures opened { (area : List ℕ) (generation : ℕ) (rows : List Row) →
        MayAppend area generation rows end _ops.now →
        IfOk result (IsOpened (appended_bytes area end _ops.now) generation (replay_on rows _ops.now)) }
    ensures durable { OnOk result (Only (D.contents disk.new) (D.images disk.new)) }

    // If nothing was pending, a crash at any moment of the call leaves the rows before or the rows after.
    ensures each_moment { Only (D.contents disk.old) (D.images disk.old) →
        (area : List ℕ) (generation : ℕ) (rows : List Row) →
        D.contents disk.old ≡ Some area → MayAppend area generation rows end _ops.now →
        LeavesOnly D.moment D.images_since disk.old disk.new (IsBeforeOrAfter generation rows end _ops.now) }

    ensures never_too_long { result ≢ Err LogError.RecordTooLong }
    ensures untouched_without_memory { IsErrOf result LogError.NoMemory → disk.new ≡ disk.old }
    ensures disk_fault_only_where_faults_rose { IsErrOf result LogError.DiskFault →
        Rose (D.faults disk.old) (D.faults disk.new) }
    ensures told { IsSome (D.contents disk.old) → IsSome (D.contents disk.new) }
    ensures faults_never_fall { D.faults disk.old ≤ D.faults disk.new }
{
    let text = record_text(alloc, body)?;
    write_synced(disk, end + 1, &text)?;
    write_synced(disk, end, OPEN)?;
    Ok(end + text.len() as u64)
}

/// A record after its gate, and a closed gate after it.
fn record_text(alloc: Global, body: &[u8]) -> Result<Vec<u8>, NoMemory>
    ensures { IfOk result (λ text. 0x7B ∷ text.items ≡ record_of body.now ++ codes ".") }
{
    let size = body.len();
    let mut text = format!(in alloc; "{size:07} ")?.into_bytes();
    text.extend_from_slice(body)?;
    text.extend_from_slice(b"\n.")?;
    Ok(text)
}

ghost use Rattle.std.specs.Prelude.{◌≡◌, ◌≢◌, ◌<◌, ◌≤◌, ◌+◌, ◌-◌, ◌∷◌, ◌↔◌, All, IfOk, IfSome, IsErrOf, IsSome, IsTrue, OnErr, OnOk, length};
ghost use Rattle.outside.specs.Counts.{Rose};
ghost use Rattle.outside.specs.DiskImages.{LeavesOnly, Only};
ghost use Rattle.registry_frame.specs.Body.{body_bytes};
ghost use Rattle.registry_log.specs.Area.{area_bytes, sets};
ghost use Rattle.registry_log.specs.Records.{groups};
ghost use Rattle.registry_log.specs.State.{IsState, Opened};
ghost use Rattle.registry_log.specs.Starting.{Holds, IsBlank, IsClosed, IsPartStarted, IsPartWritten, IsShut};

use crate::area_text::area_text;
use crate::synced::{cut_synced, write_synced};
use crate::{LogError, MAX_BODY};
use outside::{Disk, Failed};
use ship_core::Rows;
use std::alloc::Global;

const CLOSED: &[u8] = b".";

pub(crate) const OPEN: &[u8] = b"{";

/// Starts an area with a generation and rows, whatever it held, and answers the place of its last gate.
///
/// All memory is taken before the disk is called.
pub fn start_area<D: Disk>(
    alloc: Global,
    disk: &mut D,
    generation: u64,
    rows: &Rows,
) -> Result<u64, LogError>
    requires generation { 0 < generation }
    requires rows { length rows.now ≤ 65_536 }

    ensures started { OnOk result (IfSome (D.contents disk.old)
        (λ before. D.contents disk.new ≡ Some (area_bytes generation rows.now))) }
    ensures last_gate { IfOk result (λ gate. gate + 1 ≡ length (area_bytes generation rows.now)) }
    ensures durable { OnOk result (Only (D.contents disk.new) (D.images disk.new)) }
    ensures bodies_fit { OnOk result
        (All (λ ops. length (body_bytes ops) ≤ MAX_BODY) (groups (sets rows.now))) }

    // It reads as opened, with exactly these rows.
    ensures opened { result ≢ Err LogError.NoMemory → IsState (area_bytes generation rows.now)
        (Opened generation rows.now 29 (length (area_bytes generation rows.now) - 1)) }

    // If nothing was pending, a crash at any moment of the call leaves one of these.
    ensures each_moment { Only (D.contents disk.old) (D.images disk.old) →
        IfSome (D.contents disk.old) (λ before. LeavesOnly D.moment D.images_since disk.old disk.new
        (IsPartStarted generation rows.now before)) }
    ensures left { OnErr result (Only (D.contents disk.old) (D.images disk.old) →
        IfSome (D.contents disk.old) (λ before.
        Holds (IsPartStarted generation rows.now before) (D.contents disk.new))) }

    ensures told { IsSome (D.contents disk.old) → IsSome (D.contents disk.new) }
    ensures untouched_without_memory { IsErrOf result LogError.NoMemory → disk.new ≡ disk.old }
    ensures disk_fault_only_where_faults_rose { IsErrOf result LogError.DiskFault →
        Rose (D.faults disk.old) (D.faults disk.new) }
    ensures never_too_long { result ≢ Err LogError.RecordTooLong }
    ensures faults_never_fall { D.faults disk.old ≤ D.faults disk.new }
{
    let Ok(text) = area_text(alloc, generation, rows) else {
        return Err(LogError::NoMemory);
    };
    match write_area(disk, &text) {
        Ok(()) => Ok(text.len() as u64),
        Err(_) => Err(LogError::DiskFault),
    }
}

/// Writes all that follows the first gate, and then opens it.
fn write_area<D: Disk>(disk: &mut D, bytes: &[u8]) -> Result<(), Failed>
    ensures written { OnOk result (IfSome (D.contents disk.old) (λ before. D.contents disk.new ≡ Some (0x7B ∷ bytes.now))) }
    ensures durable { OnOk result (Only (D.contents disk.new) (D.images disk.new)) }
    ensures each_moment { Only (D.contents disk.old) (D.images disk.old) → IfSome (D.contents disk.old) (λ before. LeavesOnly D.moment D.images_since disk.old disk.new (IsPartWritten (0x7B ∷ bytes.now) before)) }
    ensures told { IsSome (D.contents disk.old) → IsSome (D.contents disk.new) }
    ensures faults_never_fall { D.faults disk.old ≤ D.faults disk.new }
    ensures failed_only_where_faults_rose { OnErr result (Rose (D.faults disk.old) (D.faults disk.new)) }
{
    close_gate(disk)?;
    cut_to_gate(disk)?;
    write_synced(disk, 1, bytes)?;
    write_synced(disk, 0, OPEN)
}

/// Leaves an area with a closed gate that is synced.
fn close_gate<D: Disk>(disk: &mut D) -> Result<(), Failed>
    ensures closed { OnOk result (IfSome (D.contents disk.old) (λ before. Holds IsClosed (D.contents disk.new))) }
    ensures settled { OnOk result (Only (D.contents disk.old) (D.images disk.old) → Only (D.contents disk.new) (D.images disk.new)) }
    ensures each_moment { Only (D.contents disk.old) (D.images disk.old) → IfSome (D.contents disk.old) (λ before. LeavesOnly D.moment D.images_since disk.old disk.new (IsShut before)) }
    ensures told { IsSome (D.contents disk.old) → IsSome (D.contents disk.new) }
    ensures faults_never_fall { D.faults disk.old ≤ D.faults disk.new }
    ensures failed_only_where_faults_rose { OnErr result (Rose (D.faults disk.old) (D.faults disk.new)) }
{
    if is_closed(disk)? {
        return Ok(());
    }
    write_synced(disk, 0, CLOSED)
}

fn is_closed<D: Disk>(disk: &mut D) -> Result<bool, Failed>
    ensures tells { IfSome (D.contents disk.old) (λ bytes. IfOk result (λ closed. IsTrue closed ↔ IsClosed bytes)) }
    ensures contents_kept { D.contents disk.new ≡ D.contents disk.old }
    ensures settled { Only (D.contents disk.old) (D.images disk.old) → Only (D.contents disk.new) (D.images disk.new) }
    ensures each_moment { Only (D.contents disk.old) (D.images disk.old) → IfSome (D.contents disk.old) (λ before. LeavesOnly D.moment D.images_since disk.old disk.new (λ area. area ≡ before)) }
    ensures faults_never_fall { D.faults disk.old ≤ D.faults disk.new }
    ensures failed_only_where_faults_rose { OnErr result (Rose (D.faults disk.old) (D.faults disk.new)) }
{
    let mut gate = [0u8; 1];
    let count = disk.read(0, &mut gate)?;
    Ok(count == 1 && gate != *b"{")
}

/// Takes away all that follows a closed gate.
fn cut_to_gate<D: Disk>(disk: &mut D) -> Result<(), Failed>
    ensures cut { OnOk result (Holds IsClosed (D.contents disk.old) → Holds (λ area. IsClosed area × IsBlank area) (D.contents disk.new)) }
    ensures settled { OnOk result (Only (D.contents disk.old) (D.images disk.old) → Only (D.contents disk.new) (D.images disk.new)) }
    ensures each_moment { Only (D.contents disk.old) (D.images disk.old) → Holds IsClosed (D.contents disk.old) → LeavesOnly D.moment D.images_since disk.old disk.new IsClosed }
    ensures told { IsSome (D.contents disk.old) → IsSome (D.contents disk.new) }
    ensures faults_never_fall { D.faults disk.old ≤ D.faults disk.new }
    ensures failed_only_where_faults_rose { OnErr result (Rose (D.faults disk.old) (D.faults disk.new)) }
{
    if disk.len()? <= 1 {
        return Ok(());
    }
    cut_synced(disk, 1)
}

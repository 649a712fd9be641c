ghost use Rattle.std.specs.Prelude.{◌≡◌, ◌≢◌, ◌<◌, ◌≤◌, ◌+◌, ◌-◌, ℕ, All, IfOk, IfSome, IsErrOf, IsSome, List, OnErr, OnOk, Some, length};
ghost use Rattle.outside.specs.Counts.{Rose};
ghost use Rattle.outside.specs.DiskImages.{LeavesOnly, Only};
ghost use Rattle.registry_frame.specs.Body.{body_bytes};
ghost use Rattle.registry_log.specs.Area.{area_bytes, sets};
ghost use Rattle.registry_log.specs.Records.{groups};
ghost use Rattle.registry_log.specs.Starting.{Holds, IsPartStarted};
ghost use Rattle.registry_log.specs.State.{IsOpened};
ghost use Rattle.registry_store.specs.Choice.{Chosen, GivesRows, IsChoice};
ghost use Rattle.registry_store.specs.Sides.{of_area};
ghost use Rattle.wire_base.specs.declared.limits.Which.{Which};

use outside::Disk;
use registry_log::{LogError, MAX_BODY, start_area};
use ship_core::Rows;
use std::alloc::Global;
use wire_base::MAX_PLACE;

/// Starts the area that is not used with the next generation and the present rows, and answers the place of its last gate.
/// It is used from Ok on.
///
/// Whatever the area held, nothing of it is read any more before the new rows are on the disk.
pub fn checkpoint<D: Disk>(
    alloc: Global,
    into: &mut D,
    generation: u64,
    rows: &Rows,
) -> Result<u64, LogError>
    requires generation { 0 < generation }
    requires rows { length rows.now ≤ 65_536 }

    ensures started { OnOk result (IfSome (D.contents into.old)
        (λ before. D.contents into.new ≡ Some (area_bytes generation rows.now))) }
    ensures opened { result ≢ Err LogError.NoMemory → IsOpened (area_bytes generation rows.now)
        generation rows.now (length (area_bytes generation rows.now) - 1) }
    ensures last_gate { IfOk result (λ gate. gate + 1 ≡ length (area_bytes generation rows.now)) }
    ensures in_range { IfOk result (λ gate. gate < MAX_PLACE) }
    ensures durable { OnOk result (Only (D.contents into.new) (D.images into.new)) }
    ensures bodies_fit { OnOk result
        (All (λ ops. length (body_bytes ops) ≤ MAX_BODY) (groups (sets rows.now))) }

    // If nothing was pending, a crash at any moment of the call leaves what was there, nothing that is read, or all.
    ensures each_moment { Only (D.contents into.old) (D.images into.old) →
        IfSome (D.contents into.old) (λ before. LeavesOnly D.moment D.images_since into.old into.new
        (IsPartStarted generation rows.now before)) }

    ensures left { OnErr result (Only (D.contents into.old) (D.images into.old) →
        IfSome (D.contents into.old) (λ before.
        Holds (IsPartStarted generation rows.now before) (D.contents into.new))) }

    // Beside the area that is used, with an earlier generation and the same rows, each of these gives the rows.
    ensures gives_the_rows { (used : Which) (earlier end : ℕ) (before other : List ℕ) →
        Only (D.contents into.old) (D.images into.old) → D.contents into.old ≡ Some before →
        earlier < generation →
        IsChoice (of_area used other before) (of_area used before other) (Chosen used earlier rows.now 29 end) →
        LeavesOnly D.moment D.images_since into.old into.new
        (λ image. GivesRows (of_area used other image) (of_area used image other) rows.now) }

    ensures told { IsSome (D.contents into.old) → IsSome (D.contents into.new) }
    ensures untouched_without_memory { IsErrOf result LogError.NoMemory → into.new ≡ into.old }
    ensures disk_fault_only_where_faults_rose { IsErrOf result LogError.DiskFault →
        Rose (D.faults into.old) (D.faults into.new) }
    ensures never_too_long { result ≢ Err LogError.RecordTooLong }
    ensures faults_never_fall { D.faults into.old ≤ D.faults into.new }
{
    start_area(alloc, into, generation, rows)
}

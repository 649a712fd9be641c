ghost use Rattle.std.specs.Prelude.{◌≡◌, ◌≤◌, IfSome, IsSome, OnErr, OnOk, length, take};
ghost use Rattle.outside.specs.Counts.{Rose};
ghost use Rattle.outside.specs.DiskImages.{LeavesOnly, MayBeCut, Only, Torn, reach};
ghost use Rattle.outside.specs.DiskReads.{written};
ghost use Rattle.wire_base.specs.Ranges.{IsPlace};

use outside::{Disk, Failed};

/// Writes, and then syncs.
pub(crate) fn write_synced<D: Disk>(disk: &mut D, at: u64, bytes: &[u8]) -> Result<(), Failed>
    ensures written { OnOk result (IfSome (D.contents disk.old) (λ before.
        D.contents disk.new ≡ Some (written before at bytes.now))) }
    ensures durable { OnOk result (Only (D.contents disk.new) (D.images disk.new)) }
    ensures each_moment { Only (D.contents disk.old) (D.images disk.old) →
        IfSome (D.contents disk.old) (λ before.
        LeavesOnly D.moment D.images_since disk.old disk.new (Torn at (length bytes.now) before)) }
    ensures in_range { OnOk result (IsPlace (reach at (length bytes.now))) }
    ensures told { IsSome (D.contents disk.old) → IsSome (D.contents disk.new) }
    ensures faults_never_fall { D.faults disk.old ≤ D.faults disk.new }
    ensures failed_only_where_faults_rose { OnErr result (Rose (D.faults disk.old) (D.faults
        disk.new)) }
{
    disk.write_at(at, bytes)?;
    disk.sync()
}

/// Cuts, and then syncs.
pub(crate) fn cut_synced<D: Disk>(disk: &mut D, len: u64) -> Result<(), Failed>
    ensures cut { OnOk result (IfSome (D.contents disk.old) (λ before.
        D.contents disk.new ≡ Some (take len before))) }
    ensures durable { OnOk result (Only (D.contents disk.new) (D.images disk.new)) }
    ensures each_moment { Only (D.contents disk.old) (D.images disk.old) →
        IfSome (D.contents disk.old) (λ before.
        LeavesOnly D.moment D.images_since disk.old disk.new (MayBeCut len before)) }
    ensures told { IsSome (D.contents disk.old) → IsSome (D.contents disk.new) }
    ensures faults_never_fall { D.faults disk.old ≤ D.faults disk.new }
    ensures failed_only_where_faults_rose { OnErr result (Rose (D.faults disk.old) (D.faults
        disk.new)) }
{
    disk.cut(len)?;
    disk.sync()
}

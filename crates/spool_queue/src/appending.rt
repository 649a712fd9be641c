ghost use Rattle.std.specs.Prelude.{◌≡◌, ◌≢◌, ◌<◌, ◌≤◌, ◌+◌, ◌++◌, ◌∷◌, ℕ, IsSome, List, OnErr, OnOk, Some, length};
ghost use Rattle.outside.specs.Counts.{Rose};
ghost use Rattle.outside.specs.DiskImages.{LeavesOnly, Only};
ghost use Rattle.spool_queue.specs.Appending.{IsPartAppended, appended};
ghost use Rattle.wire_base.specs.Ranges.{IsPlace};

use crate::synced::write_synced;
use outside::{Disk, Failed};

const OPEN: &[u8] = b"{";

/// Writes a record after the closed gate at `end`, with the next gate, and then opens the gate.
pub(crate) fn append<D: Disk>(disk: &mut D, end: u64, text: &[u8]) -> Result<(), Failed>
    requires end { IsPlace end }
    requires some { 0 < length text.now }
    ensures appended { (front rest : List ℕ) (gate : ℕ) →
        D.contents disk.old ≡ Some (front ++ gate ∷ rest) → length front ≡ end →
        OnOk result (D.contents disk.new ≡ Some (appended front text.now rest)) }
    ensures durable { OnOk result (Only (D.contents disk.new) (D.images disk.new)) }
    ensures each_moment { Only (D.contents disk.old) (D.images disk.old) →
        (front rest : List ℕ) (gate : ℕ) →
        D.contents disk.old ≡ Some (front ++ gate ∷ rest) → length front ≡ end → gate ≢ 0x7B →
        LeavesOnly D.moment D.images_since disk.old disk.new (IsPartAppended front text.now rest) }
    ensures in_range { OnOk result (IsPlace (end + 1 + length text.now)) }
    ensures told { IsSome (D.contents disk.old) → IsSome (D.contents disk.new) }
    ensures faults_never_fall { D.faults disk.old ≤ D.faults disk.new }
    ensures failed_only_where_faults_rose { OnErr result (Rose (D.faults disk.old) (D.faults
        disk.new)) }
{
    write_synced(disk, end + 1, text)?;
    write_synced(disk, end, OPEN)
}

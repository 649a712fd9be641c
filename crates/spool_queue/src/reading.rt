ghost use Rattle.std.specs.Prelude.{◌≡◌, ◌<◌, ◌≤◌, ◌+◌, ℕ, IfOk, List, OnErr, Some, drop, length, take};
ghost use Rattle.outside.specs.Counts.{Rose};
ghost use Rattle.spool_queue.specs.OnlyRead.{IsOnlyRead};
ghost use Rattle.wire_base.specs.Ranges.{IsPlace};

use outside::{Disk, Failed};

/// Fills a buffer with the bytes from a place on, as far as there are so many, and answers how many came.
pub(crate) fn read_full<D: Disk>(disk: &mut D, at: u64, into: &mut [u8]) -> Result<usize, Failed>
    requires in_range { at + length into.old < 18_446_744_073_709_551_616 }
    ensures within { IfOk result (λ count. count ≤ length into.new) }
    ensures in_range { IfOk result (λ count. 0 < count → IsPlace (at + count)) }
    ensures told { (bytes : List ℕ) → D.contents disk.old ≡ Some bytes →
        IfOk result (λ count. take count into.new ≡ take (length into.new) (drop at bytes)) }
    ensures only_read { IsOnlyRead D.contents D.images D.moment D.images_since D.faults
        disk.old disk.new }
    ensures failed_only_where_faults_rose { OnErr result (Rose (D.faults disk.old) (D.faults
        disk.new)) }
{
    let mut count = 0;
    'pieces: while count < into.len() {
        let more = disk.read(at + count as u64, &mut into[count..])?;
        if more == 0 {
            return Ok(count);
        }
        count += more;
    }
    Ok(count)
}

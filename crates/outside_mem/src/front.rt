ghost use Rattle.std.specs.Prelude.{◌≡◌, ◌<◌, ◌≤◌, length, min, take};

/// Puts as many of the bytes as fit into the front of the buffer, and says how many.
pub(crate) fn put_front(bytes: &[u8], into: &mut [u8]) -> usize
    ensures at_least_one { 0 < length bytes.now → 0 < length into.old → 0 < result }
    ensures fits { result ≤ length into.old }
    ensures shows { take result into.new ≡ take result bytes.now }
    ensures all_that_fits { result ≡ min (length bytes.now) (length into.old) }
{
    let count = bytes.len().min(into.len());
    into[..count].copy_from_slice(&bytes[..count]);
    count
}

ghost use Rattle.std.specs.Prelude.{◌≡◌, ◌≤◌, ◌+◌, ◌-◌, ◌++◌, ◌⊎◌, ◌≢◌, ℕ, [], IfOk, IsErrOf, List, OnErr, OnOk, Some, drop, length, vec_len};
ghost use Rattle.outside.specs.Counts.{Rose};
ghost use Rattle.registry_log.specs.OnlyRead.{IsOnlyRead};
ghost use Rattle.registry_log.specs.RecordReading.{IsFront};
ghost use Rattle.wire_base.specs.Ranges.{IsPlace};

use crate::LogError;
use outside::Disk;
use std::alloc::Global;

/// How many bytes are asked of the disk at once.
const BLOCK: usize = 16_384;

/// The bytes of an area that were read and not yet passed over.
#[derive(Drop)]
pub(crate) struct Stretch {
    /// the place of the first of them
    pub(crate) place: u64,
    bytes: Vec<u8>,
    /// how many of `bytes` were passed over
    passed: usize,
    ghost within: { passed ≤ vec_len bytes },
    ghost in_range: { IsPlace (place + (vec_len bytes - passed)) },
}

impl Stretch {
    ghost use Rattle.registry_log.specs.Stretch.{unread, IsStretchOf};

    /// Nothing of an area yet.
    pub(crate) fn new(alloc: Global) -> Stretch
        ensures empty { unread result ≡ [] }
        ensures place { result.place ≡ 0 }
    {
        Stretch {
            place: 0,
            bytes: Vec::new(alloc),
            passed: 0,
        }
    }

    pub(crate) fn unread(&self) -> &[u8]
        ensures { result.now ≡ unread self.now }
    {
        &self.bytes[self.passed..]
    }

    pub(crate) fn pass(&mut self, count: usize)
        requires { count ≤ length (unread self.old) }
        ensures passed { unread self.new ≡ drop count (unread self.old) }
        ensures place { self.new.place ≡ self.old.place + count }
    {
        self.passed += count;
        self.place += count as u64;
    }

    /// Reads on until there are `wanted` bytes or the area ends. After a refusal the stretch is as before.
    pub(crate) fn fill<D: Disk>(
        &mut self,
        alloc: Global,
        disk: &mut D,
        wanted: usize,
    ) -> Result<(), LogError>
        ensures goes_on { OnOk result ((more : List ℕ) × (unread self.new ≡ unread self.old ++ more)) }
        ensures place { OnOk result (self.new.place ≡ self.old.place) }
        ensures enough { (area : List ℕ) → D.contents disk.old ≡ Some area → OnOk result ((wanted ≤ length (unread self.new)) ⊎ (length area ≤ self.new.place + length (unread self.new))) }
        ensures of_the_area { (area : List ℕ) → D.contents disk.old ≡ Some area → IsStretchOf area self.old → OnOk result (IsStretchOf area self.new) }
        ensures kept { OnErr result (self.new ≡ self.old) }
        ensures only_read { IsOnlyRead D.contents D.images D.moment D.images_since D.faults
            disk.old disk.new }
        ensures disk_fault_only_where_faults_rose { IsErrOf result LogError.DiskFault →
            Rose (D.faults disk.old) (D.faults disk.new) }
        ensures never_too_long { result ≢ Err LogError.RecordTooLong }
    {
        if self.bytes.len() - self.passed >= wanted {
            return Ok(());
        }
        let mut bytes = self.unread().to_vec(alloc)?;
        read_up_to(disk, &mut bytes, self.place, wanted)?;
        *self = Stretch {
            place: self.place,
            bytes,
            passed: 0,
        };
        Ok(())
    }
}

/// Adds to the bytes of an area from a place on, until there are `wanted` of them or the area ends.
fn read_up_to<D: Disk>(
    disk: &mut D,
    bytes: &mut Vec<u8>,
    place: u64,
    wanted: usize,
) -> Result<(), LogError>
    requires in_range { IsPlace (place + vec_len bytes.old) }
    ensures in_range { IsPlace (place + vec_len bytes.new) }
    ensures goes_on { (more : List ℕ) × (bytes.new.items ≡ bytes.old.items ++ more) }
    ensures enough { (area : List ℕ) → D.contents disk.old ≡ Some area → OnOk result ((wanted ≤ vec_len bytes.new) ⊎ (length area ≤ place + vec_len bytes.new)) }
    ensures of_the_area { (area : List ℕ) → D.contents disk.old ≡ Some area → IsFront bytes.old.items (drop place area) → IsFront bytes.new.items (drop place area) }
    ensures only_read { IsOnlyRead D.contents D.images D.moment D.images_since D.faults
        disk.old disk.new }
    ensures disk_fault_only_where_faults_rose { IsErrOf result LogError.DiskFault →
        Rose (D.faults disk.old) (D.faults disk.new) }
    ensures never_too_long { result ≢ Err LogError.RecordTooLong }
{
    'pieces: while bytes.len() < wanted {
        if read_block(disk, bytes, place)? == 0 {
            return Ok(());
        }
    }
    Ok(())
}

/// Adds what one call of the disk gives, and answers how much that was; it is nothing only at the area's end.
fn read_block<D: Disk>(disk: &mut D, bytes: &mut Vec<u8>, place: u64) -> Result<usize, LogError>
    requires in_range { IsPlace (place + vec_len bytes.old) }
    ensures in_range { IsPlace (place + vec_len bytes.new) }
    ensures goes_on { (more : List ℕ) × (bytes.new.items ≡ bytes.old.items ++ more) }
    ensures longer { IfOk result (λ count. vec_len bytes.new ≡ vec_len bytes.old + count) }
    ensures end { (area : List ℕ) → D.contents disk.old ≡ Some area → IfOk result (λ count. count ≡ 0 → length area ≤ place + vec_len bytes.new) }
    ensures of_the_area { (area : List ℕ) → D.contents disk.old ≡ Some area → IsFront bytes.old.items (drop place area) → IsFront bytes.new.items (drop place area) }
    ensures only_read { IsOnlyRead D.contents D.images D.moment D.images_since D.faults
        disk.old disk.new }
    ensures disk_fault_only_where_faults_rose { IsErrOf result LogError.DiskFault →
        Rose (D.faults disk.old) (D.faults disk.new) }
    ensures never_too_long { result ≢ Err LogError.RecordTooLong }
{
    let mut block = [0u8; BLOCK];
    let count = disk.read(place + bytes.len() as u64, &mut block)?;
    bytes.extend_from_slice(&block[..count])?;
    Ok(count)
}

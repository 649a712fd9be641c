ghost use Rattle.std.specs.Prelude.{◌≡◌, ℕ, ◌+◌, ◌≤◌, ◌<◌, List, length, take, Option, IfOk, IfSome, OnOk, OnErr, IsSome};
ghost use Rattle.outside.specs.Counts.{Rose};
ghost use Rattle.outside.specs.DiskImages.{Only, Follows, Torn, MayBeCut, Elapses, reach};
ghost use Rattle.outside.specs.DiskReads.{TellsLength, Reads, Written, Cut, KeepsSynced};
ghost use Rattle.wire_base.specs.Ranges.{IsPlace};

use crate::Failed;

/// One registry area on a disk that may stop at any moment.
///
/// Between two syncs that succeed each written range, and what lies past the old end, may hold any
/// bytes after a crash; other bytes stay; a cut may leave the old length or the new. An object that
/// reports nothing of its bytes reports no image either. The length is at most `MAX_PLACE`.
pub trait Disk {
    /// The bytes as they read, if they are known.
    ghost contents: { Self → Option (List ℕ) };

    /// An image: what a crash now may leave.
    ghost images: { Self → List ℕ → Type 0 };

    /// The moment, as a number that never falls.
    ghost moment: { Self → ℕ };

    /// What a crash at that moment or at a later one might have left, within a call or between two.
    ghost images_since: { Self → ℕ → List ℕ → Type 0 };

    /// How often it has failed.
    ghost faults: { Self → ℕ };

    /// The length in bytes.
    fn len(&mut self) -> Result<u64, Failed>
        ensures in_range { IfOk result IsPlace }
        ensures told { TellsLength (contents self.old) result }
        ensures contents_kept { contents self.new ≡ contents self.old }
        ensures images { (image : List ℕ) → images self.new image → images self.old image }
        ensures time { Elapses (moment self.old) (moment self.new) (images_since self.old) (images_since self.new) (images self.new) }
        ensures faults_never_fall { faults self.old ≤ faults self.new }
        ensures failed_only_where_faults_rose { OnErr result (Rose (faults self.old) (faults self.new)) };

    /// Reads from place `at` into the front of `into`; 0 into a nonempty buffer exactly if the
    /// length is at most `at`.
    fn read(&mut self, at: u64, into: &mut [u8]) -> Result<usize, Failed>
        ensures within_the_buffer { IfOk result (λ count. count ≤ length into.old) }
        ensures in_range { IfOk result (λ count. 0 < count → IsPlace (at + count)) }
        ensures told { Reads (contents self.old) at into.new result }
        ensures contents_kept { contents self.new ≡ contents self.old }
        ensures images { (image : List ℕ) → images self.new image → images self.old image }
        ensures time { Elapses (moment self.old) (moment self.new) (images_since self.old) (images_since self.new) (images self.new) }
        ensures faults_never_fall { faults self.old ≤ faults self.new }
        ensures failed_only_where_faults_rose { OnErr result (Rose (faults self.old) (faults self.new)) };

    /// Writes over what is there and past the end; what lies between the old end and `at` reads as
    /// zeros. A write that would end past `MAX_PLACE` fails.
    fn write_at(&mut self, at: u64, bytes: &[u8]) -> Result<(), Failed>
        ensures in_range { OnOk result (IsPlace (reach at (length bytes.now))) }
        ensures written { Written (contents self.old) at bytes.now result (contents self.new) }
        ensures images { Follows (Torn at (length bytes.now)) (images self.old) (images self.new) }
        ensures time { Elapses (moment self.old) (moment self.new) (images_since self.old) (images_since self.new) (images self.new) }
        ensures faults_never_fall { faults self.old ≤ faults self.new }
        ensures failed_only_where_faults_rose { OnErr result (Rose (faults self.old) (faults self.new)) };

    /// Takes away what is at `len` and after it; a shorter disk stays as it is.
    fn cut(&mut self, len: u64) -> Result<(), Failed>
        ensures cut { Cut (contents self.old) len result (contents self.new) }
        ensures images { Follows (MayBeCut len) (images self.old) (images self.new) }
        ensures time { Elapses (moment self.old) (moment self.new) (images_since self.old) (images_since self.new) (images self.new) }
        ensures faults_never_fall { faults self.old ≤ faults self.new }
        ensures failed_only_where_faults_rose { OnErr result (Rose (faults self.old) (faults self.new)) };

    /// After a sync that succeeds a crash leaves what a read gives.
    fn sync(&mut self) -> Result<(), Failed>
        ensures durable { OnOk result (Only (contents self.new) (images self.new)) }
        ensures synced { KeepsSynced (contents self.old) result (contents self.new) }
        ensures images { (image : List ℕ) → images self.new image → images self.old image }
        ensures time { Elapses (moment self.old) (moment self.new) (images_since self.old) (images_since self.new) (images self.new) }
        ensures faults_never_fall { faults self.old ≤ faults self.new }
        ensures failed_only_where_faults_rose { OnErr result (Rose (faults self.old) (faults self.new)) };

    /// The disk as it reads is one of its images.
    ghost reads_as_an_image: { (disk : Self) → IfSome (contents disk) (images disk) };

    /// A disk that reports nothing of its bytes reports no image.
    ghost images_where_told: { (disk : Self) (since : ℕ) (image : List ℕ) → images_since disk since image → IsSome (contents disk) };

    /// This moment is one of those since an earlier one.
    ghost counts_now: { (disk : Self) (since : ℕ) (image : List ℕ) → since ≤ moment disk → images disk image → images_since disk since image };

    /// Since this moment there is no other.
    ghost only_now: { (disk : Self) (image : List ℕ) → images_since disk (moment disk) image → images disk image };
}

ghost use Rattle.std.specs.Prelude.{◌≡◌, ℕ, ◌+◌, ◌<◌, ◌≤◌, length, Option, IsSome, IfOk, OnOk, OnErr};
ghost use Rattle.outside.specs.Counts.{Rose};
ghost use Rattle.outside.specs.Tails.{TailHistory, TellsLength, TellsRead};
ghost use Rattle.wire_base.specs.Ranges.{IsPlace};

use crate::Failed;

/// An opened file that is read while others write it.
///
/// Between two calls its present life may grow, and a later life may become the present one.
pub trait Tail {
    /// Its opening, its file and its looks so far, if they are known.
    ghost told: { Self → Option TailHistory };

    /// Inode and device as the file was opened, if the system gives them.
    ghost numbers: { Self → Option (ℕ × ℕ) };

    /// How often it has failed.
    ghost faults: { Self → ℕ };

    /// Inode and device as the file was opened.
    fn native(&self) -> Option<(u64, u64)>
        ensures { result ≡ numbers self.now };

    /// The present length in bytes. A call that fails is no look.
    fn length(&mut self) -> Result<u64, Failed>
        ensures in_range { IfOk result IsPlace }
        ensures told { TellsLength (told self.old) result (told self.new) }
        ensures numbers_kept { numbers self.new ≡ numbers self.old }
        ensures faults_never_fall { faults self.old ≤ faults self.new }
        ensures failed_only_where_faults_rose { OnErr result (Rose (faults self.old) (faults self.new)) }
        ensures faults_told_only_by_failures { IsSome (told self.old) → OnOk result (faults self.new ≡ faults self.old) };

    /// Reads from place `at` into the front of `into`; 0 into a nonempty buffer only if the present
    /// life ends at or before `at`. A call that fails, or that gets an empty buffer, is no look.
    fn read_at(&mut self, at: u64, into: &mut [u8]) -> Result<usize, Failed>
        ensures within_the_buffer { IfOk result (λ count. count ≤ length into.old) }
        ensures in_range { IfOk result (λ count. 0 < count → IsPlace (at + count)) }
        ensures told { TellsRead (told self.old) at into.new result (told self.new) }
        ensures numbers_kept { numbers self.new ≡ numbers self.old }
        ensures faults_never_fall { faults self.old ≤ faults self.new }
        ensures failed_only_where_faults_rose { OnErr result (Rose (faults self.old) (faults self.new)) }
        ensures faults_told_only_by_failures { IsSome (told self.old) → OnOk result (faults self.new ≡ faults self.old) };
}

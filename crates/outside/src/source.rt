ghost use Rattle.std.specs.Prelude.{◌≡◌, ℕ, ◌≤◌, List, length, Option, IfOk, OnErr};
ghost use Rattle.outside.specs.Counts.{Rose};
ghost use Rattle.outside.specs.Streams.{ReadsOn};

use crate::Failed;

/// Bytes that are read from front to end, such as the settings file.
pub trait Source {
    /// The bytes that are left, if they are known.
    ghost left: { Self → Option (List ℕ) };

    /// How often it has failed.
    ghost faults: { Self → ℕ };

    /// Reads at most `into.len()` bytes into the front of `into`; 0 into a nonempty buffer is the end.
    fn read(&mut self, into: &mut [u8]) -> Result<usize, Failed>
        ensures within_the_buffer { IfOk result (λ count. count ≤ length into.old) }
        ensures told { ReadsOn (left self.old) into.new result (left self.new) }
        ensures faults_never_fall { faults self.old ≤ faults self.new }
        ensures failed_only_where_faults_rose { OnErr result (Rose (faults self.old) (faults self.new)) };
}

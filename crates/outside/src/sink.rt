ghost use Rattle.std.specs.Prelude.{◌≡◌, ℕ, ◌<◌, ◌≤◌, List, length, Option, IfOk, OnErr};
ghost use Rattle.outside.specs.Counts.{Rose};
ghost use Rattle.outside.specs.Streams.{WritesOn};

use crate::Failed;

/// Where the report goes.
pub trait Sink {
    /// The bytes written so far, if they are known.
    ghost written: { Self → Option (List ℕ) };

    /// How often it has failed.
    ghost faults: { Self → ℕ };

    /// Takes a front of the piece, at least one byte of a nonempty piece, and says how long it is.
    fn write(&mut self, piece: &[u8]) -> Result<usize, Failed>
        ensures within_the_piece { IfOk result (λ count. count ≤ length piece.now) }
        ensures at_least_one_byte { IfOk result (λ count. 0 < length piece.now → 0 < count) }
        ensures told { WritesOn (written self.old) piece.now result (written self.new) }
        ensures faults_never_fall { faults self.old ≤ faults self.new }
        ensures failed_only_where_faults_rose { OnErr result (Rose (faults self.old) (faults self.new)) };
}

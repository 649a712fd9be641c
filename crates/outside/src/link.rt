ghost use Rattle.std.specs.Prelude.{◌≡◌, ℕ, ◌<◌, ◌≤◌, length, Option, IfOk, OnOk, OnErr};
ghost use Rattle.outside.specs.Counts.{Rose};
ghost use Rattle.outside.specs.Talks.{Talk, TellsSending, TellsReceiving, IsWithin, Ended, IsNotYet};

use crate::Failed;

/// What a link has for its reader.
#[derive(Clone, Copy, Debug, PartialEq, Eq)]
pub enum Recv {
    /// This many bytes, at least one.
    Got(usize),
    /// The peer has closed the connection.
    Closed,
    /// Nothing has come yet.
    NotYet,
    Failed,
}

/// A connection to a peer.
pub trait Link {
    /// What was sent and received so far, if it is known.
    ghost told: { Self → Option Talk };

    /// How often it has failed or found the connection closed.
    ghost faults: { Self → ℕ };

    /// How often nothing had come yet.
    ghost idles: { Self → ℕ };

    /// How often a sending has failed.
    ghost failed_sends: { Self → ℕ };

    /// Takes a front of the piece, at least one byte of a nonempty piece, and says how long it is.
    fn send(&mut self, piece: &[u8]) -> Result<usize, Failed>
        ensures within_the_piece { IfOk result (λ count. count ≤ length piece.now) }
        ensures at_least_one_byte { IfOk result (λ count. 0 < length piece.now → 0 < count) }
        ensures told { TellsSending (told self.old) piece.now result (told self.new) }
        ensures faults_never_fall { faults self.old ≤ faults self.new }
        ensures idles_never_fall { idles self.old ≤ idles self.new }
        ensures failed_sends_never_fall { failed_sends self.old ≤ failed_sends self.new }
        ensures failed_only_where_faults_rose { OnErr result (Rose (faults self.old) (faults self.new)) }
        ensures failed_only_where_failed_sends_rose { OnErr result (Rose (failed_sends self.old) (failed_sends self.new)) }
        ensures no_other_failed_send { OnOk result (failed_sends self.new ≡ failed_sends self.old) };

    /// Receives into the front of `into`.
    fn recv(&mut self, into: &mut [u8]) -> Recv
        requires { 0 < length into.old }
        ensures within_the_buffer { IsWithin (length into.old) result }
        ensures told { TellsReceiving (told self.old) into.new result (told self.new) }
        ensures faults_never_fall { faults self.old ≤ faults self.new }
        ensures idles_never_fall { idles self.old ≤ idles self.new }
        ensures no_failed_send { failed_sends self.new ≡ failed_sends self.old }
        ensures ended_only_where_faults_rose { Ended result → Rose (faults self.old) (faults self.new) }
        ensures not_yet_only_where_idles_rose { IsNotYet result → Rose (idles self.old) (idles self.new) };
}

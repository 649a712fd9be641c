ghost use Rattle.std.specs.Prelude.{◌≡◌, ℕ, ◌≤◌, List, Option};
ghost use Rattle.outside.specs.Counts.{Rose};
ghost use Rattle.outside.specs.Wires.{IsUnused};
ghost use Rattle.lumber_server.specs.Ports.{Finished, IfGot, IsFailed, IsNotYet, TellsAccepting, TellsFinishing};

use outside::Link;

/// What a port has for its receiver.
#[derive(Clone, Copy, Debug, PartialEq, Eq)]
pub enum Accept<L> {
    /// A connection that a peer has made.
    Got(L),
    /// No peer has come yet.
    NotYet,
    Failed,
}

/// Where peers make connections.
pub trait Port {
    type Link: Link;

    /// The links that were finished, in their order, if they are known.
    ghost finished: { Self → Option (List Finished) };

    /// How often it has failed.
    ghost faults: { Self → ℕ };

    /// How often no peer had come yet.
    ghost idles: { Self → ℕ };

    fn accept(&mut self) -> Accept<Self::Link>
        ensures told { TellsAccepting Self.Link.told (finished self.old) result (finished self.new) }
        ensures starts_with_no_count { IfGot result (IsUnused Self.Link.faults Self.Link.idles Self.Link.failed_sends) }
        ensures faults_never_fall { faults self.old ≤ faults self.new }
        ensures idles_never_fall { idles self.old ≤ idles self.new }
        ensures failed_only_where_faults_rose { IsFailed result →
            Rose (faults self.old) (faults self.new) }
        ensures not_yet_only_where_idles_rose { IsNotYet result →
            Rose (idles self.old) (idles self.new) };

    /// Takes a link back, and its talk and its counts with it.
    fn finish(&mut self, link: Self::Link)
        ensures told { TellsFinishing (finished self.old) (Self.Link.told link) (Self.Link.faults link) (Self.Link.idles link) (Self.Link.failed_sends link) (finished self.new) }
        ensures faults_kept { faults self.new ≡ faults self.old }
        ensures idles_kept { idles self.new ≡ idles self.old };
}

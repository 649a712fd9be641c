ghost use Rattle.std.specs.Prelude.{◌≡◌, ℕ, ◌-◌, ◌≤◌, List, Option, IfOk, OnErr};
ghost use Rattle.outside.specs.Counts.{Rose, added_counts};
ghost use Rattle.outside.specs.Wires.{Outcome, TellsConnecting, TellsFinishing, IsUnused, count_after_connecting};

use crate::{Failed, Link};
use wire_base::Host;

/// The way to the peers of one worker.
pub trait Wire {
    type Link: Link;

    /// The connections that failed and the links that were finished, in their order, if they are known.
    ghost outcomes: { Self → Option (List Outcome) };

    /// How many links are not finished.
    ghost open_links: { Self → ℕ };

    /// How often it has failed, its finished links' counts included.
    ghost faults: { Self → ℕ };

    /// How often its finished links were idle.
    ghost idles: { Self → ℕ };

    fn connect(&mut self, host: &Host) -> Result<Self::Link, Failed>
        ensures told { TellsConnecting Self.Link.told (outcomes self.old) result (outcomes self.new) (faults self.new) }
        ensures starts_with_no_count { IfOk result (IsUnused Self.Link.faults Self.Link.idles Self.Link.failed_sends) }
        ensures faults_never_fall { faults self.old ≤ faults self.new }
        ensures counts_open_links { open_links self.new ≡ count_after_connecting (open_links self.old) result }
        ensures idles_never_fall { idles self.old ≤ idles self.new }
        ensures failed_only_where_faults_rose { OnErr result (Rose (faults self.old) (faults self.new)) };

    /// Takes a link back, and its talk and its counts with it. Takes no memory.
    fn finish(&mut self, link: Self::Link)
        ensures told { TellsFinishing (outcomes self.old) (Self.Link.told link) (Self.Link.faults link) (Self.Link.idles link) (outcomes self.new) }
        ensures counts_open_links { open_links self.new ≡ open_links self.old - 1 }
        ensures counts_faults { added_counts (faults self.old) (Self.Link.faults link) ≤ faults self.new }
        ensures counts_idles { added_counts (idles self.old) (Self.Link.idles link) ≤ idles self.new };
}

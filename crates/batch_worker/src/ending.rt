ghost use Rattle.std.specs.Prelude.{◌≡◌, ◌≤◌, List, [], ◌++◌, ℕ, drop, None, Some, IfSome, IsSome};
ghost use Rattle.wire_base.specs.Ranges.{IsMoment};
ghost use Rattle.wire_base.specs.declared.parcel.Parcel.{Parcel};
ghost use Rattle.batch_worker.specs.Ending.{EndsLink, HasTalks, failed_at, unlinked};
ghost use Rattle.batch_worker.specs.Held.{carried_in};
ghost use Rattle.batch_worker.specs.Seen.{seen, with_link};
ghost use Rattle.batch_worker.specs.Standing.{StandsFor};

use crate::worker::Worker;
use mem_queue::TakePass;
use outside::{Link, Wire};
use settle_box::PostPass;
use std::mem;
use wire_base::Moment;

impl<L: Link> Worker<L> {
    /// Finishes the link, and gives the passes back. What is not acknowledged is given up.
    pub fn end<W: Wire<Link = L>>(self, wire: &mut W) -> (TakePass, PostPass)
        requires passes { IsSome self.take × IsSome self.post }
        ensures passes { (self.take ≡ Some result.0) × (self.post ≡ Some result.1) }
        ensures finished { EndsLink L.told L.faults L.idles self.link
            (seen (W.outcomes wire.old) (W.open_links wire.old) (W.faults wire.old) (W.idles wire.old))
            (seen (W.outcomes wire.new) (W.open_links wire.new) (W.faults wire.new) (W.idles wire.new)) }
        ensures talks { (start : ℕ) (acknowledged : List Parcel) →
            StandsFor L.told start self (W.outcomes wire.old) acknowledged →
            IfSome (W.outcomes wire.new) (λ list. HasTalks self.window.most acknowledged
            (acknowledged ++ carried_in self.window) (drop start list)) }
    {
        let Worker {
            take,
            post,
            link,
            host: _host,
            window: _window,
            refused: _refused,
            outs: _outs,
            timeout: _,
            failures: _,
            failed: _,
            heard: _,
        } = self;
        finish_link(wire, link);
        match (take, post) {
            (Some(take), Some(post)) => (take, post),
            _ => unreachable!(),
        }
    }

    /// Finishes the link after a failure. What is not acknowledged waits for the next one.
    pub(crate) fn fail<W: Wire<Link = L>>(&mut self, wire: &mut W, now: Moment)
        requires moment { IsMoment now }
        ensures failed { self.new ≡ unlinked (failed_at self.old now) }
        ensures finished { EndsLink L.told L.faults L.idles self.old.link
            (seen (W.outcomes wire.old) (W.open_links wire.old) (W.faults wire.old) (W.idles wire.old))
            (seen (W.outcomes wire.new) (W.open_links wire.new) (W.faults wire.new) (W.idles wire.new)) }
    {
        self.count_failure(now);
        self.window.again();
        self.outs.clear();
        self.heard = Moment(0);
        finish_link(wire, mem::take(&mut self.link));
    }

    pub(crate) fn count_failure(&mut self, now: Moment)
        requires { IsMoment now }
        ensures { self.new ≡ failed_at self.old now }
    {
        self.failures = self.failures.saturating_add(1);
        self.failed = now;
    }
}

fn finish_link<L: Link, W: Wire<Link = L>>(wire: &mut W, link: Option<L>)
    ensures { EndsLink L.told L.faults L.idles link
        (seen (W.outcomes wire.old) (W.open_links wire.old) (W.faults wire.old) (W.idles wire.old))
        (seen (W.outcomes wire.new) (W.open_links wire.new) (W.faults wire.new) (W.idles wire.new)) }
{
    if let Some(link) = link {
        wire.finish(link);
    }
}

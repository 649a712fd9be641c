ghost use Rattle.std.specs.Prelude.{◌≡◌, ◌<◌, [], length, None, IfSome, IsSome, OnErr, OnOk};
ghost use Rattle.std.specs.Bool.{OnFalse, OnTrue};
ghost use Rattle.outside.specs.Counts.{Rose};
ghost use Rattle.outside.specs.Wires.{KeepsRefusal};
ghost use Rattle.batch_worker.specs.Keeping.{WorkerGoes};
ghost use Rattle.batch_worker.specs.Seen.{seen};
ghost use Rattle.batch_worker.specs.Steps.{BeginsOne, FailsToSend, KeepsOrMakesLink, SendsSome};
ghost use Rattle.lumber_client.specs.Held.{waiting_in};

use crate::worker::Worker;
use outside::{Failed, Link, Wire};
use std::mem;
use wire_base::Moment;

impl<L: Link> Worker<L> {
    /// Sends a front of the next piece.
    pub(crate) fn send_piece(&mut self, now: Moment) -> Result<(), Failed>
        requires going_out { 0 < length self.old.window.out }
        ensures sent { OnOk result (SendsSome L.told now self.old self.new) }
        ensures failed { OnErr result (FailsToSend L.told L.faults self.old self.new) }
    {
        let Some(link) = &mut self.link else {
            unreachable!()
        };
        let count = link.send(self.window.out())?;
        self.window.sent(count);
        if self.window.out().is_empty() {
            self.outs.push_back_reserved(now);
        }
        Ok(())
    }

    pub(crate) fn is_going_out(&self) -> bool
        ensures going { OnTrue result (0 < length self.now.window.out) }
        ensures all_is_out { OnFalse result (self.now.window.out ≡ []) }
    {
        !self.window.out().is_empty()
    }

    /// Makes a link if there is none; whether there is one.
    pub(crate) fn connect<W: Wire<Link = L>>(&mut self, wire: &mut W) -> bool
        ensures goes { WorkerGoes L.told
            (seen (W.outcomes wire.old) (W.open_links wire.old) (W.faults wire.old) (W.idles wire.old))
            (seen (W.outcomes wire.new) (W.open_links wire.new) (W.faults wire.new) (W.idles wire.new))
            self.old self.new }
        ensures is { self.new ≡ record self.old { link = self.new.link } }
        ensures linked { OnTrue result (IsSome self.new.link) }
        ensures link { OnTrue result (KeepsOrMakesLink L.told self.old self.new) }
        ensures same_outcomes { OnTrue result (W.outcomes wire.new ≡ W.outcomes wire.old) }
        ensures refused { OnFalse result ((self.new ≡ self.old) × (self.old.link ≡ None) ×
            Rose (W.faults wire.old) (W.faults wire.new)) }
        ensures kept { OnFalse result (IfSome (W.outcomes wire.old) (λ list.
            KeepsRefusal list (W.outcomes wire.new) (W.faults wire.new))) }
    {
        if self.link.is_some() {
            return true;
        }
        let Ok(link) = wire.connect(&self.host) else {
            return false;
        };
        match mem::replace(&mut self.link, Some(link)) {
            None => {}
            Some(_) => unreachable!(),
        }
        true
    }

    /// Begins a window of the parcels that wait.
    pub(crate) fn begin(&mut self)
        requires all_is_out { self.old.window.out ≡ [] }
        requires some { 0 < length (waiting_in self.old.window) }
        requires room { length self.old.window.flights < self.old.window.depth }
        requires linked { IsSome self.old.link }
        ensures begun { BeginsOne self.old self.new }
    {
        self.window.begin();
    }
}

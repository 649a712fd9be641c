ghost use Rattle.std.specs.Prelude.{◌≡◌, ◌⊎◌, ◌+◌, ◌<◌, ◌≤◌, [], ℕ, length, None};
ghost use Rattle.std.specs.Bool.{OnFalse, OnTrue};
ghost use Rattle.wire_base.specs.Ranges.{IsMoment};
ghost use Rattle.batch_worker.specs.Answers.{IsRest, IsTurn};
ghost use Rattle.batch_worker.specs.Rests.{IsResting};
ghost use Rattle.batch_worker.specs.Seen.{seen};
ghost use Rattle.batch_worker.specs.Steps.{FoundEmpty, PostsOf, TakesOf};
ghost use Rattle.batch_worker.specs.Waits.{silent_since};

use crate::answer::{Failure, WorkerTurn};
use crate::receiving::Received;
use crate::worker::Worker;
use mem_queue::EventQueue;
use outside::{Link, Wire};
use settle_box::SettleBox;
use std::sync::Wait;
use wire_base::Moment;

impl<L: Link> Worker<L> {
    /// One step: posts what is owed, sends a piece, begins a window of the parcels that are there, or
    /// receives once. It takes no memory.
    pub fn turn<R: Wait, W: Wire<Link = L>>(
        &mut self,
        rt: &R,
        queue: &EventQueue,
        desk: &SettleBox,
        wire: &mut W,
        now: Moment,
    ) -> WorkerTurn
        requires of_this_queue { TakesOf queue.now.id self.old.take }
        requires of_this_box { PostsOf desk.now.id self.old.post }
        requires moment { IsMoment now }
        ensures answers { IsTurn L.told L.faults L.idles desk.now.capacity
            (seen (W.outcomes wire.old) (W.open_links wire.old) (W.faults wire.old) (W.idles wire.old))
            (seen (W.outcomes wire.new) (W.open_links wire.new) (W.faults wire.new) (W.idles wire.new))
            now self.old self.new result }
        ensures rests_while_a_rest_lasts { IsResting self.old now.0 → IsRest result }
    {
        if let Some(until) = self.rest_until(now) {
            return WorkerTurn::Resting { until };
        }
        if self.owes() {
            return if self.hand_on(rt, desk) {
                WorkerTurn::Worked
            } else {
                WorkerTurn::Held
            };
        }
        if self.is_going_out() {
            return self.send(wire, now);
        }
        self.go_on(rt, queue, wire, now)
    }

    fn send<W: Wire<Link = L>>(&mut self, wire: &mut W, now: Moment) -> WorkerTurn
        requires going_out { 0 < length self.old.window.out }
        requires moment { IsMoment now }
        ensures { (capacity : ℕ) → IsTurn L.told L.faults L.idles capacity
            (seen (W.outcomes wire.old) (W.open_links wire.old) (W.faults wire.old) (W.idles wire.old))
            (seen (W.outcomes wire.new) (W.open_links wire.new) (W.faults wire.new) (W.idles wire.new))
            now self.old self.new result }
    {
        match self.send_piece(now) {
            Ok(()) => WorkerTurn::Worked,
            Err(_) => {
                self.fail(wire, now);
                WorkerTurn::Failed(Failure::Send)
            }
        }
    }

    /// Begins a further window, if one may be begun and parcels are there, or receives.
    fn go_on<R: Wait, W: Wire<Link = L>>(
        &mut self,
        rt: &R,
        queue: &EventQueue,
        wire: &mut W,
        now: Moment,
    ) -> WorkerTurn
        requires of_this_queue { TakesOf queue.now.id self.old.take }
        requires none_refused { self.old.refused ≡ None }
        requires nothing_to_settle { self.old.window.acknowledged ≡ 0 }
        requires all_is_out { self.old.window.out ≡ [] }
        requires moment { IsMoment now }
        ensures { (capacity : ℕ) → IsTurn L.told L.faults L.idles capacity
            (seen (W.outcomes wire.old) (W.open_links wire.old) (W.faults wire.old) (W.idles wire.old))
            (seen (W.outcomes wire.new) (W.open_links wire.new) (W.faults wire.new) (W.idles wire.new))
            now self.old self.new result }
    {
        if self.is_full() {
            return self.listen(wire, now);
        }
        if !self.gather(rt, queue) {
            return if self.is_waited_for() {
                self.listen(wire, now)
            } else {
                WorkerTurn::Idle
            };
        }
        if !self.connect(wire) {
            self.count_failure(now);
            return WorkerTurn::Failed(Failure::Connect);
        }
        self.begin();
        WorkerTurn::Worked
    }

    /// Receives once.
    fn listen<W: Wire<Link = L>>(&mut self, wire: &mut W, now: Moment) -> WorkerTurn
        requires nothing_to_settle { self.old.window.acknowledged ≡ 0 }
        requires all_is_out { self.old.window.out ≡ [] }
        requires in_flight { 0 < length self.old.window.flights }
        requires no_more { (self.old.window.depth ≤ length self.old.window.flights) ⊎ FoundEmpty self.old.take }
        requires moment { IsMoment now }
        ensures { (capacity : ℕ) → IsTurn L.told L.faults L.idles capacity
            (seen (W.outcomes wire.old) (W.open_links wire.old) (W.faults wire.old) (W.idles wire.old))
            (seen (W.outcomes wire.new) (W.open_links wire.new) (W.faults wire.new) (W.idles wire.new))
            now self.old self.new result }
    {
        let since = self.silent_since();
        match self.receive(now) {
            Received::Bytes => WorkerTurn::Worked,
            Received::Fault(at) => {
                self.fail(wire, now);
                WorkerTurn::Failed(Failure::Peer { at })
            }
            Received::Nothing => {
                if !self.is_over(since, now) {
                    return WorkerTurn::NotYet;
                }
                self.fail(wire, now);
                WorkerTurn::Failed(Failure::TimedOut { since, now })
            }
            Received::Closed => {
                self.fail(wire, now);
                WorkerTurn::Failed(Failure::Closed)
            }
            Received::Failed => {
                self.fail(wire, now);
                WorkerTurn::Failed(Failure::Receive)
            }
        }
    }

    /// Since when the peer is silent.
    fn silent_since(&self) -> Moment
        ensures is { result.0 ≡ silent_since self.now }
        ensures some_outs { self.now.window.out ≡ [] → 0 < length self.now.window.flights → 0 < length self.now.outs }
    {
        let out = match self.outs.front() {
            Some(out) => out.0,
            None => 0,
        };
        Moment(out.max(self.heard.0))
    }

    /// The peer was silent for the timeout.
    fn is_over(&self, since: Moment, now: Moment) -> bool
        ensures over { OnTrue result (since.0 + self.now.timeout ≤ now.0) }
        ensures early { OnFalse result (now.0 < since.0 + self.now.timeout) }
    {
        since.0 <= now.0 && self.timeout <= now.0 - since.0
    }

    fn is_full(&self) -> bool
        ensures in_flight { OnTrue result (0 < length self.now.window.flights) }
        ensures full { OnTrue result (self.now.window.depth ≤ length self.now.window.flights) }
        ensures room { OnFalse result (length self.now.window.flights < self.now.window.depth) }
    {
        self.window.is_full()
    }

    /// Windows are in flight.
    fn is_waited_for(&self) -> bool
        ensures in_flight { OnTrue result (0 < length self.now.window.flights) }
        ensures none { OnFalse result (self.now.window.in_flight ≡ 0) }
    {
        self.window.windows_in_flight() > 0
    }
}

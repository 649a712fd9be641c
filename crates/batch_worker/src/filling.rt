ghost use Rattle.std.specs.Prelude.{◌≡◌, ◌⊎◌, ◌+◌, ◌-◌, ◌<◌, ◌≤◌, ◌↔◌, suc, ℕ, [], true, false, length, IsTrue};
ghost use Rattle.std.specs.Bool.{OnFalse, OnTrue};
ghost use Rattle.lumber_client.specs.Held.{waiting_in};
ghost use Rattle.batch_worker.specs.Keeping.{WorkerGoes};
ghost use Rattle.batch_worker.specs.Seen.{Seen};
ghost use Rattle.batch_worker.specs.Steps.{FoundEmpty, IsFilled, TakesOf, TakesOne};

use crate::worker::Worker;
use mem_queue::EventQueue;
use outside::Link;
use std::sync::Wait;

impl<L: Link> Worker<L> {
    /// Takes parcels, as many as are there, until so many wait as a window may have; whether the queue
    /// was empty.
    pub(crate) fn fill<R: Wait>(&mut self, rt: &R, queue: &EventQueue) -> bool
        requires of_this_queue { TakesOf queue.now.id self.old.take }
        requires nothing_to_settle { self.old.window.acknowledged ≡ 0 }
        ensures goes { (s : Seen) → WorkerGoes L.told s s self.old self.new }
        ensures filled { IsFilled self.old self.new }
        ensures full { OnFalse result (self.new.window.most ≤ length (waiting_in self.new.window)) }
        ensures empty { OnTrue result (FoundEmpty self.new.take) }
    {
        while self.may_offer() {
            if !self.take_one(rt, queue) {
                return true;
            }
        }
        false
    }

    fn take_one<R: Wait>(&mut self, rt: &R, queue: &EventQueue) -> bool
        requires of_this_queue { TakesOf queue.now.id self.old.take }
        requires room { length (waiting_in self.old.window) < self.old.window.most }
        requires nothing_to_settle { self.old.window.acknowledged ≡ 0 }
        ensures taken { OnTrue result (TakesOne self.old self.new) }
        ensures waits { OnTrue result (length (waiting_in self.new.window) ≡ suc (length (waiting_in self.old.window))) }
        ensures none { OnFalse result (self.new ≡ self.old) }
        ensures empty { OnFalse result (FoundEmpty self.new.take) }
    {
        let Some(pass) = &mut self.take else {
            unreachable!()
        };
        let Some(parcel) = queue.take(rt, pass) else {
            return false;
        };
        self.window.offer(parcel);
        true
    }

    fn may_offer(&self) -> bool
        ensures { IsTrue result ↔ ((length (waiting_in self.now.window) < self.now.window.most) ×
            (self.now.window.acknowledged ≡ 0)) }
    {
        self.window.can_offer()
    }

    /// Takes parcels, if a further window may be begun; whether some wait to be begun.
    pub(crate) fn gather<R: Wait>(&mut self, rt: &R, queue: &EventQueue) -> bool
        requires of_this_queue { TakesOf queue.now.id self.old.take }
        requires nothing_to_settle { self.old.window.acknowledged ≡ 0 }
        requires room { length self.old.window.flights < self.old.window.depth }
        ensures goes { (s : Seen) → WorkerGoes L.told s s self.old self.new }
        ensures filled { IsFilled self.old self.new }
        ensures waits { OnTrue result (0 < length (waiting_in self.new.window)) }
        ensures none { OnFalse result ((self.new ≡ self.old) × (length (waiting_in self.new.window) ≡ 0)) }
        ensures empty { OnFalse result (FoundEmpty self.new.take) }
    {
        self.fill(rt, queue);
        self.may_begin()
    }

    fn may_begin(&self) -> bool
        ensures waits { IsTrue result ↔ ((0 < length (waiting_in self.now.window)) ×
            (length self.now.window.flights < self.now.window.depth)) }
        ensures most { 0 < self.now.window.most }
    {
        self.window.can_begin()
    }
}

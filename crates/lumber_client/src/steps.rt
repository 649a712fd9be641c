ghost use Rattle.std.specs.Prelude.{◌≡◌, suc, ◌+◌, ◌-◌, ◌<◌, ◌≤◌, ◌↔◌, [], ◌∷◌, ◌++◌, false, length, drop, IfOk, IsTrue, Some};
ghost use Rattle.wire_base.specs.Ranges.{IsParcel};
ghost use Rattle.lumber_frame.specs.Window.{IsWindow, window_bytes};
ghost use Rattle.lumber_client.specs.Exchange.{payloads_of};
ghost use Rattle.lumber_client.specs.Hearing.{IsTakenAs, heard_as};
ghost use Rattle.lumber_client.specs.Held.{acknowledged_to, begun_as, has_some, made_again, next_in, nothing_held, oldest_of, sent_as, waiting_in, with_hearing, with_offered, with_parcels};
ghost use Rattle.lumber_client.specs.Step.{Answers, asked_in, now_failed};

use crate::heard::Heard;
use crate::incoming::{Incoming, Taken};
use crate::outgoing::Outgoing;
use crate::window::Window;
use std::alloc::Global;
use std::collections::VecDeque;
use wire_base::{NoMemory, Parcel};

impl Window {
    pub(crate) fn empty(alloc: Global, most: u32, depth: u32) -> Result<Window, NoMemory>
        requires { 0 < most }
        ensures { IfOk result (λ window. window ≡ nothing_held most depth) }
    {
        let room = most as usize * depth as usize + most as usize;
        Ok(Window {
            most,
            depth,
            parcels: VecDeque::with_capacity(alloc, room)?,
            acknowledged: 0,
            in_flight: 0,
            flights: VecDeque::with_capacity(alloc, depth as usize)?,
            done: 0,
            last: 0,
            outgoing: Outgoing::new(alloc, depth as usize)?,
            incoming: Incoming::new(),
        })
    }

    /// How many parcels wait to be begun.
    pub(crate) fn waiting(&self) -> usize
        ensures { result ≡ length (waiting_in self.now) }
    {
        self.parcels.len() - self.acknowledged - self.in_flight
    }

    pub(crate) fn push(&mut self, parcel: Parcel)
        requires range { IsParcel parcel }
        requires room { length (waiting_in self.old) < self.old.most }
        requires nothing_to_settle { self.old.acknowledged ≡ 0 }
        ensures offered { self.new ≡ with_offered self.old parcel }
        ensures one_more_waits { length (waiting_in self.new) ≡ suc (length (waiting_in self.old)) }
    {
        self.parcels.push_back_reserved(parcel);
    }

    pub(crate) fn begin_next(&mut self)
        requires some { 0 < length (waiting_in self.old) }
        requires room { length self.old.flights < self.old.depth }
        ensures begun { self.new ≡ begun_as self.old self.new.out self.new.behind }
        ensures written { self.new.out ++ self.new.behind ≡
            (self.old.out ++ self.old.behind) ++ window_bytes (payloads_of (next_in self.old)) }
        ensures nothing_behind { self.new.out ≡ [] → self.new.behind ≡ [] }
        ensures range { IsWindow (payloads_of (next_in self.old)) }
    {
        let count = self.waiting().min(self.most as usize);
        self.flights.push_back_reserved(count as u32);
        self.in_flight += count;
        self.outgoing.add(count as u32);
        self.outgoing
            .refill(&self.parcels, self.acknowledged + self.in_flight);
    }

    pub(crate) fn pass(&mut self, n: usize)
        requires { n ≤ length self.old.out }
        ensures sent { self.new ≡ sent_as self.old self.new.out self.new.behind }
        ensures rest { self.new.out ++ self.new.behind ≡ drop n (self.old.out ++ self.old.behind) }
        ensures nothing_behind { self.new.out ≡ [] → self.new.behind ≡ [] }
    {
        let begun = self.acknowledged + self.in_flight;
        self.outgoing.pass(n, &self.parcels, begun);
        self.outgoing.refill(&self.parcels, begun);
    }

    /// How many bytes were given.
    pub(crate) fn given(&self) -> u64
        ensures { result ≡ self.now.hearing.given }
    {
        self.incoming.given()
    }

    pub(crate) fn take(&mut self, byte: u8) -> Taken
        requires { self.old.hearing.failed ≡ false }
        ensures taken { IsTakenAs (self.old.hearing.frame ++ byte ∷ []) result }
        ensures heard { self.new ≡ with_hearing self.old
            (heard_as self.old.hearing byte (has_some self.old.flights) result) }
    {
        let oldest = self.oldest().is_some();
        self.incoming.take(byte, oldest)
    }

    /// What a whole acknowledgement says, the last byte of which is at this place.
    pub(crate) fn answer(&mut self, number: u32, place: u64) -> Heard
        requires { self.old.out ≡ [] }
        ensures { Answers self.old number place result self.new }
    {
        let asked = self.asked();
        if number > asked.unwrap_or(self.last) {
            self.fail();
            return Heard::PeerFault { at: place };
        }
        let Some(count) = asked else {
            return Heard::Alive;
        };
        let from = self.done;
        if number <= from {
            return Heard::Alive;
        }
        self.acknowledge(number, count);
        Heard::Acked { from, to: number }
    }

    /// The count of the oldest window in flight.
    fn oldest(&self) -> Option<u32>
        ensures { result ≡ oldest_of self.now.flights }
    {
        self.flights.front().copied()
    }

    /// The count of the oldest window in flight, if the frame asks of it.
    fn asked(&self) -> Option<u32>
        ensures { result ≡ asked_in self.now }
    {
        if self.incoming.asks_oldest() {
            self.oldest()
        } else {
            None
        }
    }

    fn fail(&mut self)
        ensures { self.new ≡ with_hearing self.old (now_failed self.old.hearing) }
    {
        self.incoming.fail();
    }

    /// The oldest window in flight, of this count, is acknowledged up to this number.
    fn acknowledge(&mut self, number: u32, count: u32)
        requires all_is_out { self.old.out ≡ [] }
        requires oldest { oldest_of self.old.flights ≡ Some count }
        requires more { self.old.done < number }
        requires few { number ≤ count }
        ensures acknowledged { self.new ≡ acknowledged_to self.old number count }
        ensures in_flight { number - self.old.done ≤ self.old.in_flight }
    {
        let step = (number - self.done) as usize;
        self.acknowledged += step;
        self.in_flight -= step;
        if number < count {
            self.done = number;
            return;
        }
        let _ = self.flights.pop_front();
        self.done = 0;
        self.last = number;
    }

    pub(crate) fn hand_out(&mut self) -> Parcel
        requires { 0 < self.old.acknowledged }
        ensures first { self.old.parcels ≡ result ∷ self.new.parcels }
        ensures fewer { self.old.acknowledged ≡ suc self.new.acknowledged }
        ensures others_stay { self.new ≡
            with_parcels self.old self.new.parcels self.new.acknowledged }
        ensures range { IsParcel result }
    {
        let Some(parcel) = self.parcels.pop_front() else {
            unreachable!()
        };
        self.acknowledged -= 1;
        parcel
    }

    pub(crate) fn start_again(&mut self)
        ensures { self.new ≡ made_again self.old }
    {
        self.in_flight = 0;
        self.flights.clear();
        self.done = 0;
        self.last = 0;
        self.outgoing.clear();
        self.incoming = Incoming::new();
    }
}

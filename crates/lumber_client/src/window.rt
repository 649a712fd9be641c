ghost use Rattle.std.specs.Prelude.{◌≡◌, ℕ, suc, ◌+◌, ◌<◌, ◌≤◌, ◌↔◌, List, [], ◌∷◌, ◌++◌, false, length, take, drop, IfOk, IfSome, IfNone, IsTrue, MatchOption};
ghost use Rattle.wire_base.specs.declared.parcel.Parcel.{Parcel};
ghost use Rattle.wire_base.specs.Ranges.{IsParcel};
ghost use Rattle.lumber_frame.specs.Window.{window_bytes};
ghost use Rattle.lumber_client.specs.Answer.{IsAnswerTo};
ghost use Rattle.lumber_client.specs.Exchange.{Exchange, IsAllHanded, IsNextOf, anew, no_exchange, payloads_of, with_begun, with_handed, with_heard, with_sent};
ghost use Rattle.lumber_client.specs.Held.{begun_as, made_again, next_in, nothing_held, sent_as, waiting_in, with_offered, with_parcels};
ghost use Rattle.lumber_client.specs.Newly.{KeepsParcels, is_fault, newly_acknowledged};
ghost use Rattle.lumber_client.specs.Standing.{StandsFor};

use crate::heard::Heard;
use crate::incoming::{Incoming, Taken};
use crate::outgoing::Outgoing;
use std::alloc::Global;
use std::collections::VecDeque;
use std::marker::Model;
use wire_base::{NoMemory, Parcel};

/// Parcels on their way over one link at a time: they go out in windows, and what the peer
/// acknowledges of them is handed out in order. No call but `new` takes memory.
#[derive(Drop)]
pub struct Window {
    pub(crate) most: u32,
    pub(crate) depth: u32,
    /// In the order in which they were offered: those that are acknowledged and not handed out,
    /// those in flight, and those that wait to be begun.
    pub(crate) parcels: VecDeque<Parcel>,
    pub(crate) acknowledged: usize,
    pub(crate) in_flight: usize,
    /// The counts of the windows in flight, and how many parcels of the oldest are acknowledged.
    pub(crate) flights: VecDeque<u32>,
    pub(crate) done: u32,
    /// The count of the last window that was acknowledged in full.
    pub(crate) last: u32,
    pub(crate) outgoing: Outgoing,
    pub(crate) incoming: Incoming,
}

impl Model for Window {
    ghost use Rattle.std.specs.Prelude.{◌+◌};
    ghost use Rattle.lumber_client.specs.Held.{Held};

    ghost Value = { Held };

    ghost use Rattle.lumber_client.specs.Exchange.{payloads_of};
    ghost use Rattle.lumber_client.specs.Laying.{behind_of, piece_of};
    ghost use Rattle.lumber_client.specs.Sound.{IsSound};

    ghost view = { λ w. record {
      most = w.most;
      depth = w.depth;
      parcels = w.parcels.items;
      acknowledged = w.acknowledged;
      in_flight = w.in_flight;
      flights = w.flights.items;
      done = w.done;
      last = w.last;
      out = piece_of w.outgoing (payloads_of w.parcels.items) (w.acknowledged + w.in_flight);
      behind = behind_of w.outgoing (payloads_of w.parcels.items) (w.acknowledged + w.in_flight);
      hearing = w.incoming;
    } };

    ghost invariant = { λ w. IsSound w };
}

impl Window {
    /// Windows of at most `most` parcels each, of which at most `depth` are begun and not
    /// acknowledged in full. All memory is taken here.
    pub fn new(alloc: Global, most: u32, depth: u32) -> Result<Window, NoMemory>
        requires most { 0 < most }
        requires depth { 0 < depth }
        ensures nothing_yet { IfOk result (λ window. window ≡ nothing_held most depth) }
        ensures stands { IfOk result (λ window. StandsFor window no_exchange) }
    {
        Window::empty(alloc, most, depth)
    }

    /// Whether a parcel may be offered: fewer than `most` wait to be begun, and nothing that is
    /// acknowledged waits for `settled`.
    pub fn can_offer(&self) -> bool
        ensures { IsTrue result ↔
            ((length (waiting_in self.now) < self.now.most) × (self.now.acknowledged ≡ 0)) }
    {
        self.acknowledged == 0 && self.waiting() < self.most as usize
    }

    /// Whether a window may be begun: parcels wait, and fewer than `depth` windows are in flight.
    pub fn can_begin(&self) -> bool
        ensures { IsTrue result ↔
            ((0 < length (waiting_in self.now)) × (length self.now.flights < self.now.depth)) }
    {
        0 < self.waiting() && self.flights.len() < self.depth as usize
    }

    /// Whether as many windows are in flight as may be.
    pub fn is_full(&self) -> bool
        ensures { IsTrue result ↔ (self.now.depth ≤ length self.now.flights) }
    {
        self.depth as usize <= self.flights.len()
    }

    /// How many windows are begun and not acknowledged in full.
    pub fn windows_in_flight(&self) -> usize
        ensures windows { result ≡ length self.now.flights }
        ensures no_parcel_without_a_window { self.now.flights ≡ [] → self.now.in_flight ≡ 0 }
        ensures no_window_without_a_parcel { 0 < length self.now.flights → 0 < self.now.in_flight }
    {
        self.flights.len()
    }

    /// Whether parcels are acknowledged and not handed out.
    pub fn has_settled(&self) -> bool
        ensures some { IsTrue result ↔ (0 < self.now.acknowledged) }
        ensures are_held { self.now.acknowledged ≤ length self.now.parcels }
    {
        self.acknowledged > 0
    }

    /// Whether a fault of the peer was reported since the window was made or made again.
    pub fn has_failed(&self) -> bool
        ensures { result ≡ self.now.hearing.failed }
    {
        self.incoming.failed()
    }

    /// Puts a parcel after those that wait to be begun. Fewer than `most` wait, and nothing that
    /// is acknowledged waits for `settled`.
    pub fn offer(&mut self, parcel: Parcel)
        requires range { IsParcel parcel }
        requires room { length (waiting_in self.old) < self.old.most }
        requires nothing_to_settle { self.old.acknowledged ≡ 0 }
        ensures offered { self.new ≡ with_offered self.old parcel }
        ensures one_more_waits { length (waiting_in self.new) ≡ suc (length (waiting_in self.old)) }
        ensures stands { (e : Exchange) → StandsFor self.old e → StandsFor self.new e }
    {
        self.push(parcel);
    }

    /// Begins a window of the first `most` parcels that wait, or of all of them.
    pub fn begin(&mut self)
        requires some { 0 < length (waiting_in self.old) }
        requires room { length self.old.flights < self.old.depth }
        ensures begun { self.new ≡ begun_as self.old self.new.out self.new.behind }
        ensures written_behind { self.new.out ++ self.new.behind ≡
            (self.old.out ++ self.old.behind) ++ window_bytes (payloads_of (next_in self.old)) }
        ensures something_goes_out { 0 < length self.new.out }
        ensures stands { (e : Exchange) → StandsFor self.old e →
            StandsFor self.new (with_begun e (next_in self.old)) }
    {
        self.begin_next();
    }

    /// The next piece to go out; empty exactly if all that was begun is out. Frames are in it
    /// one after another, and a payload that is larger than the buffer is a piece of its own.
    pub fn out(&self) -> &[u8]
        ensures piece { result.now ≡ self.now.out }
        ensures empty_only_where_all_is_out { result.now ≡ [] → self.now.behind ≡ [] }
    {
        self.outgoing
            .piece(&self.parcels, self.acknowledged + self.in_flight)
    }

    /// The first `n` bytes of the piece went out.
    pub fn sent(&mut self, n: usize)
        requires { n ≤ length self.old.out }
        ensures sent { self.new ≡ sent_as self.old self.new.out self.new.behind }
        ensures rest { self.new.out ++ self.new.behind ≡ drop n (self.old.out ++ self.old.behind) }
        ensures stands { (e : Exchange) → StandsFor self.old e →
            StandsFor self.new (with_sent e (take n self.old.out)) }
    {
        self.pass(n);
    }

    /// Takes the next byte that the peer gave. All that was begun is out, and no fault was reported
    /// since the window was made or made again.
    pub fn got(&mut self, byte: u8) -> Heard
        requires all_is_out { self.old.out ≡ [] }
        requires no_fault { self.old.hearing.failed ≡ false }
        ensures told { (e : Exchange) → StandsFor self.old e → IsAnswerTo e byte result }
        ensures stands { (e : Exchange) → StandsFor self.old e →
            StandsFor self.new (with_heard e byte) }
        ensures acknowledged { self.new.acknowledged ≡
            self.old.acknowledged + newly_acknowledged result }
        ensures kept { KeepsParcels self.old self.new }
        ensures no_more_in_flight { length self.new.flights ≤ length self.old.flights }
        ensures failed_where_a_fault_is_told { self.new.hearing.failed ≡ is_fault result }
    {
        let place = self.given();
        match self.take(byte) {
            Taken::Front => Heard::More,
            Taken::Number(number) => self.answer(number, place),
            Taken::Fault => Heard::PeerFault { at: place },
        }
    }

    /// Hands out the next parcel that is acknowledged, in order, each once; `None` exactly if
    /// none is left.
    pub fn settled(&mut self) -> Option<Parcel>
        ensures first { IfSome result (λ parcel. self.old.parcels ≡ parcel ∷ self.new.parcels) }
        ensures fewer { IfSome result (λ _. self.old.acknowledged ≡ suc self.new.acknowledged) }
        ensures others_stay { IfSome result (λ _. self.new ≡
            with_parcels self.old self.new.parcels self.new.acknowledged) }
        ensures none_where_none_is_left { IfNone result (self.old.acknowledged ≡ 0) }
        ensures unchanged_where_none { IfNone result (self.new ≡ self.old) }
        ensures range { IfSome result IsParcel }
        ensures stands { (e : Exchange) → StandsFor self.old e →
            MatchOption result (StandsFor self.new e)
            (λ parcel. StandsFor self.new (with_handed e parcel)) }
        ensures what_was_acknowledged { (e : Exchange) → StandsFor self.old e →
            MatchOption result (IsAllHanded e) (IsNextOf e) }
    {
        if !self.has_settled() {
            return None;
        }
        Some(self.hand_out())
    }

    /// Makes the parcels that are not acknowledged wait to be begun again, in their old order,
    /// those that already waited last. Parcels that are acknowledged and not handed out stay for
    /// `settled`.
    pub fn again(&mut self)
        ensures again { self.new ≡ made_again self.old }
        ensures stands { (e : Exchange) → StandsFor self.old e → StandsFor self.new (anew e) }
    {
        self.start_again();
    }
}

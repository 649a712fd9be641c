ghost use Rattle.std.specs.Prelude.{◌≡◌, ◌≢◌, ◌⊎◌, ◌<◌, ◌++◌, ◌∷◌, [], All, IfErr, IfNone, IfSome, IsSome, None, OnErr, OnOk, OnSome, Some, length, slice_get};
ghost use Rattle.std.specs.Bool.{OnFalse, OnTrue};
ghost use Rattle.std.specs.Borrow.{sem};
ghost use Rattle.lanes.specs.Changing.{ChangesOne, HasEnding, HasRenamed, HasStirred, LooksAt};
ghost use Rattle.lanes.specs.Done.{IsDone, IsThrough};
ghost use Rattle.lanes.specs.Finding.{LendsFound, StandsAmong};
ghost use Rattle.lanes.specs.Giving.{notes_in};
ghost use Rattle.lanes.specs.Laning.{IsOfAnother, Pops, Releases, ReleasesAt, StandsAt, begun_with, laning, with_passes, without_passes};

use crate::given::Given;
use crate::lane::Lane;
use crate::seat::Seat;
use crate::seat_look::SeatLook;
use crate::tally::Tally;
use harvester::Harvester;
use mem_queue::PutPass;
use outside::Tail;
use settle_box::PostPass;
use std::alloc::Global;
use std::collections::BTreeMap;
use std::mem;
use wire_base::{Slot, Text};

impl<T: Tail> Lane<T> {
    /// A lane without harvesters. Takes no memory.
    pub fn new(alloc: Global, put: PutPass, post: PostPass) -> Lane<T>
        ensures { laning result ≡ begun_with put post }
    {
        Lane {
            put: Some(put),
            post: Some(post),
            seats: Vec::new(alloc),
            held: Given::Nothing,
            spans: 0,
            tally: Tally::begun(false),
            next: 0,
            places: BTreeMap::new(alloc),
        }
    }

    /// Takes a harvester in, after the others. `Err` means out of memory, and gives it back.
    pub fn admit(&mut self, harvester: Harvester<T>) -> Result<(), Harvester<T>>
        ensures admitted { OnOk result (laning self.new ≡ record (laning self.old) {
          harvesters = (laning self.old).harvesters ++ harvester ∷ [];
        }) }
        ensures kept { OnErr result (laning self.new ≡ laning self.old) }
        ensures given_back { IfErr result (λ back. back ≡ harvester) }
    {
        if self.seats.reserve(1).is_err() {
            return Err(harvester);
        }
        let slot = harvester.slot();
        let place = self.seats.len();
        self.seats.push_reserved(Seat::new(harvester));
        self.keep_place(slot, place);
        Ok(())
    }

    /// Lends the harvester of this slot; what is left in it is at its place then. `None` exactly if there is none.
    /// Takes no memory, and little time if there is one.
    pub fn find(&mut self, slot: Slot) -> Option<&mut Harvester<T>>
        ensures* lends { sem 𝓛 (LendsFound T.row slot self.entry result) }
        ensures found { IfSome result (λ lent.
            StandsAmong slot (laning self.old).harvesters lent.now) }
        ensures none { IfNone result (All (IsOfAnother slot) (laning self.old).harvesters) }
    {
        let index = self.place_of(slot)?;
        let seat = &mut self.seats[index];
        Some(&mut seat.harvester)
    }

    /// Releases the harvester of this slot; the last one takes its seat. `None` exactly if there is none. Takes no memory,
    /// and little time if there is one.
    pub fn release(&mut self, slot: Slot) -> Option<Harvester<T>>
        ensures released { IfSome result (Releases slot (laning self.old) (laning self.new)) }
        ensures none { IfNone result (All (IsOfAnother slot) (laning self.old).harvesters) }
        ensures kept { IfNone result (laning self.new ≡ laning self.old) }
    {
        let index = self.place_of(slot)?;
        Some(self.release_at(index))
    }

    /// Releases the harvester that was admitted last. `None` exactly if there is none. Takes no memory, and little time.
    pub fn pop(&mut self) -> Option<Harvester<T>>
        ensures popped { IfSome result (Pops (laning self.old) (laning self.new)) }
        ensures none { IfNone result ((laning self.old).harvesters ≡ []) }
        ensures kept { IfNone result (laning self.new ≡ laning self.old) }
    {
        let seat = self.seats.pop()?;
        self.places.remove(&seat.harvester.slot().0);
        Some(seat.harvester)
    }

    /// At which place a harvester of this slot is: where it was last, or else by a look at each.
    pub(crate) fn place_of(&self, slot: Slot) -> Option<usize>
        ensures stands { IfSome result (StandsAt slot (laning self.now).harvesters) }
        ensures none { IfNone result (All (IsOfAnother slot) (laning self.now).harvesters) }
    {
        if let Some(place) = self.kept_place(slot) {
            return Some(place);
        }
        let mut index = self.seats.len();
        'seats: while index > 0 {
            index -= 1;
            if self.seats[index].harvester.slot() == slot {
                return Some(index);
            }
        }
        None
    }

    /// Whether it has no harvester and holds nothing: a round would turn and hand on nothing.
    pub fn is_at_rest(&self) -> bool
        ensures no_harvesters { OnTrue result ((laning self.now).harvesters ≡ []) }
        ensures none_held { OnTrue result ((laning self.now).held ≡ Given.Nothing) }
        ensures work { OnFalse result (((laning self.now).harvesters ≢ []) ⊎
            ((laning self.now).held ≢ Given.Nothing)) }
    {
        self.seats.is_empty() && !self.held.is_something()
    }

    /// Whether it holds a note that the box refused.
    pub fn holds_note(&self) -> bool
        ensures note { OnTrue result (notes_in self.now.held ≢ []) }
        ensures none { OnFalse result (notes_in self.now.held ≡ []) }
    {
        match self.held {
            Given::Note(_) => true,
            Given::Parcel(_) | Given::Nothing => false,
        }
    }

    /// Whether it holds nothing, and no further turn of its harvesters would find anything: the last turn of each found the end
    /// and no event waits, or the file has changed or its last epoch is over.
    pub fn is_done(&self) -> bool
        ensures done { OnTrue result (IsDone (laning self.now)) }
        ensures work { OnFalse result (¬ (IsDone (laning self.now))) }
    {
        !self.held.is_something() && self.are_through()
    }

    fn are_through(&self) -> bool
        ensures all { OnTrue result (All IsThrough (laning self.now).harvesters) }
        ensures some { OnFalse result (¬ (All IsThrough (laning self.now).harvesters)) }
    {
        let mut index = self.seats.len();
        'seats: while index > 0 {
            index -= 1;
            if !self.seats[index].is_through() {
                return false;
            }
        }
        true
    }

    /// How many spans its harvesters reported in this lane. The count saturates at 2^64 - 1.
    pub fn spans(&self) -> u64
        ensures { result ≡ self.now.spans }
    {
        self.spans
    }

    /// What the turns of the last round came to.
    pub fn tally(&self) -> Tally
        ensures { result ≡ self.now.tally }
    {
        self.tally
    }

    /// Takes the lane's passes out.
    pub fn lay_down(&mut self) -> (PutPass, PostPass)
        requires passes { IsSome self.old.put × IsSome self.old.post }
        ensures laid_down { laning self.new ≡ without_passes (laning self.old) }
        ensures passes { (self.old.put ≡ Some result.0) × (self.old.post ≡ Some result.1) }
    {
        match (mem::take(&mut self.put), mem::take(&mut self.post)) {
            (Some(put), Some(post)) => (put, post),
            _ => unreachable!(),
        }
    }

    /// Gives passes to a lane that has none.
    pub fn take_up(&mut self, put: PutPass, post: PostPass)
        requires { (self.old.put ≡ None) × (self.old.post ≡ None) }
        ensures { laning self.new ≡ with_passes (laning self.old) put post }
    {
        self.put = Some(put);
        self.post = Some(post);
    }

    /// Releases the lane, and gives its passes back. What it holds is given up.
    pub fn end(self) -> (PutPass, PostPass)
        requires passes { IsSome self.put × IsSome self.post }
        requires no_harvesters { (laning self).harvesters ≡ [] }
        ensures passes { (self.put ≡ Some result.0) × (self.post ≡ Some result.1) }
    {
        let Lane {
            put,
            post,
            seats,
            held: _held,
            spans: _,
            tally: _,
            next: _,
            places: _places,
        } = self;
        seats.destroy_empty();
        match (put, post) {
            (Some(put), Some(post)) => (put, post),
            _ => unreachable!(),
        }
    }

    /// How many harvesters it has. Their seats are the numbers below.
    pub fn len(&self) -> usize
        ensures { result ≡ length (laning self.now).harvesters }
    {
        self.seats.len()
    }

    /// Looks at the harvester of this seat.
    pub fn look(&self, seat: usize) -> SeatLook
        requires { seat < length (laning self.now).harvesters }
        ensures { LooksAt T.numbers T.told seat (laning self.now).harvesters result }
    {
        let harvester = &self.seats[seat].harvester;
        let (epoch, told_to) = harvester.told();
        SeatLook {
            slot: harvester.slot(),
            epoch,
            told_to,
            read_to: harvester.read_to(),
            changed: harvester.changed(),
            idle_since: harvester.idle_since(),
        }
    }

    /// Releases the harvester of this seat; the last one takes the seat. Takes no memory, and little time.
    pub fn release_at(&mut self, seat: usize) -> Harvester<T>
        requires { seat < length (laning self.old).harvesters }
        ensures { ReleasesAt seat (laning self.old) (laning self.new) result }
    {
        let released = self.seats.swap_remove(seat).harvester;
        self.places.remove(&released.slot().0);
        self.move_place(seat);
        released
    }

    /// The harvester of this slot reports later events with this path. Whether there is one. Takes no memory.
    pub fn rename(&mut self, slot: Slot, path: Text) -> bool
        ensures renamed { OnTrue result (ChangesOne slot (HasRenamed T.numbers T.told path)
            (laning self.old) (laning self.new)) }
        ensures none { OnFalse result (All (IsOfAnother slot) (laning self.old).harvesters) }
        ensures kept { OnFalse result (laning self.new ≡ laning self.old) }
    {
        let Some(place) = self.place_of(slot) else {
            return false;
        };
        let seat = &mut self.seats[place];
        seat.harvester.rename(path);
        true
    }

    /// Later turns of the harvester of this slot are made as with `last`; whether the file is to be forgotten at its end.
    /// Whether there is one. Takes no memory.
    pub fn ending(&mut self, slot: Slot, forget: bool) -> bool
        ensures ends { OnTrue result (ChangesOne slot (HasEnding T.numbers T.told forget)
            (laning self.old) (laning self.new)) }
        ensures none { OnFalse result (All (IsOfAnother slot) (laning self.old).harvesters) }
        ensures kept { OnFalse result (laning self.new ≡ laning self.old) }
    {
        let Some(place) = self.place_of(slot) else {
            return false;
        };
        let seat = &mut self.seats[place];
        seat.harvester.ending(forget);
        true
    }

    /// Something was heard of the file of this slot. Whether there is a harvester of it. Takes no memory.
    pub fn stir(&mut self, slot: Slot) -> bool
        ensures stirred { OnTrue result (ChangesOne slot HasStirred (laning self.old)
            (laning self.new)) }
        ensures none { OnFalse result (All (IsOfAnother slot) (laning self.old).harvesters) }
        ensures kept { OnFalse result (laning self.new ≡ laning self.old) }
    {
        let Some(place) = self.place_of(slot) else {
            return false;
        };
        let seat = &mut self.seats[place];
        seat.harvester.stir();
        true
    }

    /// Where the harvester of this slot is by what was kept of its place.
    pub(crate) fn kept_place(&self, slot: Slot) -> Option<usize>
        ensures { IfSome result (StandsAt slot (laning self.now).harvesters) }
    {
        let place = *self.places.get(&slot.0)?;
        if place >= self.seats.len() {
            return None;
        }
        if self.seats[place].harvester.slot() == slot {
            Some(place)
        } else {
            None
        }
    }

    /// Keeps the place of the harvester that was admitted last. Without memory it is searched for later.
    pub(crate) fn keep_place(&mut self, slot: Slot, place: usize)
        ensures { laning self.new ≡ laning self.old }
    {
        let _ = self.places.insert(slot.0, place);
    }

    /// Another harvester is at this place, if any does.
    fn move_place(&mut self, place: usize)
        ensures { laning self.new ≡ laning self.old }
    {
        if place >= self.seats.len() {
            return;
        }
        let slot = self.seats[place].harvester.slot();
        if let Some(kept) = self.places.get_mut(&slot.0) {
            *kept = place;
        }
    }
}

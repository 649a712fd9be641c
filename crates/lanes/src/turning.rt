ghost use Rattle.std.specs.Prelude.{◌≡◌, ◌+◌, ◌<◌, ◌≤◌, All, IfOk, IfSome, IfNone, length};
ghost use Rattle.batch_worker.specs.Steps.{PostsOf};
ghost use Rattle.wire_base.specs.Ranges.{IsMoment};
ghost use Rattle.lanes.specs.Handing.{PutsOf};
ghost use Rattle.lanes.specs.Laning.{laning};
ghost use Rattle.lanes.specs.Passing.{TurnsEach, TurnsOn, value_or};
ghost use Rattle.lanes.specs.Steps.{ChangedAt, TurnsAt};
ghost use Rattle.lanes.specs.Turned.{IsKnown};

use crate::given::Given;
use crate::handing::Outlets;
use crate::lane::Lane;
use crate::run::When;
use outside::Tail;
use std::alloc::Global;
use std::ops::Range;
use std::sync::Wait;

/// The queue or the box refused something, which the lane holds.
#[derive(Clone, Copy, Debug, PartialEq, Eq)]
pub(crate) struct Refused;

impl<T: Tail> Lane<T> {
    /// Turns each harvester once, beginning with `next`.
    pub(crate) fn turn_each<R: Wait>(
        &mut self,
        rt: &R,
        alloc: Global,
        outlets: Outlets<'_>,
        when: When,
    ) -> Result<(), Refused>
        requires of_this_queue { PutsOf outlets.queue.now.id self.old.put }
        requires of_this_box { PostsOf outlets.desk.now.id self.old.post }
        requires none_held { self.old.held ≡ Given.Nothing }
        requires known { All (IsKnown T.numbers T.told) (laning self.old).harvesters }
        requires moment { IsMoment when.now }
        ensures { TurnsEach T.numbers T.told T.faults outlets.entry.queue.now.capacity
            outlets.entry.desk.now.capacity when result 0 (length self.old.seats.items)
            (laning self.old) (laning self.new) }
    {
        let len = self.seats.len();
        let next = self.next.min(len);
        self.turn_each_of(rt, alloc, outlets, when, next..len)?;
        self.turn_each_of(rt, alloc, outlets, when, 0..next)
    }

    /// Turns those that go on, in passes, and makes at most this many turns.
    pub(crate) fn turn_on<R: Wait>(
        &mut self,
        rt: &R,
        alloc: Global,
        outlets: Outlets<'_>,
        when: When,
        most: u32,
    ) -> Result<(), Refused>
        requires of_this_queue { PutsOf outlets.queue.now.id self.old.put }
        requires of_this_box { PostsOf outlets.desk.now.id self.old.post }
        requires none_held { self.old.held ≡ Given.Nothing }
        requires known { All (IsKnown T.numbers T.told) (laning self.old).harvesters }
        requires moment { IsMoment when.now }
        ensures { TurnsOn T.numbers T.told T.faults outlets.entry.queue.now.capacity
            outlets.entry.desk.now.capacity when result most (laning self.old) (laning self.new) }
    {
        let mut left = most;
        'passes: while left > 0 {
            let turned = self.turn_those(rt, alloc, outlets, when, left)?;
            if turned == 0 {
                return Ok(());
            }
            left -= turned;
        }
        Ok(())
    }

    /// One turn of each that goes on, but at most this many. How many it made.
    fn turn_those<R: Wait>(
        &mut self,
        rt: &R,
        alloc: Global,
        outlets: Outlets<'_>,
        when: When,
        most: u32,
    ) -> Result<u32, Refused>
        requires of_this_queue { PutsOf outlets.queue.now.id self.old.put }
        requires of_this_box { PostsOf outlets.desk.now.id self.old.post }
        requires none_held { self.old.held ≡ Given.Nothing }
        requires known { All (IsKnown T.numbers T.told) (laning self.old).harvesters }
        requires moment { IsMoment when.now }
        ensures turned { TurnsOn T.numbers T.told T.faults outlets.entry.queue.now.capacity
            outlets.entry.desk.now.capacity when result (value_or result most)
            (laning self.old) (laning self.new) }
        ensures at_most { IfOk result (λ turned. turned ≤ most) }
    {
        let mut turned = 0;
        let mut index = 0;
        'seats: while index < self.seats.len() && turned < most {
            turned += self.turn_if_on(rt, alloc, outlets, when, index)?;
            index += 1;
        }
        Ok(turned)
    }

    /// One turn of this harvester, if it goes on. How many turns that were.
    fn turn_if_on<R: Wait>(
        &mut self,
        rt: &R,
        alloc: Global,
        outlets: Outlets<'_>,
        when: When,
        index: usize,
    ) -> Result<u32, Refused>
        requires of_this_queue { PutsOf outlets.queue.now.id self.old.put }
        requires of_this_box { PostsOf outlets.desk.now.id self.old.post }
        requires none_held { self.old.held ≡ Given.Nothing }
        requires known { All (IsKnown T.numbers T.told) (laning self.old).harvesters }
        requires moment { IsMoment when.now }
        requires within { index < length self.old.seats.items }
        ensures turned { TurnsOn T.numbers T.told T.faults outlets.entry.queue.now.capacity
            outlets.entry.desk.now.capacity when result (value_or result 1)
            (laning self.old) (laning self.new) }
        ensures at_most_one { IfOk result (λ turned. turned ≤ 1) }
    {
        if !self.seats[index].goes_on {
            return Ok(0);
        }
        self.turn_at(rt, alloc, outlets, when, index)?;
        Ok(1)
    }

    /// Turns each of these harvesters once.
    fn turn_each_of<R: Wait>(
        &mut self,
        rt: &R,
        alloc: Global,
        outlets: Outlets<'_>,
        when: When,
        range: Range<usize>,
    ) -> Result<(), Refused>
        requires of_this_queue { PutsOf outlets.queue.now.id self.old.put }
        requires of_this_box { PostsOf outlets.desk.now.id self.old.post }
        requires none_held { self.old.held ≡ Given.Nothing }
        requires known { All (IsKnown T.numbers T.told) (laning self.old).harvesters }
        requires moment { IsMoment when.now }
        requires rising { range.start ≤ range.end }
        requires within { range.end ≤ length self.old.seats.items }
        ensures { TurnsEach T.numbers T.told T.faults outlets.entry.queue.now.capacity
            outlets.entry.desk.now.capacity when result range.start range.end
            (laning self.old) (laning self.new) }
    {
        let mut index = range.start;
        'seats: while index < range.end {
            self.turn_at(rt, alloc, outlets, when, index)?;
            index += 1;
        }
        Ok(())
    }

    /// Turns this harvester, unless it has changed, and hands on what it gives.
    fn turn_at<R: Wait>(
        &mut self,
        rt: &R,
        alloc: Global,
        outlets: Outlets<'_>,
        when: When,
        index: usize,
    ) -> Result<(), Refused>
        requires of_this_queue { PutsOf outlets.queue.now.id self.old.put }
        requires of_this_box { PostsOf outlets.desk.now.id self.old.post }
        requires none_held { self.old.held ≡ Given.Nothing }
        requires known { All (IsKnown T.numbers T.told) (laning self.old).harvesters }
        requires moment { IsMoment when.now }
        requires within { index < length self.old.seats.items }
        ensures { TurnsEach T.numbers T.told T.faults outlets.entry.queue.now.capacity
            outlets.entry.desk.now.capacity when result index (index + 1)
            (laning self.old) (laning self.new) }
    {
        let Some(given) = self.turn(alloc, when, index) else {
            return Ok(());
        };
        if self.hand(rt, outlets, given) {
            return Ok(());
        }
        self.next = index + 1;
        Err(Refused)
    }

    /// One turn of this harvester, unless it has changed.
    fn turn(&mut self, alloc: Global, when: When, index: usize) -> Option<Given>
        requires moment { IsMoment when.now }
        requires within { index < length self.old.seats.items }
        ensures turned { IfSome result (TurnsAt T.numbers T.told T.faults when index
            (laning self.old) (laning self.new)) }
        ensures kept { IfNone result (laning self.new ≡ laning self.old) }
        ensures changed { IfNone result (ChangedAt index (laning self.old).harvesters) }
    {
        let seat = &mut self.seats[index];
        if seat.harvester.changed() {
            return None;
        }
        let turn = seat.turn(alloc, when);
        self.tally.add(seat.harvester.slot(), &turn);
        let given = seat.give(turn);
        self.spans = self.spans.saturating_add(given.spans());
        Some(given)
    }
}

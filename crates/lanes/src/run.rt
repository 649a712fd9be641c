ghost use Rattle.std.specs.Prelude.{◌≡◌, All};
ghost use Rattle.batch_worker.specs.Steps.{PostsOf};
ghost use Rattle.wire_base.specs.Ranges.{IsMoment};
ghost use Rattle.lanes.specs.Giving.{IsInRange};
ghost use Rattle.lanes.specs.Handing.{PutsOf};
ghost use Rattle.lanes.specs.Laning.{laning};
ghost use Rattle.lanes.specs.Passing.{TurnsAll};
ghost use Rattle.lanes.specs.Running.{LaneRuns};
ghost use Rattle.lanes.specs.Turned.{IsKnown};

use crate::given::Given;
use crate::handing::Outlets;
use crate::lane::Lane;
use crate::tally::Tally;
use crate::turning::Refused;
use outside::Tail;
use std::alloc::Global;
use std::mem;
use std::sync::Wait;
use wire_base::Moment;

/// How many turns of harvesters a lane makes in a round at most, but for one of each.
pub const MAX_TURNS: usize = 256;

/// When a round is made, and whether the end of a file may be found in it.
#[derive(Clone, Copy, Debug, PartialEq, Eq)]
pub struct When {
    pub now: Moment,
    pub last: bool,
}

impl<T: Tail> Lane<T> {
    /// One round: hands on what is held, and then turns each harvester once, and if that makes less than 256 turns, those
    /// that go on once more, in passes. What is refused is held, and ends the round. A harvester that has changed is not turned.
    pub fn run<R: Wait>(&mut self, rt: &R, alloc: Global, outlets: Outlets<'_>, when: When)
        requires of_this_queue { PutsOf outlets.queue.now.id self.old.put }
        requires of_this_box { PostsOf outlets.desk.now.id self.old.post }
        requires in_range { IsInRange self.old.held }
        requires known { All (IsKnown T.numbers T.told) (laning self.old).harvesters }
        requires moment { IsMoment when.now }
        ensures runs { LaneRuns T.numbers T.told T.faults outlets.entry.queue.now.capacity
            outlets.entry.desk.now.capacity when (laning self.old) (laning self.new) }
    {
        self.tally = Tally::begun(false);
        let held = mem::replace(&mut self.held, Given::Nothing);
        let some = held.is_something();
        if !self.hand(rt, outlets, held) {
            return;
        }
        self.tally = Tally::begun(some);
        let _ = self.turn_all(rt, alloc, outlets, when);
    }

    /// Turns each harvester once, and then those that go on.
    fn turn_all<R: Wait>(
        &mut self,
        rt: &R,
        alloc: Global,
        outlets: Outlets<'_>,
        when: When,
    ) -> Result<(), Refused>
        requires of_this_queue { PutsOf outlets.queue.now.id self.old.put }
        requires of_this_box { PostsOf outlets.desk.now.id self.old.post }
        requires none_held { self.old.held ≡ Given.Nothing }
        requires known { All (IsKnown T.numbers T.told) (laning self.old).harvesters }
        requires moment { IsMoment when.now }
        ensures { TurnsAll T.numbers T.told T.faults outlets.entry.queue.now.capacity
            outlets.entry.desk.now.capacity when result (laning self.old) (laning self.new) }
    {
        self.turn_each(rt, alloc, outlets, when)?;
        let more = MAX_TURNS - self.seats.len().min(MAX_TURNS);
        self.turn_on(rt, alloc, outlets, when, more as u32)
    }
}

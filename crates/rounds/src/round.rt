ghost use Rattle.std.specs.Prelude.{◌≡◌, All};
ghost use Rattle.wire_base.specs.Ranges.{IsMoment};
ghost use Rattle.rounds.specs.Crewed.{lanings};
ghost use Rattle.rounds.specs.Crewing.{crewing};
ghost use Rattle.rounds.specs.RoundKeeps.{RoundKeeps};
ghost use Rattle.rounds.specs.Rounds.{AllRan, CanMeet, IsReady, MeetsIn, OthersRan, Rounds, StoresWhereStill};
ghost use Rattle.rounds.specs.Running.{IsCarrierReady, IsLaneReady, IsStoringReady, StoringHasRun};
ghost use Rattle.rounds.specs.Settling.{ArePostsCounted};
ghost use Rattle.rounds.specs.Words.{disk_words, link_words, tail_words, wire_words, words};

use crate::answer::Round;
use crate::crew::Crew;
use crate::meeting::meet;
use crate::running::{Shift, run_all, run_both};
use crate::storing::Storing;
use lanes::{Outlets, When};
use outside::{Disk, Link, Tail, Wire};
use std::alloc::Global;
use std::sync::Wait;
use std::thread::Threads;

impl<T: Tail + Send, L: Link + Send, W: Wire<Link = L> + Send> Crew<T, W, L> {
    /// One round. Lanes and the keeper have their turns at once, each in a thread of its own if one can be made, and each
    /// worker in the thread of a lane, after it; but a single worker has its turns after all lanes, and the keeper beside it
    /// before them. Then all passes of the queue and the box meet, and are parted again.
    pub fn round<D: Disk + Send, R: Threads + Wait + Sync>(
        &mut self,
        rt: &R,
        alloc: Global,
        outlets: Outlets<'_>,
        when: When,
        storing: &mut Storing<'_, D>,
    ) -> Round
        requires ready { IsReady (tail_words T.numbers T.told T.faults) outlets.queue.now.id
            outlets.desk.now.id (crewing self.old storing.old) }
        requires moment { IsMoment when.now }
        ensures rounds { Rounds (words (tail_words T.numbers T.told T.faults)
            (link_words L.told L.faults L.idles)
            (wire_words W.outcomes W.open_links W.faults W.idles)
            (disk_words D.contents D.images D.moment D.images_since D.faults))
            outlets.entry.queue.now outlets.entry.desk.now when
            (crewing self.old storing.old) (crewing self.new storing.new) result }
        ensures keeps { RoundKeeps (words (tail_words T.numbers T.told T.faults)
            (link_words L.told L.faults L.idles)
            (wire_words W.outcomes W.open_links W.faults W.idles)
            (disk_words D.contents D.images D.moment D.images_since D.faults))
            outlets.entry.queue.now outlets.entry.desk.now when
            (crewing self.old storing.old) (crewing self.new storing.new) result }
        ensures counted { ArePostsCounted self.new }
    {
        let shift = Shift {
            alloc,
            outlets,
            when,
        };
        self.make_round(rt, shift, storing)
    }

    fn make_round<D: Disk + Send, R: Threads + Wait + Sync>(
        &mut self,
        rt: &R,
        shift: Shift<'_>,
        storing: &mut Storing<'_, D>,
    ) -> Round
        requires ready { IsReady (tail_words T.numbers T.told T.faults) shift.outlets.queue.now.id
            shift.outlets.desk.now.id (crewing self.old storing.old) }
        requires moment { IsMoment shift.when.now }
        ensures { Rounds (words (tail_words T.numbers T.told T.faults)
            (link_words L.told L.faults L.idles)
            (wire_words W.outcomes W.open_links W.faults W.idles)
            (disk_words D.contents D.images D.moment D.images_since D.faults))
            shift.entry.outlets.queue.now shift.entry.outlets.desk.now shift.entry.when
            (crewing self.old storing.old) (crewing self.new storing.new) result }
    {
        self.run(rt, shift, storing);
        self.meet(shift.outlets, storing);
        self.answer(storing.stored)
    }

    fn run<D: Disk + Send, R: Threads + Wait + Sync>(
        &mut self,
        rt: &R,
        shift: Shift<'_>,
        storing: &mut Storing<'_, D>,
    )
        requires ready { IsReady (tail_words T.numbers T.told T.faults) shift.outlets.queue.now.id
            shift.outlets.desk.now.id (crewing self.old storing.old) }
        requires moment { IsMoment shift.when.now }
        ensures { AllRan (words (tail_words T.numbers T.told T.faults)
            (link_words L.told L.faults L.idles)
            (wire_words W.outcomes W.open_links W.faults W.idles)
            (disk_words D.contents D.images D.moment D.images_since D.faults))
            shift.entry.outlets.queue.now shift.entry.outlets.desk.now shift.entry.when
            (crewing self.old storing.old) (crewing self.new storing.new) }
    {
        if self.pace.is_due() {
            self.run_all(rt, shift, storing);
            self.pace.without = 0;
        } else {
            self.run_both(rt, shift);
            self.store_where_still(rt, shift, storing);
        }
    }

    /// The turns of lanes, workers and the keeper.
    fn run_all<D: Disk + Send, R: Threads + Wait + Sync>(
        &mut self,
        rt: &R,
        shift: Shift<'_>,
        storing: &mut Storing<'_, D>,
    )
        requires ready { IsReady (tail_words T.numbers T.told T.faults) shift.outlets.queue.now.id
            shift.outlets.desk.now.id (crewing self.old storing.old) }
        requires moment { IsMoment shift.when.now }
        ensures others { OthersRan (tail_words T.numbers T.told T.faults)
            (link_words L.told L.faults L.idles)
            (wire_words W.outcomes W.open_links W.faults W.idles)
            shift.entry.outlets.queue.now shift.entry.outlets.desk.now shift.entry.when
            self.old self.new }
        ensures storing { StoringHasRun
            (disk_words D.contents D.images D.moment D.images_since D.faults)
            storing.old storing.new }
        ensures pace { self.new.pace ≡ self.old.pace }
    {
        run_all(
            rt,
            shift,
            self.lanes.as_mut_slice(),
            self.carriers.as_mut_slice(),
            storing,
        );
    }

    /// The turns of lanes and workers.
    fn run_both<R: Threads + Wait + Sync>(&mut self, rt: &R, shift: Shift<'_>)
        requires lanes_ready { All (IsLaneReady (tail_words T.numbers T.told T.faults)
            shift.outlets.queue.now.id shift.outlets.desk.now.id) (lanings self.old.lanes.items) }
        requires carriers_ready { All (IsCarrierReady shift.outlets.queue.now.id
            shift.outlets.desk.now.id) self.old.carriers.items }
        requires moment { IsMoment shift.when.now }
        ensures others { OthersRan (tail_words T.numbers T.told T.faults)
            (link_words L.told L.faults L.idles)
            (wire_words W.outcomes W.open_links W.faults W.idles)
            shift.entry.outlets.queue.now shift.entry.outlets.desk.now shift.entry.when
            self.old self.new }
        ensures pace { self.new.pace ≡ self.old.pace }
    {
        run_both(
            rt,
            shift,
            self.lanes.as_mut_slice(),
            self.carriers.as_mut_slice(),
        );
    }

    /// The keeper's turns, if nothing else moved.
    fn store_where_still<D: Disk, R: Wait>(
        &mut self,
        rt: &R,
        shift: Shift<'_>,
        storing: &mut Storing<'_, D>,
    )
        requires ready { IsStoringReady shift.outlets.desk.now.id storing.old }
        ensures stores { StoresWhereStill
            (disk_words D.contents D.images D.moment D.images_since D.faults)
            (crewing self.old storing.old) (crewing self.new storing.new) }
    {
        if self.have_others_moved() {
            storing.rest();
            self.pace.without = self.pace.without.saturating_add(1);
        } else {
            storing.run(rt, shift.alloc, shift.outlets.desk);
            self.pace.without = 0;
        }
    }

    /// All passes meet, and are parted again.
    pub(crate) fn meet<D: Disk>(&mut self, outlets: Outlets<'_>, storing: &mut Storing<'_, D>)
        requires have { CanMeet outlets.queue.now.id outlets.desk.now.id
            (crewing self.old storing.old) }
        ensures { MeetsIn outlets.entry.queue.now.id outlets.entry.desk.now.id
            (crewing self.old storing.old) (crewing self.new storing.new) }
    {
        let posted = meet(
            outlets,
            self.lanes.as_mut_slice(),
            self.carriers.as_mut_slice(),
            storing.keeper,
        );
        self.pace.boxed = posted.saturating_sub(storing.keeper.collected());
        self.pace.posted = posted;
    }
}

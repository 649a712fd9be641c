ghost use Rattle.std.specs.Prelude.{◌≡◌};
ghost use Rattle.std.specs.List.{AllByRecursion};
ghost use Rattle.batch_worker.specs.Steps.{PostsOf};
ghost use Rattle.lanes.specs.Laning.{laning};
ghost use Rattle.rounds.specs.Crewed.{carriers_passes, lanings};
ghost use Rattle.rounds.specs.Crewing.{crewing};
ghost use Rattle.rounds.specs.Pairs.{Pairs};
ghost use Rattle.rounds.specs.Passes.{AreAllOf};
ghost use Rattle.rounds.specs.Rounds.{IsReady};
ghost use Rattle.rounds.specs.Settling.{CanHandOn, CarrierHandedOn, HaveHandedOn, LaneHandedOn, Settles, SettlingKeeps};
ghost use Rattle.rounds.specs.Words.{disk_words, link_words, tail_words, wire_words, words};

use crate::answer::Round;
use crate::carrier::Carrier;
use crate::crew::Crew;
use crate::storing::Storing;
use lanes::{Lane, Outlets};
use outside::{Disk, Link, Tail, Wire};
use settle_box::SettleBox;
use std::alloc::Global;
use std::sync::Wait;

impl<T: Tail + Send, L: Link + Send, W: Wire<Link = L> + Send> Crew<T, W, L> {
    /// The last steps of a run, once its files are closed. What lanes and workers still hold of notes is posted, the keeper has
    /// its turns, and then all passes meet and are parted again. Nothing is read, sent or received. It is called until
    /// `is_settled`; the answer is only about the keeper's turns.
    pub fn settle<D: Disk, R: Wait>(
        &mut self,
        rt: &R,
        alloc: Global,
        outlets: Outlets<'_>,
        storing: &mut Storing<'_, D>,
    ) -> Round
        requires ready { IsReady (tail_words T.numbers T.told T.faults) outlets.queue.now.id
            outlets.desk.now.id (crewing self.old storing.old) }
        ensures settles { Settles (words (tail_words T.numbers T.told T.faults)
            (link_words L.told L.faults L.idles)
            (wire_words W.outcomes W.open_links W.faults W.idles)
            (disk_words D.contents D.images D.moment D.images_since D.faults))
            outlets.entry.queue.now outlets.entry.desk.now
            (crewing self.old storing.old) (crewing self.new storing.new) result }
        ensures keeps { SettlingKeeps (words (tail_words T.numbers T.told T.faults)
            (link_words L.told L.faults L.idles)
            (wire_words W.outcomes W.open_links W.faults W.idles)
            (disk_words D.contents D.images D.moment D.images_since D.faults))
            outlets.entry.queue.now outlets.entry.desk.now
            (crewing self.old storing.old) (crewing self.new storing.new) result }
    {
        self.make_settle(rt, alloc, outlets, storing)
    }

    fn make_settle<D: Disk, R: Wait>(
        &mut self,
        rt: &R,
        alloc: Global,
        outlets: Outlets<'_>,
        storing: &mut Storing<'_, D>,
    ) -> Round
        requires ready { IsReady (tail_words T.numbers T.told T.faults) outlets.queue.now.id
            outlets.desk.now.id (crewing self.old storing.old) }
        ensures { Settles (words (tail_words T.numbers T.told T.faults)
            (link_words L.told L.faults L.idles)
            (wire_words W.outcomes W.open_links W.faults W.idles)
            (disk_words D.contents D.images D.moment D.images_since D.faults))
            outlets.entry.queue.now outlets.entry.desk.now
            (crewing self.old storing.old) (crewing self.new storing.new) result }
    {
        self.hand_on(rt, outlets);
        storing.run(rt, alloc, outlets.desk);
        self.pace.without = 0;
        self.meet(outlets, storing);
        Round::of(storing.stored)
    }

    /// Posts what lanes and workers still hold of notes.
    fn hand_on<R: Wait>(&mut self, rt: &R, outlets: Outlets<'_>)
        requires lanes { AllByRecursion (CanHandOn outlets.desk.now.id)
            (lanings self.old.lanes.items) }
        requires carriers { AreAllOf outlets.queue.now.id outlets.desk.now.id
            (carriers_passes self.old.carriers.items) }
        ensures handed { HaveHandedOn (link_words L.told L.faults L.idles)
            outlets.entry.desk.now.capacity self.old self.new }
        ensures pace { self.new.pace ≡ self.old.pace }
    {
        hand_on_lanes(rt, outlets, self.lanes.as_mut_slice());
        hand_on_carriers(rt, outlets, self.carriers.as_mut_slice());
    }
}

fn hand_on_lanes<T: Tail, R: Wait>(rt: &R, outlets: Outlets<'_>, lanes: &mut [Lane<T>])
    requires can { AllByRecursion (CanHandOn outlets.desk.now.id) (lanings lanes.old) }
    ensures { Pairs (LaneHandedOn outlets.entry.desk.now.capacity)
        (lanings lanes.old) (lanings lanes.new) }
{
    let Some((first, rest)) = lanes.split_first_mut() else {
        return;
    };
    hand_on_lane(rt, outlets.desk, first);
    hand_on_lanes(rt, outlets, rest);
}

fn hand_on_lane<T: Tail, R: Wait>(rt: &R, desk: &SettleBox, lane: &mut Lane<T>)
    requires can { CanHandOn desk.now.id (laning lane.old) }
    ensures { LaneHandedOn desk.now.capacity (laning lane.old) (laning lane.new) }
{
    lane.hand_on(rt, desk);
}

fn hand_on_carriers<L: Link, W: Wire<Link = L>, R: Wait>(
    rt: &R,
    outlets: Outlets<'_>,
    carriers: &mut [Carrier<W, L>],
)
    requires have { AreAllOf outlets.queue.now.id outlets.desk.now.id
        (carriers_passes carriers.old) }
    ensures { Pairs (CarrierHandedOn (link_words L.told L.faults L.idles)
        outlets.entry.desk.now.capacity) carriers.old carriers.new }
{
    let Some((first, rest)) = carriers.split_first_mut() else {
        return;
    };
    hand_on_carrier(rt, outlets.desk, first);
    hand_on_carriers(rt, outlets, rest);
}

fn hand_on_carrier<L: Link, W: Wire<Link = L>, R: Wait>(
    rt: &R,
    desk: &SettleBox,
    carrier: &mut Carrier<W, L>,
)
    requires of_this_box { PostsOf desk.now.id carrier.old.worker.post }
    ensures { CarrierHandedOn (link_words L.told L.faults L.idles) desk.now.capacity
        carrier.old carrier.new }
{
    carrier.worker.hand_on(rt, desk);
}

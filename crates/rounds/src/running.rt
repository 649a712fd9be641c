ghost use Rattle.std.specs.Prelude.{◌≡◌, All};
ghost use Rattle.lanes.specs.Laning.{laning};
ghost use Rattle.wire_base.specs.Ranges.{IsMoment};
ghost use Rattle.rounds.specs.Crewed.{lanings};
ghost use Rattle.rounds.specs.Pairs.{Pairs};
ghost use Rattle.rounds.specs.Running.{CarrierHasRun, IsCarrierReady, IsLaneReady, IsStoringReady, LaneHasRun, StoringHasRun};
ghost use Rattle.rounds.specs.Words.{disk_words, link_words, tail_words, wire_words};

use crate::carrier::Carrier;
use crate::halves::{Task, run_parts, run_workers_in_turn};
use crate::storing::Storing;
use lanes::{Lane, Outlets, When};
use outside::{Disk, Link, Tail, Wire};
use std::alloc::Global;
use std::sync::Wait;
use std::thread::{self, Threads};

/// What each thread of a round is given.
#[derive(Clone, Copy)]
pub(crate) struct Shift<'a> {
    pub alloc: Global,
    pub outlets: Outlets<'a>,
    pub when: When,
}

/// How many lanes have a harvester, or hold something.
fn busy_lanes<T: Tail>(lanes: &[Lane<T>]) -> usize {
    match lanes.split_first() {
        Some((lane, lanes)) => busy_lanes(lanes).saturating_add(usize::from(!lane.is_at_rest())),
        None => 0,
    }
}

/// Runs the keeper.
fn run_storing<D: Disk, R: Wait>(rt: &R, shift: Shift<'_>, storing: &mut Storing<'_, D>)
    requires ready { IsStoringReady shift.outlets.desk.now.id storing.old }
    ensures { StoringHasRun (disk_words D.contents D.images D.moment D.images_since D.faults)
        storing.old storing.new }
{
    storing.run(rt, shift.alloc, shift.outlets.desk);
}

/// The turns of a lane, and those of a worker.
#[derive(Drop)]
struct Turns<'a, 'b, R> {
    rt: &'a R,
    shift: Shift<'b>,
}

impl<'a, 'b, T: Tail + Send, L: Link + Send, W: Wire<Link = L> + Send, R: Wait + Sync> Task<
    Lane<T>,
    Carrier<W, L>,
> for Turns<'a, 'b, R> {
    ghost can_run = { λ turns. IsMoment turns.shift.when.now };

    ghost lane_ready = { λ turns lane. IsLaneReady (tail_words T.numbers T.told T.faults)
        turns.shift.outlets.queue.now.id turns.shift.outlets.desk.now.id (laning lane) };

    ghost worker_ready = { λ turns carrier. IsCarrierReady
        turns.shift.outlets.queue.now.id turns.shift.outlets.desk.now.id carrier };

    ghost lane_ran = { λ turns old new. LaneHasRun (tail_words T.numbers T.told T.faults)
        turns.shift.outlets.queue.now.capacity turns.shift.outlets.desk.now.capacity
        turns.shift.when (laning old) (laning new) };

    ghost worker_ran = { λ turns old new. CarrierHasRun (link_words L.told L.faults L.idles)
        (wire_words W.outcomes W.open_links W.faults W.idles)
        turns.shift.outlets.desk.now.capacity turns.shift.when.now old new };

    fn are_few_busy(&self, lanes: &[Lane<T>]) -> bool {
        busy_lanes(lanes) < 2
    }

    fn run_lane(&self, lane: &mut Lane<T>) {
        lane.run(
            self.rt,
            self.shift.alloc,
            self.shift.outlets,
            self.shift.when,
        );
    }

    fn run_worker(&self, worker: &mut Carrier<W, L>) {
        worker.run(self.rt, self.shift.outlets, self.shift.when.now);
    }
}

/// Runs lanes and workers: two workers or more each in the thread of a lane, after it, and a single one after all lanes.
pub(crate) fn run_both<
    T: Tail + Send,
    L: Link + Send,
    W: Wire<Link = L> + Send,
    R: Threads + Wait + Sync,
>(rt: &R, shift: Shift<'_>, lanes: &mut [Lane<T>], carriers: &mut [Carrier<W, L>])
    requires lanes_ready { All (IsLaneReady (tail_words T.numbers T.told T.faults)
        shift.outlets.queue.now.id shift.outlets.desk.now.id) (lanings lanes.old) }
    requires carriers_ready { All (IsCarrierReady shift.outlets.queue.now.id
        shift.outlets.desk.now.id) carriers.old }
    requires moment { IsMoment shift.when.now }
    ensures lanes { Pairs (LaneHasRun (tail_words T.numbers T.told T.faults)
        shift.entry.outlets.queue.now.capacity shift.entry.outlets.desk.now.capacity
        shift.entry.when) (lanings lanes.old) (lanings lanes.new) }
    ensures carriers { Pairs (CarrierHasRun (link_words L.told L.faults L.idles)
        (wire_words W.outcomes W.open_links W.faults W.idles)
        shift.entry.outlets.desk.now.capacity shift.entry.when.now) carriers.old carriers.new }
{
    let turns = Turns { rt, shift };
    // A single worker finds after all lanes what they gave; a thread for it costs more than it gives.
    if carriers.len() == 1 {
        let none: &mut [Carrier<W, L>] = &mut [];
        run_parts(rt, &turns, lanes, none);
        run_workers_in_turn::<Lane<T>, _, _>(&turns, carriers);
        return;
    }
    run_parts(rt, &turns, lanes, carriers);
}

/// Runs lanes, workers and the keeper: the keeper beside two workers or more, at once, and before a single one.
pub(crate) fn run_all<
    T: Tail + Send,
    L: Link + Send,
    W: Wire<Link = L> + Send,
    D: Disk + Send,
    R: Threads + Wait + Sync,
>(
    rt: &R,
    shift: Shift<'_>,
    lanes: &mut [Lane<T>],
    carriers: &mut [Carrier<W, L>],
    storing: &mut Storing<'_, D>,
)
    requires lanes_ready { All (IsLaneReady (tail_words T.numbers T.told T.faults)
        shift.outlets.queue.now.id shift.outlets.desk.now.id) (lanings lanes.old) }
    requires carriers_ready { All (IsCarrierReady shift.outlets.queue.now.id
        shift.outlets.desk.now.id) carriers.old }
    requires storing_ready { IsStoringReady shift.outlets.desk.now.id storing.old }
    requires moment { IsMoment shift.when.now }
    ensures lanes { Pairs (LaneHasRun (tail_words T.numbers T.told T.faults)
        shift.entry.outlets.queue.now.capacity shift.entry.outlets.desk.now.capacity
        shift.entry.when) (lanings lanes.old) (lanings lanes.new) }
    ensures carriers { Pairs (CarrierHasRun (link_words L.told L.faults L.idles)
        (wire_words W.outcomes W.open_links W.faults W.idles)
        shift.entry.outlets.desk.now.capacity shift.entry.when.now) carriers.old carriers.new }
    ensures storing { StoringHasRun
        (disk_words D.contents D.images D.moment D.images_since D.faults)
        storing.old storing.new }
{
    // Beside a single worker the keeper stores first what is in the box, and no thread is begun for it.
    if carriers.len() == 1 {
        run_storing(rt, shift, storing);
        run_both(rt, shift, lanes, carriers);
        return;
    }
    // Each thread reads a shift of its own.
    let other = shift;
    let mut keeping = ||
        requires { IsStoringReady shift.outlets.desk.now.id storing.now }
    { run_storing(rt, shift, storing) };
    let mut turning = ||
        requires lanes_ready { All (IsLaneReady (tail_words T.numbers T.told T.faults)
            other.outlets.queue.now.id other.outlets.desk.now.id) (lanings lanes.now) }
        requires carriers_ready { All (IsCarrierReady other.outlets.queue.now.id
            other.outlets.desk.now.id) carriers.now }
        requires moment { IsMoment other.when.now }
    { run_both(rt, other, lanes, carriers) };
    thread::join_mut(rt, &mut keeping, &mut turning);
}

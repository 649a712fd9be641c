ghost use Rattle.std.specs.Prelude.{◌≡◌};
ghost use Rattle.batch_worker.specs.Steps.{PostsOf, TakesOf};
ghost use Rattle.wire_base.specs.Ranges.{IsMoment};
ghost use Rattle.rounds.specs.CarrierTurns.{Carries, Counts, MakesOne, begun_carried};
ghost use Rattle.rounds.specs.Words.{link_words, wire_words};

use batch_worker::{Worker, WorkerTurn};
use lanes::Outlets;
use outside::{Link, Wire};
use std::sync::Wait;
use wire_base::Moment;

/// How many turns a worker, and the keeper, has in a round at most.
pub const MAX_TURNS: u32 = 256;

/// What a worker's turns of a round came to.
#[derive(Clone, Copy, Debug, PartialEq, Eq)]
pub struct Carried {
    /// Some turn answered `Worked`.
    pub moved: bool,
    /// Some turn answered `Failed`.
    pub failed: bool,
}

impl Carried {
    pub(crate) fn begun() -> Carried
        ensures { result ≡ begun_carried }
    {
        Carried {
            moved: false,
            failed: false,
        }
    }
}

/// A worker, and the wire that only it uses.
pub struct Carrier<W, L> {
    pub worker: Worker<L>,
    pub wire: W,
    /// What the turns of the last round came to.
    pub carried: Carried,
}

impl<L: Link, W: Wire<Link = L>> Carrier<W, L> {
    pub fn new(worker: Worker<L>, wire: W) -> Carrier<W, L>
        ensures { result ≡ record { worker = worker; wire = wire; carried = begun_carried } }
    {
        Carrier {
            worker,
            wire,
            carried: Carried::begun(),
        }
    }

    /// One round: at most 256 turns, as long as each works. It takes no memory.
    pub fn run<R: Wait>(&mut self, rt: &R, outlets: Outlets<'_>, now: Moment)
        requires of_this_queue { TakesOf outlets.queue.now.id self.old.worker.take }
        requires of_this_box { PostsOf outlets.desk.now.id self.old.worker.post }
        requires moment { IsMoment now }
        ensures { Carries (link_words L.told L.faults L.idles)
            (wire_words W.outcomes W.open_links W.faults W.idles)
            outlets.entry.desk.now.capacity now self.old self.new }
    {
        self.carried = Carried::begun();
        let mut turns = 0;
        'turns: while turns < MAX_TURNS {
            turns += 1;
            if !self.turn(rt, outlets, now) {
                return;
            }
        }
    }

    /// One turn; whether it worked.
    fn turn<R: Wait>(&mut self, rt: &R, outlets: Outlets<'_>, now: Moment) -> bool
        requires of_this_queue { TakesOf outlets.queue.now.id self.old.worker.take }
        requires of_this_box { PostsOf outlets.desk.now.id self.old.worker.post }
        requires moment { IsMoment now }
        ensures { MakesOne (link_words L.told L.faults L.idles)
            (wire_words W.outcomes W.open_links W.faults W.idles)
            outlets.entry.desk.now.capacity now result self.old self.new }
    {
        let turn = self
            .worker
            .turn(rt, outlets.queue, outlets.desk, &mut self.wire, now);
        self.count(&turn)
    }

    /// Counts a turn; whether it worked.
    fn count(&mut self, turn: &WorkerTurn) -> bool
        ensures { Counts turn.now result self.old self.new }
    {
        match turn {
            WorkerTurn::Worked => {
                self.carried.moved = true;
                true
            }
            WorkerTurn::Failed(_) => {
                self.carried.failed = true;
                false
            }
            WorkerTurn::Idle | WorkerTurn::Held | WorkerTurn::NotYet | WorkerTurn::Resting { .. } =>
                false,
        }
    }
}

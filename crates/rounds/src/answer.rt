ghost use Rattle.std.specs.Prelude.{◌≡◌};
ghost use Rattle.rounds.specs.Answer.{first_of, have_others_moved, of_stored, round_of, some_carrier_moved, some_lane_moved, with_carried, with_carriers, with_lanes, with_tally};
ghost use Rattle.rounds.specs.Crewed.{lanings};

use crate::carrier::{Carried, Carrier};
use crate::crew::Crew;
use crate::storing::Stored;
use lanes::{Lane, Tally};
use outside::{Disk, Link, Tail, Wire};
use wire_base::Slot;

/// What a round came to.
#[derive(Clone, Copy, Debug, PartialEq, Eq)]
pub struct Round {
    /// Something was read, reported, found, handed on, sent, received or stored.
    pub moved: bool,
    /// Some turn of a file or of the keeper found no memory.
    pub memory: bool,
    /// A disk failed.
    pub disk: bool,
    /// How many turns hit a read fault. The count saturates at 2^64 - 1.
    pub tail_faults: u64,
    /// The first file whose last epoch was over.
    pub epochs: Option<Slot>,
    /// How many workers failed. The count saturates at 2^32 - 1.
    pub failures: u32,
}

impl Round {
    pub(crate) fn of(stored: Stored) -> Round
        ensures { result ≡ of_stored stored }
    {
        Round {
            moved: stored.moved,
            memory: stored.memory,
            disk: stored.disk,
            tail_faults: 0,
            epochs: None,
            failures: 0,
        }
    }

    fn with_tally(self, tally: Tally) -> Round
        ensures { result ≡ with_tally tally self }
    {
        Round {
            moved: self.moved || tally.moved,
            memory: self.memory || tally.memory,
            disk: self.disk,
            tail_faults: self.tail_faults.saturating_add(tally.tail_faults),
            epochs: first_of(self.epochs, tally.epochs),
            failures: self.failures,
        }
    }

    fn with_carried(self, carried: Carried) -> Round
        ensures { result ≡ with_carried carried self }
    {
        Round {
            moved: self.moved || carried.moved,
            memory: self.memory,
            disk: self.disk,
            tail_faults: self.tail_faults,
            epochs: self.epochs,
            failures: self.failures.saturating_add(u32::from(carried.failed)),
        }
    }
}

fn first_of(slot: Option<Slot>, other: Option<Slot>) -> Option<Slot>
    ensures { result ≡ first_of slot other }
{
    match slot {
        Some(slot) => Some(slot),
        None => other,
    }
}

fn with_lanes<T: Tail>(lanes: &[Lane<T>], round: Round) -> Round
    ensures { result ≡ with_lanes (lanings lanes.now) round }
{
    match lanes.split_first() {
        Some((lane, lanes)) => with_lanes(lanes, round.with_tally(lane.tally())),
        None => round,
    }
}

fn with_carriers<W, L>(carriers: &[Carrier<W, L>], round: Round) -> Round
    ensures { result ≡ with_carriers carriers.now round }
{
    match carriers.split_first() {
        Some((carrier, carriers)) => with_carriers(carriers, round.with_carried(carrier.carried)),
        None => round,
    }
}

fn some_lane_moved<T: Tail>(lanes: &[Lane<T>]) -> bool
    ensures { result ≡ some_lane_moved (lanings lanes.now) }
{
    match lanes.split_first() {
        Some((lane, lanes)) => lane.tally().moved || some_lane_moved(lanes),
        None => false,
    }
}

fn some_carrier_moved<W, L>(carriers: &[Carrier<W, L>]) -> bool
    ensures { result ≡ some_carrier_moved carriers.now }
{
    match carriers.split_first() {
        Some((carrier, carriers)) => carrier.carried.moved || some_carrier_moved(carriers),
        None => false,
    }
}

impl<T: Tail, L: Link, W: Wire<Link = L>> Crew<T, W, L> {
    /// What the turns of the last round came to.
    pub(crate) fn answer(&self, stored: Stored) -> Round
        ensures { result ≡ round_of (lanings self.now.lanes.items) self.now.carriers.items stored }
    {
        let round = with_lanes(self.lanes.as_slice(), Round::of(stored));
        with_carriers(self.carriers.as_slice(), round)
    }

    /// Whether some lane or worker moved in the last round.
    pub(crate) fn have_others_moved(&self) -> bool
        ensures { result ≡ have_others_moved (lanings self.now.lanes.items) self.now.carriers.items }
    {
        some_lane_moved(self.lanes.as_slice()) || some_carrier_moved(self.carriers.as_slice())
    }
}

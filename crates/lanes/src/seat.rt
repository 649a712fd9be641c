ghost use Rattle.std.specs.Prelude.{◌≡◌};
ghost use Rattle.std.specs.Bool.{OnFalse, OnTrue};
ghost use Rattle.harvester.specs.HasTold.{IsChanged};
ghost use Rattle.wire_base.specs.Ranges.{IsMoment};
ghost use Rattle.lanes.specs.Done.{IsThrough};
ghost use Rattle.lanes.specs.Giving.{Gives};
ghost use Rattle.lanes.specs.Turned.{HasTurned};

use crate::given::Given;
use crate::run::When;
use harvester::{Harvester, Turn};
use outside::Tail;
use std::alloc::Global;
use wire_base::{Cause, MAX_PLACE, Note};

/// A harvester in a lane.
#[derive(Drop)]
pub(crate) struct Seat<T> {
    pub(crate) harvester: Harvester<T>,
    /// Whether a further turn in this round may find more.
    pub(crate) goes_on: bool,
}

impl<T: Tail> Seat<T> {
    pub(crate) fn new(harvester: Harvester<T>) -> Seat<T>
        ensures { result.harvester ≡ harvester }
    {
        Seat {
            harvester,
            goes_on: false,
        }
    }

    /// One turn of the harvester.
    pub(crate) fn turn(&mut self, alloc: Global, when: When) -> Turn
        requires goes_on { ¬ (IsChanged self.old.harvester) }
        requires moment { IsMoment when.now }
        ensures { HasTurned T.numbers T.told T.faults when.now when.last self.old.harvester result
            self.new.harvester }
    {
        let turn = self.harvester.turn(alloc, when.now, when.last);
        self.goes_on = goes_on(&turn);
        turn
    }

    /// What this turn, which was the last one, gives.
    pub(crate) fn give(&self, turn: Turn) -> Given
        ensures { Gives T.numbers T.told self.now.harvester turn result }
    {
        let slot = self.harvester.slot();
        match turn {
            Turn::Issued(parcel) => Given::Parcel(parcel),
            Turn::Passed(span, rule) => Given::Note(Note::Settle {
                slot,
                epoch: self.harvester.told().0,
                span,
                cause: Cause::Dropped(rule),
            }),
            Turn::NewLife(epoch) => Given::Note(Note::Announce { slot, epoch }),
            Turn::AtEnd => self.give_at_end(),
            Turn::More | Turn::Changed | Turn::EpochsOut | Turn::ReadFault | Turn::NoMemory => {
                Given::Nothing
            }
        }
    }

    /// Whether no further turn would find anything: the last one found the end and no event waits, or none is made.
    pub(crate) fn is_through(&self) -> bool
        ensures through { OnTrue result (IsThrough self.now.harvester) }
        ensures work { OnFalse result (¬ (IsThrough self.now.harvester)) }
    {
        self.harvester.changed() || self.harvester.idle_since().is_some()
    }

    /// A file that is to be forgotten is at its end.
    fn give_at_end(&self) -> Given
        ensures { Gives T.numbers T.told self.now.harvester Turn.AtEnd result }
    {
        if !self.harvester.forgets() {
            return Given::Nothing;
        }
        let (epoch, end) = self.harvester.told();
        if end > MAX_PLACE {
            return Given::Nothing;
        }
        Given::Note(Note::Forget {
            slot: self.harvester.slot(),
            epoch,
            end,
        })
    }
}

/// Whether a further turn in this round may find more.
fn goes_on(turn: &Turn) -> bool {
    match turn {
        Turn::Issued(_) | Turn::Passed(_, _) | Turn::More | Turn::NewLife(_) => true,
        Turn::AtEnd | Turn::Changed | Turn::EpochsOut | Turn::ReadFault | Turn::NoMemory => false,
    }
}

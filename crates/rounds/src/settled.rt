ghost use Rattle.std.specs.Prelude.{◌≡◌, ◌≢◌, ◌-◌, ◌^◌, [], min};
ghost use Rattle.std.specs.Bool.{OnFalse, OnTrue};
ghost use Rattle.std.specs.List.{AllByRecursion};
ghost use Rattle.lanes.specs.Done.{IsDone};
ghost use Rattle.rounds.specs.Books.{held_notes, owed_notes};
ghost use Rattle.rounds.specs.Crewed.{lanings};
ghost use Rattle.rounds.specs.Settled.{AreSettledIn, IsDoneIn, IsEachSettled, spans_told};

use crate::carrier::Carrier;
use crate::crew::Crew;
use keeper::Keeper;
use lanes::Lane;
use outside::{Link, Tail, Wire};

impl<T: Tail, L: Link, W: Wire<Link = L>> Crew<T, W, L> {
    /// Whether nothing is left to be settled: no note is held or owed, as many were collected as had been posted as the passes
    /// met last, and all that was collected is stored. If 2^64 - 1 notes were posted, it is not known.
    pub fn is_settled(&self, keeper: &Keeper) -> bool
        ensures settled { OnTrue result (AreSettledIn self.now keeper.now) }
        ensures work { OnFalse result (¬ (AreSettledIn self.now keeper.now)) }
    {
        if some_note_held(self.lanes.as_slice()) {
            return false;
        }
        if some_note_owed(self.carriers.as_slice()) {
            return false;
        }
        self.pace.are_collected(keeper) && keeper.is_stored_in_full()
    }

    /// Whether all is done: no lane holds anything, no further turn of a file would find anything, each span that was reported is
    /// shipped or dropped, and all of that is stored. If 2^64 - 1 spans were reported, it is not known.
    pub fn is_done(&self, keeper: &Keeper) -> bool
        ensures done { OnTrue result (IsDoneIn self.now keeper.now) }
        ensures work { OnFalse result (¬ (IsDoneIn self.now keeper.now)) }
    {
        are_done(self.lanes.as_slice())
            && self.is_each_settled(keeper)
            && keeper.is_stored_in_full()
    }

    fn is_each_settled(&self, keeper: &Keeper) -> bool
        ensures each { OnTrue result (IsEachSettled (lanings self.now.lanes.items)
            keeper.now) }
        ensures work { OnFalse result (¬ (IsEachSettled (lanings self.now.lanes.items)
            keeper.now)) }
    {
        let told = spans_told(self.lanes.as_slice());
        told < u64::MAX && told == keeper.shipped().saturating_add(keeper.dropped())
    }
}

fn some_note_held<T: Tail>(lanes: &[Lane<T>]) -> bool
    ensures some { OnTrue result (held_notes (lanings lanes.now) ≢ []) }
    ensures none { OnFalse result (held_notes (lanings lanes.now) ≡ []) }
{
    match lanes.split_first() {
        Some((lane, lanes)) => lane.holds_note() || some_note_held(lanes),
        None => false,
    }
}

fn some_note_owed<L: Link, W: Wire<Link = L>>(carriers: &[Carrier<W, L>]) -> bool
    ensures some { OnTrue result (owed_notes carriers.now ≢ []) }
    ensures none { OnFalse result (owed_notes carriers.now ≡ []) }
{
    match carriers.split_first() {
        Some((carrier, carriers)) => carrier.worker.owes() || some_note_owed(carriers),
        None => false,
    }
}

fn are_done<T: Tail>(lanes: &[Lane<T>]) -> bool
    ensures done { OnTrue result (AllByRecursion IsDone (lanings lanes.now)) }
    ensures work { OnFalse result (¬ (AllByRecursion IsDone (lanings lanes.now))) }
{
    match lanes.split_first() {
        Some((lane, lanes)) => lane.is_done() && are_done(lanes),
        None => true,
    }
}

/// How many spans were reported in these lanes. The count saturates at 2^64 - 1.
fn spans_told<T: Tail>(lanes: &[Lane<T>]) -> u64
    ensures { result ≡ min (spans_told (lanings lanes.now)) (2 ^ 64 - 1) }
{
    match lanes.split_first() {
        Some((lane, lanes)) => lane.spans().saturating_add(spans_told(lanes)),
        None => 0,
    }
}

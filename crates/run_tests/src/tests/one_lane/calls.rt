//! Calls between rounds, each of which reaches one harvester of a lane, by its slot or by its seat.
use crate::tests::harvesters::rules::text;
use crate::tests::harvesters::tail::{Look, ScriptTail};
use crate::tests::one_lane::files::open;
use crate::tests::one_lane::rig::Rig;
use harvester::{Harvester, Turn};
use lanes::{Lane, SeatLook};
use std::alloc::Global;
use std::test::Fail;
use wire_base::{Epoch, Moment, Slot};

type StillLane = Lane<ScriptTail<'static>>;

/// The moment of each turn.
const NOW: Moment = Moment(1_000);

/// A lane of these files, whose slots are their places.
fn lane_of(alloc: Global, files: &[&'static [Look<'static>]]) -> Result<StillLane, Fail> {
    let (_rig, put, post) = Rig::new(alloc, 1, 1)?;
    let mut lane = Lane::new(alloc, put, post);
    let mut slot = 0_u32;
    for script in files {
        let Ok(harvester) = open(alloc, slot, ScriptTail::new(script), false) else {
            return Err(Fail::new("no memory for a harvester"));
        };
        if lane.admit(harvester).is_err() {
            return Err(Fail::new("no memory for a seat"));
        }
        slot = slot.wrapping_add(1);
    }
    Ok(lane)
}

/// A slot, the place up to which its file was reported and read, and since when it is idle.
type Seat = (u32, u64, Option<Moment>);

/// The look at a seat finds this.
fn is_look(look: &SeatLook, seat: &Seat) -> bool {
    *look
        == SeatLook {
            slot: Slot(seat.0),
            epoch: Epoch(0),
            told_to: seat.1,
            read_to: seat.1,
            changed: false,
            idle_since: seat.2,
        }
}

/// Looks at all seats of the lane find these.
fn shows(lane: &StillLane, seats: &[Seat]) -> bool {
    for place in 0..lane.len() {
        match seats.get(place) {
            Some(seat) if is_look(&lane.look(place), seat) => {}
            _ => return false,
        }
    }
    lane.len() == seats.len()
}

/// A turn of it; `None` if its file has changed.
fn turned(alloc: Global, harvester: &mut Harvester<ScriptTail<'static>>) -> Option<Turn> {
    if harvester.changed() {
        return None;
    }
    Some(harvester.turn(alloc, NOW, false))
}

/// Two turns report one event, whose payload ends so, and the file's end.
fn tells(
    alloc: Global,
    harvester: &mut Harvester<ScriptTail<'static>>,
    payload_end: &[u8],
) -> bool {
    let issued = match turned(alloc, harvester) {
        Some(Turn::Issued(parcel)) => parcel.payload.bytes().ends_with(payload_end),
        _ => false,
    };
    issued && turned(alloc, harvester) == Some(Turn::AtEnd)
}

/// The harvester of the slot is to be forgotten or not, and tells an event whose payload ends so.
fn is_told(alloc: Global, lane: &mut StillLane, told: (u32, bool, &[u8])) -> bool {
    match lane.find(Slot(told.0)) {
        Some(harvester) => { harvester.forgets() == told.1 && tells(alloc, harvester, told.2) }
        None => false,
    }
}

/// Lets the harvester of this seat go; its slot.
fn release_at(lane: &mut StillLane, seat: usize) -> Option<Slot> {
    if seat < lane.len() {
        Some(lane.release_at(seat).slot())
    } else {
        None
    }
}

/// Lets the harvester of this slot go; its slot.
fn release(lane: &mut StillLane, slot: Slot) -> Option<Slot> {
    Some(lane.release(slot)?.slot())
}

/// A call, and what it answers.
#[derive(Clone, Copy)]
enum Step {
    Shows(&'static [Seat]),
    /// The file's path is `/b` from now on.
    Rename(u32, bool),
    /// It is to be forgotten at its end.
    Ending(u32, bool),
    Stir(u32, bool),
    Tells(u32, bool, &'static [u8]),
    Release(u32, Option<Slot>),
    ReleaseAt(usize, Option<Slot>),
}

/// Makes the call, and compares its answer.
fn is_answered(alloc: Global, lane: &mut StillLane, step: Step) -> Result<bool, Fail> {
    Ok(match step {
        Step::Shows(seats) => shows(lane, seats),
        Step::Rename(slot, there) => lane.rename(Slot(slot), text(alloc, "/b")?) == there,
        Step::Ending(slot, there) => lane.ending(Slot(slot), true) == there,
        Step::Stir(slot, there) => lane.stir(Slot(slot)) == there,
        Step::Tells(slot, forgets, end) => is_told(alloc, lane, (slot, forgets, end)),
        Step::Release(slot, gone) => release(lane, Slot(slot)) == gone,
        Step::ReleaseAt(seat, gone) => release_at(lane, seat) == gone,
    })
}

/// The second of two files is renamed, ends, and is heard of.
const CHANGES: &[Step] = &[
    Step::Shows(&[(0, 0, None), (1, 0, None)]),
    Step::Rename(1, true),
    Step::Ending(1, true),
    Step::Rename(2, false),
    Step::Ending(2, false),
    Step::Tells(0, false, br#"{"path":"/a"},"offset":0},"message":"a"}"#),
    Step::Tells(1, true, br#"{"path":"/b"},"offset":0},"message":"bb"}"#),
    Step::Shows(&[(0, 2, Some(NOW)), (1, 3, Some(NOW))]),
    Step::Stir(1, true),
    Step::Stir(2, false),
    Step::Shows(&[(0, 2, Some(NOW)), (1, 3, None)]),
];

/// The last harvester takes the seat of the one that was released, and is found there.
const RELEASES: &[Step] = &[
    Step::Release(4, None),
    Step::Release(0, Some(Slot(0))),
    Step::Shows(&[(3, 0, None), (1, 0, None), (2, 0, None)]),
    Step::ReleaseAt(1, Some(Slot(1))),
    Step::Shows(&[(3, 0, None), (2, 0, None)]),
    Step::Release(3, Some(Slot(3))),
    Step::Shows(&[(2, 0, None)]),
];

const A: &[Look] = &[Look::Holds(b"a\n")];

const B: &[Look] = &[Look::Holds(b"bb\n")];

/// The files of a lane, and what is done with it.
const CASES: &[(&[&[Look]], &[Step])] = &[(&[A, B], CHANGES), (&[A, A, A, A], RELEASES)];

#[test]
fn each_call_reaches_one_file(rt: HostRuntime) -> Result<(), Fail> {
    for (files, steps) in CASES {
        let mut lane = lane_of(rt.alloc(), files)?;
        for (place, step) in steps.iter().enumerate() {
            assert!(rt; is_answered(rt.alloc(), &mut lane, *step)?, "step {place}");
        }
    }
    Ok(())
}

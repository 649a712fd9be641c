ghost use Rattle.std.specs.Prelude.{◌≡◌, ◌<◌, IfOk};
ghost use Rattle.lanes.specs.Laning.{laning};
ghost use Rattle.run_tests.specs.Ready.{IsReady};

use crate::tests::harvesters::tail::{Look, ScriptTail};
use crate::tests::one_lane::files::{File, open};
use crate::tests::one_lane::rig::Rig;
use lanes::{Lane, Tally};
use outside::Tail;
use std::alloc::Global;
use std::sync::Wait;
use std::test::Fail;
use wire_base::NoMemory;

fn write_tally(alloc: Global, tally: Tally, written: &mut Vec<u8>) -> Result<(), NoMemory> {
    let moved = if tally.moved { "moved" } else { "still" };
    let text = format!(in alloc; "[{moved} {}]", tally.tail_faults)?;
    written.extend_from_slice(text.as_bytes())?;
    Ok(())
}

/// Opens these files, whose slots are their places, and takes their harvesters in; whether all are in the lane.
fn admit_all<T: Tail + Drop>(
    alloc: Global,
    rig: &Rig,
    files: Vec<(T, bool)>,
    lane: &mut Lane<T>,
) -> bool
    requires { IsReady T.numbers T.told rig.now.queue.id rig.now.desk.id (laning lane.old) }
    ensures { IsReady T.numbers T.told rig.now.queue.id rig.now.desk.id (laning lane.new) }
{
    let mut slot = 0_u32;
    'files: for (tail, forgets) in files {
        if !admit(alloc, rig, slot, tail, forgets, lane) {
            return false;
        }
        slot = slot.wrapping_add(1);
    }
    true
}

fn admit<T: Tail + Drop>(
    alloc: Global,
    rig: &Rig,
    slot: u32,
    tail: T,
    forgets: bool,
    lane: &mut Lane<T>,
) -> bool
    requires { IsReady T.numbers T.told rig.now.queue.id rig.now.desk.id (laning lane.old) }
    ensures { IsReady T.numbers T.told rig.now.queue.id rig.now.desk.id (laning lane.new) }
{
    match open(alloc, slot, tail, forgets) {
        Ok(harvester) => match lane.admit(harvester) {
            Ok(()) => true,
            Err(_) => false,
        },
        Err(_) => false,
    }
}

/// What so many rounds come to: what was put and posted in each, whether it moved, and how many reads failed.
fn rounds<T: Tail, R: Wait>(
    rt: &R,
    alloc: Global,
    rig: &mut Rig,
    lane: &mut Lane<T>,
    count: u32,
) -> Result<Vec<u8>, NoMemory>
    requires { IsReady T.numbers T.told rig.old.queue.id rig.old.desk.id (laning lane.old) }
{
    let mut written = Vec::new(alloc);
    'rounds: for _i in 0..count {
        rig.run(rt, alloc, lane);
        rig.drain_queue(rt, alloc, &mut written)?;
        rig.drain_box(rt, alloc, &mut written)?;
        write_tally(alloc, lane.tally(), &mut written)?;
    }
    Ok(written)
}

fn run_all<T: Tail + Drop, R: Wait>(
    rt: &R,
    alloc: Global,
    files: Vec<(T, bool)>,
    places: u32,
    count: u32,
) -> Result<Vec<u8>, Fail>
    requires { 0 < places }
{
    let (mut rig, put, post) = Rig::new(alloc, places, places)?;
    let mut lane = Lane::new(alloc, put, post);
    if !admit_all(alloc, &rig, files, &mut lane) {
        return Err(Fail::new("no memory for a harvester"));
    }
    Ok(rounds(rt, alloc, &mut rig, &mut lane, count)?)
}

/// What so many rounds of one lane come to, with so many places in the queue and in the box.
fn told<R: Wait>(
    rt: &R,
    alloc: Global,
    files: &[File],
    places: u32,
    count: u32,
) -> Result<Vec<u8>, Fail>
    requires { 0 < places }
{
    let mut tails = Vec::new(alloc);
    for (script, forgets) in files {
        tails.push((ScriptTail::new(script), *forgets))?;
    }
    run_all(rt, alloc, tails, places, count)
}

/// Files, the places of the queue and of the box, the rounds, and what these come to.
type Case = (&'static [File], u32, u32, &'static [u8]);

const CASES: &[Case] = &[
    // Each file once, and then those that go on.
    (
        &[
            (&[Look::Holds(b"a\nb\n")], false),
            (&[Look::Holds(b"c\n\n")], false),
        ],
        8,
        2,
        b"0:0-2;1:0-2;0:2-4;1:2-3 rule 0;[moved 0][still 0]",
    ),
    // Where one place is free, a round ends at the next event, which is held, and the file behind comes first then.
    (
        &[
            (&[Look::Holds(b"a\nb\n")], false),
            (&[Look::Holds(b"c\n")], false),
        ],
        1,
        5,
        b"0:0-2;[moved 0]1:0-2;[moved 0]0:2-4;[moved 0][still 0][still 0]",
    ),
    // A read that fails is counted, and a file that is to be forgotten is told so at its end.
    (
        &[(&[Look::Fails], false), (&[Look::Holds(b"b\n")], true)],
        8,
        2,
        b"1:0-2;1:forget 2;[moved 1]1:forget 2;[still 1]",
    ),
];

#[test]
fn rounds_of_a_lane(rt: HostRuntime) -> Result<(), Fail> {
    for (number, (files, places, rounds, expected)) in CASES.iter().enumerate() {
        assert!(rt; 0 < *places);
        let written = told(&rt, rt.alloc(), files, *places, *rounds)?;
        assert!(rt; written.as_slice() == *expected, "case {number}");
    }
    Ok(())
}

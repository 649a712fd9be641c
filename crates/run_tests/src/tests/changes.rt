//! What a run does with its files between two rounds: something was heard of a file, it was removed, or it has another path.
ghost use Rattle.std.specs.Prelude.{◌≡◌, false};

use crate::tests::harvesters::rules::{Group, KEY, LIMIT, begin, input, text};
use crate::tests::harvesters::tail::{Look, ScriptTail};
use crate::tests::one_lane::rig::Rig;
use event_tree::IdentityRule;
use harvester::{Harvester, Turn};
use keeper::{Keeper, KeeperTurn, few_keys_by_length};
use lanes::Lane;
use outside_mem::MemDisk;
use run_steps::{
    NewName, RemovedFile, end_file, forget_closed, open_registry, rename_file, stir_file,
};
use settle_box::SettleBox;
use std::alloc::Global;
use std::sync::Wait;
use std::test::Fail;
use wire_base::{Epoch, MAX_PLACE, Moment, Note, Slot};

type StillLane = Lane<ScriptTail<'static>>;

/// The moment of each turn.
const NOW: Moment = Moment(1_000);

const A: &[Look] = &[Look::Holds(b"a\n")];

/// Its last line waits for another one.
const B: &[Look] = &[Look::Holds(b"b\nc\nd\n")];

/// A file whose events are so many lines.
fn opened(
    alloc: Global,
    slot: u32,
    group: Group,
    script: &'static [Look<'static>],
) -> Result<Harvester<ScriptTail<'static>>, Fail> {
    let rule = input(alloc, IdentityRule::Path, group, LIMIT)?;
    let begin = begin(alloc, slot, KEY, 0)?;
    let tail = ScriptTail::new(script);
    match Harvester::open(alloc, &rule, &[], begin, tail, Moment(0)) {
        Ok(harvester) => Ok(harvester),
        Err(_) => Err(Fail::new("no memory for a harvester")),
    }
}

/// A lane that has this file.
fn lane_of(alloc: Global, harvester: Harvester<ScriptTail<'static>>) -> Result<StillLane, Fail> {
    let (_rig, put, post) = Rig::new(alloc, 1, 1)?;
    let mut lane = Lane::new(alloc, put, post);
    if lane.admit(harvester).is_err() {
        return Err(Fail::new("no memory for a seat"));
    }
    Ok(lane)
}

/// Two lanes, of the slots 0 and 1.
fn lanes_of(alloc: Global) -> Result<Vec<StillLane>, Fail> {
    let mut lanes = Vec::new(alloc);
    lanes.push(lane_of(alloc, opened(alloc, 0, Group::Single, A)?)?)?;
    lanes.push(lane_of(alloc, opened(alloc, 1, Group::Two, B)?)?)?;
    Ok(lanes)
}

/// A keeper, and what it stores by.
#[derive(Drop)]
struct Noting {
    keeper: Keeper,
    desk: SettleBox,
    a: MemDisk,
    b: MemDisk,
    ghost of_this_box: { keeper.pass.desk ≡ desk.id },
    ghost is_open: { keeper.store.closed ≡ false },
}

/// A keeper that was told how the file of this slot begins.
fn noting_of(alloc: Global, slot: u32) -> Result<Noting, Fail> {
    let mut a = MemDisk::new(alloc, b"")?;
    let mut b = MemDisk::new(alloc, b"")?;
    let Ok(store) = open_registry(alloc, &mut a, &mut b) else {
        return Err(Fail::new("the registry does not open"));
    };
    if store.rows().len() > 0 {
        return Err(Fail::new("the registry has a row"));
    }
    let (desk, _post, collect) = SettleBox::new(alloc, 1)?;
    let Ok(mut keeper) = Keeper::new(alloc, store, collect) else {
        return Err(Fail::new("no memory for a keeper"));
    };
    few_keys_by_length();
    let begin = Note::Begin {
        slot: Slot(slot),
        key: text(alloc, KEY)?,
        path: text(alloc, "/a")?,
        epoch: Epoch(0),
        base: 0,
        changed: Moment(0),
    };
    if keeper.tell(alloc, begin).is_err() {
        return Err(Fail::new("no memory for a note"));
    }
    Ok(Noting { keeper, desk, a, b })
}

/// The path of the row that it stores, if it stores one.
fn is_stored_as<R: Wait>(rt: &R, alloc: Global, noting: Noting, path: Option<&str>) -> bool {
    let Noting {
        mut keeper,
        desk,
        mut a,
        mut b,
    } = noting;
    match keeper.turn(rt, alloc, &desk, &mut a, &mut b) {
        KeeperTurn::Kept(_) => {
            let rows = keeper.rows();
            match path {
                Some(path) => rows.len() == 1 && rows.at(0).path.as_str() == path,
                None => rows.len() == 0,
            }
        }
        _ => false,
    }
}

/// A turn of it; `None` where its file has changed.
fn turned(alloc: Global, harvester: &mut Harvester<ScriptTail<'static>>) -> Option<Turn> {
    if harvester.changed() {
        return None;
    }
    Some(harvester.turn(alloc, NOW, false))
}

/// The next turn of the file of this slot tells an event whose payload ends so, or finds its end.
fn is_turned(alloc: Global, lane: &mut StillLane, slot: u32, payload_end: Option<&[u8]>) -> bool {
    let Some(harvester) = lane.find(Slot(slot)) else {
        return false;
    };
    match (turned(alloc, harvester), payload_end) {
        (Some(Turn::Issued(parcel)), Some(end)) => parcel.payload.bytes().ends_with(end),
        (Some(Turn::AtEnd), None) => !harvester.forgets(),
        _ => false,
    }
}

/// Whether it is at rest.
fn rests(lane: &mut StillLane, slot: u32) -> bool {
    match lane.find(Slot(slot)) {
        Some(harvester) => harvester.idle_since().is_some(),
        None => false,
    }
}

/// A call, and what it answers.
#[derive(Clone, Copy)]
enum Step {
    Stir(u32, bool),
    End(u32, bool),
    /// Its path is `/b`, by the scan of this number.
    Rename(u32, u64, bool),
    /// It is forgotten with this place of epoch 0.
    Forget(u32, u64, bool),
    Turn(u32, Option<&'static [u8]>),
    Rests(u32, bool),
}

/// Makes the call, and compares its answer.
fn is_answered(
    alloc: Global,
    lanes: &mut [StillLane],
    noting: &mut Noting,
    step: Step,
) -> Result<bool, Fail> {
    if lanes.is_empty() {
        return Err(Fail::new("there is no lane"));
    }
    Ok(match step {
        Step::Stir(slot, there) => stir_file(Slot(slot), lanes) == there,
        Step::End(slot, there) => end_file(Slot(slot), lanes) == there,
        Step::Rename(slot, scan, told) => {
            let name = NewName {
                slot: Slot(slot),
                scan,
                path: text(alloc, "/b")?,
            };
            rename_file(alloc, name, lanes, &mut noting.keeper)? == told
        }
        Step::Forget(slot, end, told) if end <= MAX_PLACE => {
            let file = RemovedFile {
                slot: Slot(slot),
                epoch: Epoch(0),
                end,
            };
            forget_closed(alloc, file, &mut noting.keeper)? == told
        }
        Step::Forget(..) => false,
        Step::Turn(slot, end) => {
            let lane = slot as usize % lanes.len();
            is_turned(alloc, &mut lanes[lane], slot, end)
        }
        Step::Rests(slot, wanted) => {
            let lane = slot as usize % lanes.len();
            rests(&mut lanes[lane], slot) == wanted
        }
    })
}

/// The first file is at rest until something is heard of it.
const STIRRED: &[Step] = &[
    Step::Turn(0, Some(br#""message":"a"}"#)),
    Step::Turn(0, None),
    Step::Rests(0, true),
    Step::Stir(2, false),
    Step::Rests(0, true),
    Step::Stir(0, true),
    Step::Rests(0, false),
];

/// The last line of the second file waits until the file is asked to end.
const ENDED: &[Step] = &[
    Step::Turn(1, Some(br#""message":"b\nc"}"#)),
    Step::Turn(1, None),
    Step::End(3, false),
    Step::Turn(1, None),
    Step::End(1, true),
    Step::Turn(1, Some(br#""message":"d"}"#)),
    Step::Turn(1, None),
    Step::Rests(1, true),
    Step::Turn(0, Some(br#""message":"a"}"#)),
    Step::Turn(0, None),
];

/// The file of the begun slot has another path, and tells it; the file of a slot that was not begun has not.
const RENAMED: &[Step] = &[
    Step::Rename(0, 1, true),
    Step::Rename(1, 1, false),
    Step::Turn(0, Some(br#"{"path":"/b"},"offset":0},"message":"a"}"#)),
    Step::Turn(1, Some(br#"{"path":"/a"},"offset":0},"message":"b\nc"}"#)),
];

/// No lane has a harvester of the begun slot.
const CLOSED: &[Step] = &[Step::Rename(2, 1, true), Step::Rename(0, 1, false)];

/// All that was told of the begun slot is settled, so its row goes; a slot that was not begun is not forgotten.
const FORGOTTEN: &[Step] = &[Step::Forget(0, 0, false), Step::Forget(2, 0, true)];

/// What was told of the begun slot is not settled yet, so its row stays.
const UNSETTLED: &[Step] = &[Step::Forget(2, 4, true)];

/// The slot of which the keeper was told, what is done, and the path of its row then, if it has one.
const CASES: &[(u32, &[Step], Option<&str>)] = &[
    (0, STIRRED, Some("/a")),
    (0, ENDED, Some("/a")),
    (0, RENAMED, Some("/b")),
    (2, CLOSED, Some("/b")),
    (2, FORGOTTEN, None),
    (2, UNSETTLED, Some("/a")),
];

#[test]
fn files_change_between_rounds(rt: HostRuntime) -> Result<(), Fail> {
    for (begun, steps, path) in CASES {
        let mut lanes = lanes_of(rt.alloc())?;
        let mut noting = noting_of(rt.alloc(), *begun)?;
        for (place, step) in steps.iter().enumerate() {
            let answered = is_answered(rt.alloc(), lanes.as_mut_slice(), &mut noting, *step)?;
            assert!(rt; answered, "step {place}");
        }
        assert!(rt; is_stored_as(&rt, rt.alloc(), noting, *path));
    }
    Ok(())
}

//! Files that are opened again, and where they go on.
ghost use Rattle.std.specs.Prelude.{IfOk};
ghost use Rattle.beat_config.specs.InRange.{AreInRange};
ghost use Rattle.prospect.specs.ListedFiles.{IsListedInRange};

use crate::tests::harvesters::rules::text;
use crate::tests::scans::settings;
use event_tree::Settings;
use keeper::Keeper;
use lanes::{Lane, Outlets};
use mem_queue::EventQueue;
use outside_mem::{
    Due, MemChange, MemDisk, MemFile, MemFolder, MemLink, MemStep, MemTail, MemWire,
};
use prospect::Listed;
use registry_store::Store;
use report::Why;
use restart_join::Start;
use rounds::{Crew, lanes_of};
use run_steps::{
    Admission, Context, Opening, Reopening, close_resting, goes_on, open_again, scan_again,
};
use settle_box::{CollectPass, SettleBox};
use std::alloc::Global;
use std::test::Fail;
use wire_base::{Blob, Epoch, MAX_KEY, MAX_PATH, MAX_PLACE, Moment, Slot};

/// The epoch and the place up to which a file was told, the size with which it is listed, and where it goes on.
type Row = (u32, u64, u64, &'static str);

/// The epoch and the place.
fn written(alloc: Global, start: Option<Start>) -> Result<String, Fail> {
    match start {
        Some(start) => Ok(format!(in alloc; "{} from {}", start.epoch, start.base)?),
        None => Ok(String::from_str(alloc, "no epoch is left")?),
    }
}

#[test]
fn files_go_on_where_they_were_told(rt: HostRuntime) -> Result<(), Fail> {
    let rows: [Row; 6] = [
        (2, 7, 9, "2 from 7"),
        (2, 7, 7, "2 from 7"),
        (2, 7, 6, "3 from 0"),
        (2, 0, 0, "2 from 0"),
        (u32::MAX, 7, 7, "4294967295 from 7"),
        (u32::MAX, 7, 6, "no epoch is left"),
    ];
    for (epoch, base, size, wanted) in rows {
        let start = goes_on(Start { epoch, base }, size);
        assert_eq!(rt; written(rt.alloc(), start)?.as_str(), wanted);
    }
    Ok(())
}

/// After how many listings the file is gone, if it goes, and which calls of the folder fail.
type Case = (Option<u64>, &'static [u64], &'static str);

/// A file of 9 bytes.
fn folder(alloc: Global, case: &Case) -> Result<MemFolder, Fail> {
    let mut steps = Vec::new(alloc);
    steps.push(MemStep {
        due: Due::Listings(0),
        change: MemChange::Append(Blob::from_bytes(alloc, b"one\ntwo\n\n")?),
    })?;
    if let Some(listings) = case.0 {
        steps.push(MemStep {
            due: Due::Listings(listings),
            change: MemChange::Remove,
        })?;
    }
    let mut files = Vec::new(alloc);
    files.push(MemFile {
        path: text(alloc, "/w/a")?,
        native: None,
        steps,
    })?;
    let mut folder = MemFolder::new(alloc, files)?;
    folder.fail_at(case.1)?;
    Ok(folder)
}

/// The file, if what was listed of it is in range.
fn in_range(listed: Listed) -> Result<Listed, Fail>
    ensures { IfOk result IsListedInRange }
{
    let keyed = match &listed.key {
        Some(key) => key.bytes().len() <= MAX_KEY,
        None => false,
    };
    if keyed && listed.path.bytes().len() <= MAX_PATH && listed.size <= MAX_PLACE {
        Ok(listed)
    } else {
        Err(Fail::new("what was listed is out of range"))
    }
}

fn came(admission: Admission) -> &'static str {
    match admission {
        Admission::Followed => "followed",
        Admission::Skipped(Why::Gone) => "gone",
        Admission::Skipped(_) => "skipped",
        Admission::Failed => "failed",
    }
}

/// The file, as a scan at this moment lists it.
fn scanned(
    alloc: Global,
    settings: &Settings,
    now: Moment,
    folder: &mut MemFolder,
) -> Result<Listed, Fail>
    requires { AreInRange settings.now }
    ensures { IfOk result IsListedInRange }
{
    let mut scan = scan_again(alloc, settings, now, folder)?;
    match scan.listed.pop() {
        Some(listed) => in_range(listed),
        None => Err(Fail::new("no file was listed")),
    }
}

/// A keeper over a registry without rows.
fn keeper(alloc: Global, collect: CollectPass) -> Result<Keeper, Fail> {
    let (mut a, mut b) = (MemDisk::new(alloc, &[])?, MemDisk::new(alloc, &[])?);
    let Ok(store) = Store::open(alloc, &mut a, &mut b) else {
        return Err(Fail::new("the registry was not opened"));
    };
    match Keeper::new(alloc, store, collect) {
        Ok(keeper) => Ok(keeper),
        Err(_) => Err(Fail::new("out of memory")),
    }
}

/// What a closing of the lane's first file comes to: it is closed only if it is at rest.
fn closing(folder: &mut MemFolder, lane: &mut Lane<MemTail>) -> &'static str {
    if lane.len() > 0 && close_resting(folder, lane, 0) {
        "closed"
    } else {
        "kept"
    }
}

/// A closing before the file is turned, and one after its end was found.
fn closings(
    alloc: Global,
    folder: &mut MemFolder,
    lane: &mut Lane<MemTail>,
) -> (&'static str, &'static str) {
    let before = closing(folder, lane);
    for _ in 0..5 {
        if let Some(harvester) = lane.find(Slot(0)) {
            if !harvester.changed() {
                let _ = harvester.turn(alloc, Moment(1_000), false);
            }
        }
    }
    (before, closing(folder, lane))
}

/// Opens the file again that was told up to byte 4 of epoch 2, in a crew of one lane: what comes of it, how many files the lane has
/// then, and whether its first file is closed before it is turned, and after.
fn open_in_a_lane(
    alloc: Global,
    settings: &Settings,
    listed: &Listed,
    folder: &mut MemFolder,
) -> Result<String, Fail>
    requires settings { AreInRange settings.now }
    requires listed { IsListedInRange listed.now }
{
    let (queue, put, _take) = EventQueue::new(alloc, 4)?;
    let (desk, post, collect) = SettleBox::new(alloc, 4)?;
    let outlets = Outlets {
        queue: &queue,
        desk: &desk,
    };
    let mut keeper = keeper(alloc, collect)?;
    let Some(start) = goes_on(Start { epoch: 2, base: 4 }, listed.size) else {
        return Err(Fail::new("no epoch is left"));
    };
    if settings.inputs.as_slice().len() <= listed.input as usize || listed.size < start.base {
        return Err(Fail::new("what was listed is out of range"));
    }
    let reopening = Reopening {
        opening: Opening {
            slot: Slot(0),
            listed,
            start,
            now: Moment(1_000),
        },
        last: Epoch(2),
    };
    let context = Context {
        alloc,
        settings,
        outlets,
        once: false,
    };
    let lanes = lanes_of(alloc, outlets, put, post, 1)?;
    let mut crew: Crew<MemTail, MemWire, MemLink> = Crew::new(lanes, Vec::new(alloc), 4);
    let result = open_again(context, reopening, folder, &mut crew, &mut keeper);
    let (mut lanes, carriers) = crew.end();
    carriers.destroy_empty();
    let Ok(admission) = result else {
        return Err(Fail::new("the file ended the run"));
    };
    let Some((lane, _)) = lanes.as_mut_slice().split_first_mut() else {
        return Err(Fail::new("there is no lane"));
    };
    let files = lane.len();
    let (before, after) = closings(alloc, folder, lane);
    Ok(format!(in alloc; "{} {} {} {}", came(admission), files, before, after)?)
}

fn opened(alloc: Global, case: &Case) -> Result<String, Fail> {
    let settings = settings(alloc)?;
    let mut folder = folder(alloc, case)?;
    let listed = scanned(alloc, &settings, Moment(1_000), &mut folder)?;
    open_in_a_lane(alloc, &settings, &listed, &mut folder)
}

#[test]
fn files_are_opened_again(rt: HostRuntime) -> Result<(), Fail> {
    let rows: [Case; 3] = [
        (None, &[], "followed 1 kept closed"),
        (Some(2), &[], "gone 0 kept kept"),
        (None, &[2], "failed 0 kept kept"),
    ];
    for case in &rows {
        assert_eq!(rt; opened(rt.alloc(), case)?.as_str(), case.2);
    }
    Ok(())
}

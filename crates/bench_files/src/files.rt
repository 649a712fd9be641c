//! Known files of which all grow from one scan to the next, and files that all come and go.
use file_table::{At, FileTable, Stand};
use prospector_core::{Change, ProspectError, Prospector, Seen};
use std::alloc::Global;
use wire_base::{Epoch, NoMemory, Slot, Text};

/// Files as a scan shows them, each of one byte. Keys and paths are of an ordinary length.
fn shown(alloc: Global, count: u64) -> Result<Vec<Seen>, NoMemory> {
    let mut seen = Vec::new(alloc);
    for number in 0..count {
        let key = format!(in alloc; "filestream::nginx::native::{number:08}-64513")?;
        let path = format!(in alloc; "/var/log/app-{number:08}.log")?;
        seen.push(Seen {
            input: 0,
            key: Text::from_string(key),
            path: Text::from_string(path),
            size: 1,
        })?;
    }
    Ok(seen)
}

fn open(table: &mut FileTable, slot: Slot) {
    let at = At {
        epoch: Epoch(0),
        place: 0,
    };
    match table.find(slot) {
        Some(entry) if entry.stand == Stand::Waits => table.opened(slot, at),
        _ => {}
    }
}

/// How many changes these scans reported of these files, each of which grew before each scan.
pub(crate) fn grown(alloc: Global, files: u64, scans: u64) -> Result<u64, ProspectError> {
    let mut seen = shown(alloc, files)?;
    let mut prospector = Prospector::begin(alloc, &[], 0)?;
    let mut table = FileTable::new(alloc);
    for change in &prospector.compare(alloc, &seen, true, &[false])? {
        table.take(change, 0, false)?;
    }
    for slot in 0..u32::try_from(files).unwrap_or(u32::MAX) {
        open(&mut table, Slot(slot));
    }
    let mut told = 0_u64;
    for scan in 0..scans {
        for member in seen.iter_mut() {
            member.size = member.size.wrapping_add(1);
        }
        let changes = prospector.compare(alloc, &seen, true, &[false])?;
        for change in &changes {
            table.take(change, scan, false)?;
        }
        told = told.saturating_add(changes.len() as u64);
    }
    Ok(told)
}

/// Takes a file out that a scan did not show. Whether it was known.
fn forget(
    prospector: &mut Prospector,
    table: &mut FileTable,
    change: &Change,
    scan: u64,
) -> Result<bool, NoMemory> {
    table.take(change, scan, false)?;
    let Change::Removed { slot } = change else {
        return Ok(false);
    };
    let known = prospector.file_of(*slot).is_some();
    prospector.gone(*slot);
    Ok(known && table.gone(*slot, false))
}

/// How many files went, of so many that so often all come with one scan and go with the next.
pub(crate) fn gone(alloc: Global, files: u64, turns: u64) -> Result<u64, ProspectError> {
    let seen = shown(alloc, files)?;
    let mut prospector = Prospector::begin(alloc, &[], 0)?;
    let mut table = FileTable::new(alloc);
    let mut went = 0_u64;
    for scan in 0..turns {
        for change in &prospector.compare(alloc, &seen, true, &[false])? {
            table.take(change, scan, false)?;
        }
        for change in &prospector.compare(alloc, &[], true, &[false])? {
            if forget(&mut prospector, &mut table, change, scan)? {
                went = went.saturating_add(1);
            }
        }
    }
    Ok(went)
}

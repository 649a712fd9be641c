mod rows;
mod script;

use crate::{At, Deed, FileTable, Inactive, Stand, TailLook};
use prospector_core::Change;
use std::alloc::Global;
use std::test::Fail;
use wire_base::{Epoch, Moment, Slot, Text};

/// One event of the file of a slot.
#[derive(Clone, Copy, Debug)]
pub(crate) enum Step {
    Begin {
        row: bool,
    },
    Created,
    Returned,
    Renamed {
        scan: u64,
    },
    Written,
    Truncated,
    Removed {
        clean: bool,
    },
    Show {
        scan: u64,
    },
    EndScan {
        scan: u64,
        whole: bool,
    },
    /// Opened at this place, if it waits.
    Open {
        place: u64,
    },
    /// A look at its tail, at 10,000 ms and with `close_inactive` of 5,000 ms.
    Look {
        changed: bool,
        idle_since: Option<u64>,
        read_to: u64,
        listed: u64,
    },
    Gone {
        stored: bool,
    },
}

/// A place in epoch 1.
pub(crate) fn at(place: u64) -> At {
    At {
        epoch: Epoch(1),
        place,
    }
}

/// Takes one more step on the table; what that asked for.
pub(crate) fn tell(
    alloc: Global,
    table: &mut FileTable,
    slot: Slot,
    step: Step,
) -> Result<Deed, Fail> {
    match step {
        Step::Begin { row } => table.begin(slot, at(4), row)?,
        Step::Show { scan } => table.show(slot, scan),
        Step::EndScan { scan, whole } => return Ok(table.end_scan(slot, scan, whole)),
        Step::Open { place } => open(table, slot, place),
        Step::Look {
            changed,
            idle_since,
            read_to,
            listed,
        } => {
            let look = TailLook {
                told: at(read_to),
                read_to,
                listed,
                changed,
                idle_since: moment(idle_since),
            };
            return Ok(table.close(slot, &look, INACTIVE).unwrap_or(Deed::Nothing));
        }
        Step::Gone { stored } => {
            table.gone(slot, stored);
        }
        step => return change(alloc, table, slot, step),
    }
    Ok(Deed::Nothing)
}

const INACTIVE: Inactive = Inactive {
    now: Moment(10_000),
    after_ms: 5_000,
};

fn moment(ms: Option<u64>) -> Option<Moment> {
    match ms {
        Some(ms) => Some(Moment(ms)),
        None => None,
    }
}

fn open(table: &mut FileTable, slot: Slot, place: u64) {
    match table.find(slot) {
        Some(entry) if entry.stand == Stand::Waits => table.opened(slot, at(place)),
        _ => {}
    }
}

/// Takes a change of a listing into the table.
fn change(alloc: Global, table: &mut FileTable, slot: Slot, step: Step) -> Result<Deed, Fail> {
    let path = Text::from_bytes(alloc, b"/a")?;
    let (change, scan, clean) = match step {
        Step::Created => (
            Change::Created {
                slot,
                input: 0,
                key: Text::from_bytes(alloc, b"a")?,
                path,
                size: 0,
            },
            0,
            false,
        ),
        Step::Returned => (
            Change::Returned {
                slot,
                path,
                size: 0,
            },
            0,
            false,
        ),
        Step::Renamed { scan } => (
            Change::Renamed {
                slot,
                from: Text::from_bytes(alloc, b"/b")?,
                to: path,
            },
            scan,
            false,
        ),
        Step::Written => (Change::Written { slot, size: 9 }, 0, false),
        Step::Truncated => (Change::Truncated { slot, size: 1 }, 0, false),
        Step::Removed { clean } => (Change::Removed { slot }, 0, clean),
        _ => (Change::Doubled { path }, 0, false),
    };
    Ok(table.take(&change, scan, clean)?)
}

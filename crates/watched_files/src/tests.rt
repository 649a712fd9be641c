ghost use Rattle.std.specs.Prelude.{◌≡◌, IfOk};

mod rows;

use crate::{Scan, SlotDeed, WatchedFiles};
use file_table::{At, Inactive, Stand, TailLook};
use prospect::Listed;
use prospector_core::ProspectError;
use ship_core::Rows;
use std::alloc::Global;
use std::test::Fail;
use wire_base::{Begin, Epoch, Moment, Op, Row, Slot, Text};

/// The key of a file, its path and its size. One whose key begins with `c` is of the input that forgets removed files.
pub(crate) type Member = (&'static str, &'static str, u64);

/// What comes of files one after another.
#[derive(Clone, Copy, Debug)]
pub(crate) enum Step {
    /// A whole scan that lists these files.
    Scan(&'static [Member]),
    /// A scan that lists these files, and of which some listing failed.
    Partial(&'static [Member]),
    /// What waits after the last scan is opened, all of it.
    Open,
    /// The tail of this slot found another file.
    Change(u32),
    /// The tail of this slot made its end look, or is idle; it told up to 9.
    Rest(u32),
    /// The file of this slot has no row any more.
    Gone(u32),
}

/// Files, how many scans were made, and what the last of them listed and asked for.
#[derive(Drop)]
pub(crate) struct Trial {
    pub files: WatchedFiles,
    number: u64,
    listed: Vec<Listed>,
    pub deeds: Vec<SlotDeed>,
}

const CLEAN: [bool; 2] = [false, true];

fn text(alloc: Global, chars: &str) -> Result<Text, Fail>
    ensures { IfOk result (λ made. made ≡ chars.now) }
{
    Ok(Text::from_bytes(alloc, chars.as_bytes())?)
}

/// The number of the input of this key.
fn input_of(key: &str) -> u32 {
    if key.starts_with('c') { 1 } else { 0 }
}

fn listed(alloc: Global, members: &[Member]) -> Result<Vec<Listed>, Fail> {
    let mut listed = Vec::new(alloc);
    for (key, path, size) in members {
        listed.push(Listed {
            input: input_of(key),
            key: Some(text(alloc, key)?),
            path: text(alloc, path)?,
            size: *size,
            changed: Moment(0),
        })?;
    }
    Ok(listed)
}

/// A registry with one row: of this key, at 4 in epoch 1.
fn one_row(alloc: Global, key: &str) -> Result<Rows, Fail> {
    let mut rows = Rows::new(alloc);
    if 64 < key.len() {
        return Ok(rows);
    }
    let row = Row {
        key: text(alloc, key)?,
        path: text(alloc, "/row")?,
        epoch: Epoch(1),
        offset: 4,
        changed: Moment(0),
    };
    rows.apply(alloc, Op::Set(row))?;
    Ok(rows)
}

impl Trial {
    /// The run begins with the file of this key alone, at slot 0. If the key ends with `r`, a row of it is at 4 in epoch 1.
    pub(crate) fn begin(alloc: Global, key: &str, others: u32) -> Result<Trial, Fail> {
        let begin = Begin {
            slot: Slot(0),
            input: input_of(key),
            key: text(alloc, key)?,
            path: text(alloc, "/row")?,
            size: 4,
            epoch: Epoch(1),
            base: 4,
        };
        let rows = if key.ends_with('r') {
            one_row(alloc, key)?
        } else {
            Rows::new(alloc)
        };
        let others = others.min(65_535);
        Ok(Trial {
            files: WatchedFiles::begin(alloc, &rows, &[begin], others)?,
            number: 0,
            listed: Vec::new(alloc),
            deeds: Vec::new(alloc),
        })
    }

    pub(crate) fn scan(
        &mut self,
        alloc: Global,
        members: &[Member],
        whole: bool,
    ) -> Result<Option<ProspectError>, Fail> {
        let listed = listed(alloc, members)?;
        let scan = Scan {
            number: self.number,
            listed: &listed,
            whole,
            clean: &CLEAN,
        };
        match self.files.take_scan(alloc, &scan) {
            Ok(deeds) => self.deeds = deeds,
            Err(error) => return Ok(Some(error)),
        }
        self.listed = listed;
        self.number = self.number.saturating_add(1);
        Ok(None)
    }

    /// How many were opened of those that wait after the last scan.
    fn open(&mut self) -> usize {
        let mut opened = 0_usize;
        let last = self.number.saturating_sub(1);
        for one in &self.listed {
            if let Ok(Some(waiting)) = self.files.waiting(last, one) {
                open_one(&mut self.files, waiting.slot, waiting.at);
                opened = opened.saturating_add(1);
            }
        }
        opened
    }

    fn look(&mut self, slot: u32, changed: bool) {
        let look = TailLook {
            told: At {
                epoch: Epoch(1),
                place: 9,
            },
            read_to: 9,
            listed: 9,
            changed,
            idle_since: Some(Moment(0)),
        };
        let inactive = Inactive {
            now: Moment(10_000),
            after_ms: 5_000,
        };
        self.files.close(Slot(slot), &look, inactive);
    }

    pub(crate) fn take(&mut self, alloc: Global, step: Step) -> Result<(), Fail> {
        match step {
            Step::Scan(members) => {
                self.scan(alloc, members, true)?;
            }
            Step::Partial(members) => {
                self.scan(alloc, members, false)?;
            }
            Step::Open => {
                self.open();
            }
            Step::Change(slot) => self.look(slot, true),
            Step::Rest(slot) => self.look(slot, false),
            Step::Gone(slot) => {
                self.files.gone(Slot(slot), false);
            }
        }
        Ok(())
    }

    /// The state of the file of this slot.
    pub(crate) fn stand(&self, slot: u32) -> Option<Stand> {
        Some(self.files.state(Slot(slot))?.stand)
    }
}

fn open_one(files: &mut WatchedFiles, slot: Slot, at: At) {
    match files.state(slot) {
        Some(entry) if entry.stand == Stand::Waits => files.opened(slot, at),
        _ => {}
    }
}

ghost use Rattle.std.specs.Prelude.{◌≡◌, ℕ, ◌<◌, ◌≤◌, ◌-◌, ◌+◌, ◌++◌, List, length, take, IfOk};
ghost use Rattle.std.specs.Option.{option_copied};
ghost use Rattle.outside_mem.specs.Steps.{Standing, appended, appended_by, sight_at, standing_at, path_at, is_due, changed, named, seen};
ghost use Rattle.outside_mem.specs.Windows.{Shows, window};
ghost use Rattle.wire_base.specs.declared.numbers.TheConstants.{MAX_PLACE};

use crate::steps::{Due, MemChange, MemFile};
use outside::Sight;
use wire_base::{MAX_PLACE, NoMemory, Text};

/// A file in memory whose lives are within the range of places.
#[derive(Drop)]
pub(crate) struct Script {
    pub(crate) file: MemFile,
    ghost in_range: { appended file.steps.items ≤ MAX_PLACE },
}

/// What is there of a file, and how many bytes a read gave.
#[derive(Clone, Copy)]
pub(crate) struct Reading {
    pub(crate) sight: Sight,
    pub(crate) count: usize,
}

impl Due {
    pub(crate) fn is_made(self, listings: u64, calls: u64) -> bool
        ensures { result ≡ is_due listings calls self }
    {
        match self {
            Due::Listings(count) => count <= listings,
            Due::TailCalls(count) => count <= calls,
        }
    }
}

impl Script {
    /// Bytes past `MAX_PLACE` are out of memory.
    pub(crate) fn new(file: MemFile) -> Result<Script, NoMemory>
        ensures { IfOk result (λ script. script.file ≡ file) }
    {
        let mut total = 0u64;
        for step in &file.steps {
            if let MemChange::Append(blob) = &step.change {
                let more = blob.bytes().len() as u64;
                if MAX_PLACE - total < more {
                    return Err(NoMemory);
                }
                total += more;
            }
        }
        Ok(Script { file })
    }

    /// What is there after this many listings and tail calls.
    pub(crate) fn sight(&self, listings: u64, calls: u64) -> Sight
        ensures { result ≡ sight_at listings calls self.now.file.steps.items }
    {
        self.read(listings, calls, 0, &mut []).sight
    }

    /// Reads from place `at` into the front of `into`, after this many listings and tail calls.
    pub(crate) fn read(&self, listings: u64, calls: u64, at: u64, into: &mut [u8]) -> Reading
        ensures sight { result.sight ≡ sight_at listings calls self.now.file.steps.items }
        ensures count { result.count ≡ length (window (length into.old) at (standing_at listings calls self.now.file.steps.items).bytes) }
        ensures shows { Shows at (standing_at listings calls self.now.file.steps.items).bytes into.new }
    {
        let mut sight = Sight { life: 0, length: 0 };
        for step in &self.file.steps {
            if !step.due.is_made(listings, calls) {
                break;
            }
            show_change(into, at, sight.length, &step.change);
            sight = seen_after(sight, &step.change);
        }
        let count = sight.length.saturating_sub(at) as usize;
        Reading {
            sight,
            count: count.min(into.len()),
        }
    }

    /// The path by which the file is found after this many listings and tail calls.
    pub(crate) fn path(&self, listings: u64, calls: u64) -> Option<&Text>
        ensures { option_copied result ≡ path_at listings calls self.now.file.path self.now.file.steps.items }
    {
        let mut path = None;
        for (index, step) in self.file.steps.iter().enumerate() {
            if !step.due.is_made(listings, calls) {
                break;
            }
            let before = if index == 0 {
                Some(&self.file.path)
            } else {
                path
            };
            path = renamed(before, &step.change);
        }
        path
    }
}

/// The path after one change more.
fn renamed<'a>(path: Option<&'a Text>, change: &'a MemChange) -> Option<&'a Text>
    ensures { option_copied result ≡ named (option_copied path.entry) change.entry.now }
{
    let before = path?;
    match change {
        MemChange::Append(_) | MemChange::Truncate(_) => Some(before),
        MemChange::Rename(next) => Some(next),
        MemChange::Remove => None,
    }
}

/// Shows what a change makes of a life of `end` bytes, from place `at` on.
fn show_change(into: &mut [u8], at: u64, end: u64, change: &MemChange)
    ensures { (s : Standing) → length s.bytes ≡ end → Shows at s.bytes into.old → Shows at (changed s change.now).bytes into.new }
{
    match change {
        MemChange::Append(blob) => put_appended(into, at, end, blob.bytes()),
        MemChange::Truncate(_) => {}
        MemChange::Rename(_) => {}
        MemChange::Remove => {}
    }
}

/// Shows bytes that are appended to a life of `end` bytes, from place `at` on.
fn put_appended(into: &mut [u8], at: u64, end: u64, blob: &[u8])
    ensures { (bytes : List ℕ) → length bytes ≡ end → Shows at bytes into.old → Shows at (bytes ++ blob.now) into.new }
{
    let start = (at.saturating_sub(end) as usize).min(blob.len());
    put(into, end.saturating_sub(at) as usize, &blob[start..]);
}

/// Puts as many of the bytes as fit into the buffer from place `to` on.
fn put(into: &mut [u8], to: usize, bytes: &[u8])
    ensures { let part = take (length into.old - to) bytes.now in take (to + length part) into.new ≡ take to into.old ++ part }
{
    if to < into.len() {
        let count = bytes.len().min(into.len() - to);
        into[to..to + count].copy_from_slice(&bytes[..count]);
    }
}

/// What is there after one change more.
fn seen_after(sight: Sight, change: &MemChange) -> Sight
    requires lives { sight.life < MAX_PLACE }
    requires bytes { sight.length + appended_by change.now ≤ MAX_PLACE }
    ensures { (bytes : List ℕ) → length bytes ≡ sight.length → result ≡ seen (changed (record { life = sight.life; bytes = bytes }) change.now) }
{
    match change {
        MemChange::Append(blob) => Sight {
            life: sight.life,
            length: sight.length + blob.bytes().len() as u64,
        },
        MemChange::Truncate(kept) => Sight {
            life: sight.life + 1,
            length: sight.length.min(*kept),
        },
        MemChange::Rename(_) | MemChange::Remove => sight,
    }
}

ghost use Rattle.std.specs.Prelude.{◌≡◌, ◌≤◌, ◌<◌, ◌⊎◌, ◌∷◌, ◌++◌, [], IfOk, OnOk, OnErr, length, map};
ghost use Rattle.outside_mem.specs.Happenings.{event_of};
ghost use Rattle.outside_mem.specs.Scripts.{told_file};
ghost use Rattle.outside_mem.specs.Tracking.{files_of};
ghost use Rattle.outside.specs.Counts.{IsAtEnd};
ghost use Rattle.outside.specs.Folders.{ListingFailed, OpeningFailed};
ghost use Rattle.outside_mem.specs.Logs.{log_events};

use crate::failures::Failures;
use crate::log::{Happened, Log, Opening, Room};
use crate::moments::ToldMoment;
use crate::script::Script;
use crate::steps::MemFile;
use crate::tail::MemTail;
use crate::tracked::{Listing, Tracked, add_calls, find, list_files};
use outside::{Entry, Folder, FolderError};
use std::alloc::Global;
use std::sync::Arc;
use wire_base::{Moment, NoMemory, Text};

/// Which calls fail on each tail that is opened by a path.
#[derive(Drop)]
struct TailFailures {
    path: Text,
    calls: Vec<u64>,
}

/// Folders in memory whose files change step by step, all known.
#[derive(Drop)]
pub struct MemFolder {
    alloc: Global,
    files: Vec<Tracked>,
    listings: u64,
    log: Log,
    failures: Failures,
    tail_failures: Vec<TailFailures>,
    moments: Vec<ToldMoment>,
    open_tails: u64,
    ghost failures_counted: { log.failed_in_all ≤ failures.faults },
}

impl MemFolder {
    ghost use Rattle.std.specs.Prelude.{◌≢◌, ℕ, List};
    ghost use Rattle.outside.specs.Counts.{added_counts};
    ghost use Rattle.outside_mem.specs.Asked.{folder_asked};
    ghost use Rattle.outside_mem.specs.MemFolders.{NotesOnly, OpensTail, OpensOrFindsNone, folder_events, folder_files, listed_moment};

    pub fn new(alloc: Global, files: Vec<MemFile>) -> Result<MemFolder, NoMemory>
        ensures files { IfOk result (λ folder. folder_files folder ≡ map told_file files.items) }
        ensures nothing_done { IfOk result (λ folder. folder_events folder ≡ []) }
        ensures faults { IfOk result (λ folder. ⟦<MemFolder as Folder>⟧.faults folder ≡ 0) }
        ensures asked { IfOk result (λ folder. folder_asked folder ≡ 0) }
        ensures moments { IfOk result (λ folder. (path : List ℕ) →
            listed_moment folder path ≡ record { 0 = 0 }) }
    {
        Ok(MemFolder {
            alloc,
            files: track(alloc, files)?,
            listings: 0,
            log: Log::new(),
            failures: Failures::new(alloc),
            tail_failures: Vec::new(alloc),
            moments: Vec::new(alloc),
            open_tails: 0,
        })
    }

    /// Names the listings and openings that fail, counted together from 0.
    pub fn fail_at(&mut self, calls: &[u64]) -> Result<(), NoMemory>
        ensures files { folder_files self.new ≡ folder_files self.old }
        ensures events { folder_events self.new ≡ folder_events self.old }
    {
        self.failures.fail_at(calls)
    }

    /// Names the calls that fail on each tail that is opened by this path, counted from 0.
    pub fn fail_tail_at(&mut self, path: &Text, calls: &[u64]) -> Result<(), NoMemory>
        ensures files { folder_files self.new ≡ folder_files self.old }
        ensures events { folder_events self.new ≡ folder_events self.old }
    {
        let path = path.copy(self.alloc)?;
        let calls = calls.to_vec(self.alloc)?;
        self.tail_failures.push(TailFailures { path, calls })?;
        Ok(())
    }

    /// Sets the moment of change with which later listings show this path; a path for which none
    /// is set has 0.
    pub fn changed(&mut self, path: &Text, moment: Moment) -> Result<(), NoMemory>
        ensures told { OnOk result (listed_moment self.new path.now ≡ moment) }
        ensures others { (other : List ℕ) → other ≢ path.now →
            listed_moment self.new other ≡ listed_moment self.old other }
        ensures refused { OnErr result (listed_moment self.new path.now ≡ listed_moment self.old path.now) }
        ensures files { folder_files self.new ≡ folder_files self.old }
        ensures events { folder_events self.new ≡ folder_events self.old }
    {
        let path = path.copy(self.alloc)?;
        self.moments.push(ToldMoment { path, moment })?;
        Ok(())
    }

    /// How often it, or a tail that was closed, failed because it was out of memory.
    pub fn starved(&self) -> u64
        ensures { ⟦<MemFolder as Folder>⟧.faults self.now ≡ added_counts result (folder_asked self.now) }
    {
        self.failures.starved
    }

    /// The calls that fail on a tail of this path.
    fn failures_of(&self, path: &Text) -> Result<Failures, NoMemory>
        ensures { IfOk result (λ failures. failures.faults ≡ 0) }
    {
        let mut failures = Failures::new(self.alloc);
        for named in &self.tail_failures {
            if named.path.bytes() == path.bytes() {
                failures.fail_at(&named.calls)?;
            }
        }
        Ok(failures)
    }

    /// Notes one thing, if there is memory for it.
    fn note(&mut self, happened: Happened) -> Result<(), NoMemory>
        ensures ok { OnOk result (NotesOnly self.old self.new (event_of happened ∷ [])) }
        ensures err { OnErr result (NotesOnly self.old self.new []) }
    {
        let room = Room::new(self.alloc, happened)?;
        self.log.note(room);
        Ok(())
    }

    /// Notes an opening that a list lets fail.
    fn note_failed_opening(&mut self, path: &Text) -> Result<(), NoMemory>
        ensures ok { OnOk result (NotesOnly self.old self.new (OpeningFailed path.now ∷ [])) }
        ensures err { OnErr result (NotesOnly self.old self.new []) }
    {
        let path = path.copy(self.alloc)?;
        self.note(Happened::OpeningFailed { path })
    }

    /// Opens the file that is found by the path, if there is one.
    fn try_open(&mut self, path: &Text) -> Result<Option<MemTail>, NoMemory>
        ensures ok { IfOk result (OpensOrFindsNone self.old self.new path.now) }
        ensures err { OnErr result (NotesOnly self.old self.new []) }
    {
        match find(&self.files, self.listings, path) {
            Some(number) => {
                let tail = self.begin(path, number)?;
                Ok(Some(tail))
            }
            None => {
                let path = path.copy(self.alloc)?;
                self.note(Happened::NotThere { path })?;
                Ok(None)
            }
        }
    }

    /// Opens the file of this number.
    fn begin(&mut self, path: &Text, number: usize) -> Result<MemTail, NoMemory>
        requires { number < length self.old.files.items }
        ensures ok { IfOk result (OpensTail self.old self.new path.now number) }
        ensures err { OnErr result (NotesOnly self.old self.new []) }
    {
        let tracked = &self.files[number];
        let calls = tracked.calls;
        let begun = tracked.sight(self.listings);
        let script = Arc::try_clone(&tracked.script)?;
        let Some(opening) = self.log.next_place() else {
            return Err(NoMemory);
        };
        let failures = self.failures_of(path)?;
        let looks = Vec::new(self.alloc);
        let room = Room::new(self.alloc, closed(self.alloc, opening))?;
        let path = path.copy(self.alloc)?;
        let file = number as u64;
        let sight = begun;
        self.note(Happened::Opened { path, file, sight })?;
        Ok(MemTail {
            script,
            number: file,
            opening,
            listings: self.listings,
            calls,
            own_calls: 0,
            begun,
            looks,
            failures,
            room,
        })
    }
}

/// Each file with no call on it yet.
fn track(alloc: Global, files: Vec<MemFile>) -> Result<Vec<Tracked>, NoMemory>
    ensures { IfOk result (λ tracked. files_of tracked.items ≡ map told_file files.items) }
{
    let mut tracked = Vec::new(alloc);
    for file in files {
        let script = Arc::new(alloc, Script::new(file)?)?;
        tracked.push(Tracked { script, calls: 0 })?;
    }
    Ok(tracked)
}

/// A closing that is not made yet.
fn closed(alloc: Global, opening: Opening) -> Happened {
    Happened::Closed {
        opening,
        looks: Vec::new(alloc),
        faults: 0,
    }
}

/// Notes a failed listing, which takes no memory.
fn note_failure(log: &mut Log, faults: u64)
    requires { faults ≤ log.old.failed_in_all → IsAtEnd faults }
    ensures kept { (log_events log.new ≡ log_events log.old ++ ListingFailed ∷ []) ⊎ (IsAtEnd faults × (log_events log.new ≡ log_events log.old)) }
    ensures few { log.old.failed_in_all ≤ faults → log.new.failed_in_all ≤ faults }
{
    if log.failed_in_all < faults {
        log.note_failure();
    }
}

impl Folder for MemFolder {
    type Tail = MemTail;

    ghost use Rattle.std.specs.Prelude.{Some};
    ghost use Rattle.outside_mem.specs.Tracking.{present_from, states_of};
    ghost use Rattle.outside_mem.specs.MemFolders.{folder_events, folder_files};

    ghost told = { λ f. Some (record { files = folder_files f; events = folder_events f }) };

    ghost states = { λ f. states_of f.listings f.files.items };

    ghost present = { λ f. present_from f.moments.items 0 f.listings f.files.items };

    ghost open_tails = { λ f. f.open_tails };

    ghost faults = { λ f. f.failures.faults };

    fn list(&mut self, alloc: Global, root: &Text, depth: u32) -> Result<Vec<Entry>, FolderError> {
        let listings = self.listings;
        self.listings = listings.saturating_add(1);
        if self.failures.next_call_fails() {
            note_failure(&mut self.log, self.failures.faults);
            return Err(FolderError::Failed);
        }
        match list_files(alloc, &self.moments, &self.files, listings, root, depth) {
            Ok(Listing { entries, room }) => {
                self.log.note(room);
                Ok(entries)
            }
            Err(_) => {
                self.failures.starve();
                note_failure(&mut self.log, self.failures.faults);
                Err(FolderError::NoMemory)
            }
        }
    }

    fn open(&mut self, _alloc: Global, path: &Text) -> Result<Option<MemTail>, FolderError> {
        if self.failures.next_call_fails() {
            return match self.note_failed_opening(path) {
                Ok(()) => Err(FolderError::Failed),
                Err(_) => {
                    self.failures.starve();
                    Err(FolderError::NoMemory)
                }
            };
        }
        match self.try_open(path) {
            Ok(Some(tail)) => {
                self.open_tails = self.open_tails.saturating_add(1);
                Ok(Some(tail))
            }
            Ok(None) => Ok(None),
            Err(_) => {
                self.failures.starve();
                Err(FolderError::NoMemory)
            }
        }
    }

    fn close(&mut self, tail: MemTail) {
        let MemTail {
            script: _script,
            number,
            opening,
            listings: _listings,
            calls: _calls,
            own_calls,
            begun: _begun,
            looks,
            failures,
            mut room,
        } = tail;
        let faults = failures.faults;
        room.fill(Happened::Closed {
            opening,
            looks,
            faults,
        });
        self.log.note(room);
        add_calls(&mut self.files, number, own_calls);
        self.failures.include(failures.starved, failures.asked);
        self.open_tails = self.open_tails.saturating_sub(1);
    }
}

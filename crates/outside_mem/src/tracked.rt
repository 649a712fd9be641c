ghost use Rattle.std.specs.Prelude.{◌≡◌, ◌↔◌, ℕ, All, IsTrue, IfOk, OnOk, IfSome, IfNone, Some};
ghost use Rattle.outside.specs.Files.{NoneEarlier};
ghost use Rattle.outside_mem.specs.Listed.{Lists, AddsFound, FindsAt};
ghost use Rattle.outside_mem.specs.Tracking.{path_of, states_of, files_of};
ghost use Rattle.outside.specs.Folders.{IsListed};

use crate::below::is_below;
use crate::log::{Happened, Room};
use crate::moments::{ToldMoment, moment_of};
use crate::script::Script;
use outside::{Entry, Shown, Sight};
use std::alloc::Global;
use std::sync::Arc;
use wire_base::{MAX_PATH, NoMemory, Text};

/// A file of a folder in memory, with the calls on those tails of it that were closed.
#[derive(Drop)]
pub(crate) struct Tracked {
    pub(crate) script: Arc<Script>,
    pub(crate) calls: u64,
}

impl Tracked {
    ghost use Rattle.outside_mem.specs.Tracking.{state_of, path_of, shown_of};

    pub(crate) fn sight(&self, listings: u64) -> Sight
        ensures { result ≡ state_of listings self.now }
    {
        self.script.sight(listings, self.calls)
    }

    /// How a listing shows the file, if it is found.
    fn shown(
        &self,
        alloc: Global,
        moments: &[ToldMoment],
        number: u64,
        listings: u64,
    ) -> Result<Option<Shown>, NoMemory>
        ensures { IfOk result (λ found. found ≡ shown_of moments.now number listings self.now) }
    {
        let Some(path) = self.script.path(listings, self.calls) else {
            return Ok(None);
        };
        let sight = self.sight(listings);
        let entry = Entry {
            path: path.copy(alloc)?,
            size: sight.length,
            native: self.script.file.native,
            changed: moment_of(moments, path),
        };
        Ok(Some(Shown {
            entry,
            file: number,
            life: sight.life,
        }))
    }
}

fn copied(alloc: Global, entry: &Entry) -> Result<Entry, NoMemory>
    ensures { IfOk result (λ copy. copy ≡ entry.now) }
{
    Ok(Entry {
        path: entry.path.copy(alloc)?,
        size: entry.size,
        native: entry.native,
        changed: entry.changed,
    })
}

/// What a listing gives its caller, and what the folder keeps of it.
pub(crate) struct Listing {
    pub(crate) entries: Vec<Entry>,
    pub(crate) room: Room,
}

/// Lists the files below a root.
pub(crate) fn list_files(
    alloc: Global,
    moments: &[ToldMoment],
    files: &[Tracked],
    listings: u64,
    root: &Text,
    depth: u32,
) -> Result<Listing, NoMemory>
    ensures { IfOk result (Lists moments.now files.now listings root.now depth) }
{
    let mut entries = Vec::new(alloc);
    let mut shown = Vec::new(alloc);
    for (number, tracked) in files.iter().enumerate() {
        let found = tracked.shown(alloc, moments, number as u64, listings)?;
        add_found(alloc, root, depth, found, &mut entries, &mut shown)?;
    }
    let root = root.copy(alloc)?;
    let room = Room::new(alloc, Happened::Listed { root, depth, shown })?;
    Ok(Listing { entries, room })
}

/// Adds what was found of one file to a listing, if it is to be listed.
fn add_found(
    alloc: Global,
    root: &Text,
    depth: u32,
    found: Option<Shown>,
    entries: &mut Vec<Entry>,
    shown: &mut Vec<Shown>,
) -> Result<(), NoMemory>
    ensures { OnOk result (AddsFound root.now depth found entries.old.items shown.old.items entries.new.items shown.new.items) }
{
    let Some(one) = found else {
        return Ok(());
    };
    if !is_listed(root, depth, &one) {
        return Ok(());
    }
    entries.push(copied(alloc, &one.entry)?)?;
    shown.push(one)?;
    Ok(())
}

/// Whether a listing of this root with this depth shows the file.
fn is_listed(root: &Text, depth: u32, one: &Shown) -> bool
    ensures { IsTrue result ↔ IsListed root.now depth one.now }
{
    let path = one.entry.path.bytes();
    path.len() <= MAX_PATH && is_below(root.bytes(), depth, path)
}

/// The number of the first file that is found by a path.
pub(crate) fn find(files: &[Tracked], listings: u64, path: &Text) -> Option<usize>
    ensures found { IfSome result (λ number. FindsAt files.now listings path.now number) }
    ensures none { IfNone result (All (λ one. ¬ (path_of listings one ≡ Some path.now)) files.now) }
{
    for (number, tracked) in files.iter().enumerate() {
        if is_found(tracked, listings, path) {
            return Some(number);
        }
    }
    None
}

/// Whether the file is found by this path.
fn is_found(tracked: &Tracked, listings: u64, path: &Text) -> bool
    ensures { IsTrue result ↔ (path_of listings tracked.now ≡ Some path.now) }
{
    match tracked.script.path(listings, tracked.calls) {
        Some(named) => named.bytes() == path.bytes(),
        None => false,
    }
}

/// Adds the calls of a closed tail to those of its file, if there is a file of this number.
pub(crate) fn add_calls(files: &mut [Tracked], number: u64, calls: u64)
    ensures files { files_of files.new ≡ files_of files.old }
    ensures grow { (listings : ℕ) → NoneEarlier (states_of listings files.old) (states_of listings files.new) }
{
    if number < files.len() as u64 {
        let tracked = &mut files[number as usize];
        tracked.calls = tracked.calls.saturating_add(calls);
    }
}

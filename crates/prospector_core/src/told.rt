ghost use Rattle.std.specs.Prelude.{◌≡◌, ◌≤◌, ◌++◌, [], AllPairs, IfErr, IfOk, None, OnErr, OnOk, flat_map, length, if◌then◌else◌};
ghost use Rattle.std.specs.BTreeSet.{IsEmpty, contains};
ghost use Rattle.prospector_core.specs.KeyIndex.{IsIndex};
ghost use Rattle.prospector_core.specs.KnownFiles.{AreKnown, StandsBefore};
ghost use Rattle.prospector_core.specs.Limits.{IsFirstRefusal, full_at, refusals};
ghost use Rattle.prospector_core.specs.Marks.{files_of, keys_of, known_in, unseen_removal};
ghost use Rattle.prospector_core.specs.Changes.{created_file};
ghost use Rattle.prospector_core.specs.Told.{HasAdded, HasTold, IsRefusedStrange, IsToldBy, RefusesMember, TellsMember, ToldCreated, ToldStrange};
ghost use Rattle.wire_base.specs.KeyOrder.{compare};

use crate::key_index::place_of;
use crate::known_changes::tell_known;
use crate::marks::{Mark, Watched, clear_marks};
use crate::{Change, Known, MAX_FILES, MAX_SLOTS, ProspectError, Seen};
use std::alloc::Global;
use std::collections::BTreeSet;
use wire_base::{Full, NoMemory, Slot, Text};

/// What a scan shows, and how it is to be read.
#[derive(Drop)]
pub struct Scan<'a> {
    pub seen: &'a [Seen],
    /// Whether removed files of each input are to be forgotten.
    pub clean: &'a [bool],
    pub whole: bool,
}

/// What the members of a scan so far reported, and the files that they began.
#[derive(Drop)]
pub struct Told {
    pub changes: Vec<Change>,
    /// In the order of their slots.
    pub created: Vec<Watched>,
    /// The keys of these.
    pub keys: BTreeSet<Text>,
    /// The slot of the next one.
    pub next: u32,
    /// How many files count by now.
    pub files: usize,
}

impl Told {
    pub fn new(alloc: Global, next: u32, files: usize) -> Told
        ensures changes { result.changes.items ≡ [] }
        ensures created { result.created.items ≡ [] }
        ensures keys { IsEmpty result.keys }
        ensures next { result.next ≡ next }
        ensures files { result.files ≡ files }
    {
        Told {
            changes: Vec::new(alloc),
            created: Vec::new(alloc),
            keys: BTreeSet::new(alloc),
            next,
            files,
        }
    }
}

/// Reports what a scan says of the files, this many of which count, and adds those that it began.
pub fn tell_scan(
    alloc: Global,
    watched: &mut Vec<Watched>,
    order: &[usize],
    scan: &Scan<'_>,
    next: u32,
    files: usize,
) -> Result<Told, ProspectError>
    requires index { IsIndex (keys_of watched.old.items) order.now }
    requires known { AreKnown (known_in watched.old.items next files) }
    requires count { length watched.old.items ≤ files }
    ensures told { IfOk result (HasAdded scan.now (known_in watched.old.items next files) watched.new.items) }
    ensures refused { IfErr result (IsFirstRefusal (refusals (known_in watched.old.items next files) scan.now.seen.now)) }
    ensures files_kept { OnErr result (files_of watched.new.items ≡ files_of watched.old.items) }
{
    let mut told = tell_known_files(alloc, watched, order, scan, next, files)?;
    watched.append(&mut told.created)?;
    Ok(told)
}

/// Reports what a scan says of the files.
fn tell_known_files(
    alloc: Global,
    watched: &mut [Watched],
    order: &[usize],
    scan: &Scan<'_>,
    next: u32,
    files: usize,
) -> Result<Told, ProspectError>
    requires index { IsIndex (keys_of watched.old) order.now }
    requires known { AreKnown (known_in watched.old next files) }
    requires count { length watched.old ≤ files }
    ensures told { IfOk result (HasTold scan.now (known_in watched.old next files) watched.new) }
    ensures refused { IfErr result (IsFirstRefusal (refusals (known_in watched.old next files) scan.now.seen.now)) }
    ensures files_kept { files_of watched.new ≡ files_of watched.old }
{
    clear_marks(watched);
    let mut told = Told::new(alloc, next, files);
    tell_members(alloc, watched, order, scan.clean, scan.seen, &mut told)?;
    tell_removed(watched, scan.whole, &mut told.changes)?;
    Ok(told)
}

/// Reports what each member says, in their order.
fn tell_members(
    alloc: Global,
    watched: &mut [Watched],
    order: &[usize],
    clean: &[bool],
    seen: &[Seen],
    told: &mut Told,
) -> Result<(), ProspectError>
    requires index { IsIndex (keys_of watched.old) order.now }
    requires apart { AllPairs StandsBefore (files_of watched.old) }
    requires start { IsToldBy clean.now (known_in watched.old told.old.next told.old.files) [] watched.old told.old }
    ensures told { OnOk result (IsToldBy clean.now (known_in watched.old told.old.next told.old.files) seen.now watched.new told.new) }
    ensures refused { IfErr result (IsFirstRefusal (refusals (known_in watched.old told.old.next told.old.files) seen.now)) }
    ensures files_kept { files_of watched.new ≡ files_of watched.old }
{
    for member in seen {
        tell_member(alloc, watched, order, clean, member, told)?;
    }
    Ok(())
}

fn tell_member(
    alloc: Global,
    watched: &mut [Watched],
    order: &[usize],
    clean: &[bool],
    member: &Seen,
    told: &mut Told,
) -> Result<(), ProspectError>
    requires { IsIndex (keys_of watched.old) order.now }
    ensures told { OnOk result (TellsMember clean.now watched.old watched.new member.now told.old told.new) }
    ensures refused { IfErr result (RefusesMember watched.old told.old member.now) }
    ensures files_kept { files_of watched.new ≡ files_of watched.old }
{
    let Some(place) = place_of(watched, order, member.key.bytes()) else {
        return tell_strange(alloc, member, told);
    };
    let one = &mut watched[place];
    tell_known(alloc, one, clean, member, &mut told.changes)?;
    Ok(())
}

/// Reports what a member says if no file with its key is known.
fn tell_strange(alloc: Global, member: &Seen, told: &mut Told) -> Result<(), ProspectError>
    ensures told { OnOk result (ToldStrange (contains compare told.old.keys member.now.key) told.old member.now told.new) }
    ensures refused { IfErr result (IsRefusedStrange told.old member.now) }
{
    if told.keys.contains(&member.key) {
        let path = member.path.copy(alloc)?;
        told.changes.push(Change::Doubled { path })?;
        return Ok(());
    }
    if let Some(what) = full_at(told.files, told.next) {
        let path = member.path.copy(alloc)?;
        return Err(ProspectError::TooMany { what, path });
    }
    create(alloc, member, told)?;
    Ok(())
}

fn full_at(files: usize, slots: u32) -> Option<Full>
    ensures { result ≡ full_at files slots }
{
    if MAX_FILES <= files {
        Some(Full::Files)
    } else if MAX_SLOTS <= slots {
        Some(Full::Slots)
    } else {
        None
    }
}

/// Begins a file with the next slot.
fn create(alloc: Global, member: &Seen, told: &mut Told) -> Result<(), NoMemory>
    requires { full_at told.old.files told.old.next ≡ None }
    ensures { OnOk result (ToldCreated told.old member.now told.new) }
{
    let slot = Slot(told.next);
    told.changes.push(Change::Created {
        slot,
        input: member.input,
        key: member.key.copy(alloc)?,
        path: member.path.copy(alloc)?,
        size: member.size,
    })?;
    let file = created_file(alloc, told.next, member)?;
    told.created.push(Watched {
        file,
        mark: Mark::Held,
        gone: false,
    })?;
    told.keys.insert(member.key.copy(alloc)?)?;
    told.next += 1;
    told.files += 1;
    Ok(())
}

fn created_file(alloc: Global, slot: u32, member: &Seen) -> Result<Known, NoMemory>
    ensures { IfOk result (λ file. file ≡ created_file slot member.now) }
{
    Ok(Known {
        slot: Slot(slot),
        input: member.input,
        key: member.key.copy(alloc)?,
        path: member.path.copy(alloc)?,
        size: member.size,
        present: true,
    })
}

/// Reports the files that no member showed, if the scan was whole.
fn tell_removed(watched: &[Watched], whole: bool, changes: &mut Vec<Change>) -> Result<(), NoMemory>
    ensures { OnOk result (changes.new.items ≡ changes.old.items ++ (if whole then flat_map unseen_removal watched.now else [])) }
{
    if !whole {
        return Ok(());
    }
    for one in watched {
        tell_unseen(one, changes)?;
    }
    Ok(())
}

fn tell_unseen(one: &Watched, changes: &mut Vec<Change>) -> Result<(), NoMemory>
    ensures { OnOk result (changes.new.items ≡ changes.old.items ++ unseen_removal one.now) }
{
    if matches!(one.mark, Mark::Unseen) && one.file.present {
        changes.push(Change::Removed {
            slot: one.file.slot,
        })?;
    }
    Ok(())
}

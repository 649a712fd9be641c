ghost use Rattle.std.specs.Prelude.{◌≡◌, ◌≤◌, ◌<◌, ◌+◌, ◌++◌, [], ℕ, All, IfErr, IfOk, None, OnErr, OnOk, Some, drop, flat_map, length, true};
ghost use Rattle.file_table.specs.Entries.{created_entry};
ghost use Rattle.file_table.specs.Tables.{Adds, StandsFor, file_of};
ghost use Rattle.prospector_core.specs.Changes.{changes_between, cleans, known_after, new_members, new_one};
ghost use Rattle.prospector_core.specs.KnownFiles.{AreKnown};
ghost use Rattle.prospector_core.specs.Limits.{IsFirstRefusal, refusals};
ghost use Rattle.watched_files.specs.Kinds.{cleans_by, news_slot};
ghost use Rattle.watched_files.specs.Parts.{Asks, Misses, MissesAll, Tells};
ghost use Rattle.watched_files.specs.Telling.{asked, asks, began_event, began_events, change_events, cleans_at, shown_events, told_created};
ghost use Rattle.watched_files.specs.Watching.{AreWatched, HasPut, HaveSameFiles, IsFreeFrom, KeepsSlots};

use crate::SlotDeed;
use file_table::{At, Deed, FileTable};
use prospector_core::{Change, ProspectError, Prospector, Seen};
use ship_core::Rows;
use std::alloc::Global;
use wire_base::{Begin, Epoch, NoMemory, Slot};

/// Begins these files in the table, each at the place of its row, if there is one.
pub fn begin_files(table: &mut FileTable, rows: &Rows, begins: &[Begin]) -> Result<(), NoMemory>
    ensures { OnOk result (Tells (began_events rows.now begins.now) [] table.old table.new) }
{
    for begin in begins {
        begin_file(table, rows, begin)?;
    }
    Ok(())
}

fn begin_file(table: &mut FileTable, rows: &Rows, begin: &Begin) -> Result<(), NoMemory>
    ensures { OnOk result (Adds (began_event rows.now begin.now) table.old table.new) }
{
    match rows.get(begin.key.bytes()) {
        Some(row) => {
            let at = At {
                epoch: row.epoch,
                place: row.offset,
            };
            table.begin(begin.slot, at, true)
        }
        None => {
            let at = At {
                epoch: Epoch(0),
                place: 0,
            };
            table.begin(begin.slot, at, false)
        }
    }
}

/// Tells what a scan says of the known files, and creates those that it shows for the first time. A refusal leaves all as it was:
/// the entries of new files are made before the prospector remembers the scan.
pub fn compare_created(
    alloc: Global,
    prospector: &mut Prospector,
    table: &mut FileTable,
    seen: &[Seen],
    whole: bool,
    clean: &[bool],
) -> Result<Vec<Change>, ProspectError>
    requires { AreWatched prospector.old table.old }
    ensures told { IfOk result (λ changes. changes.items ≡ changes_between clean.now whole
        prospector.old seen.now) }
    ensures remembered { OnOk result
        (prospector.new ≡ known_after clean.now whole prospector.old seen.now) }
    ensures created { OnOk result ((told : _) → StandsFor told table.old → StandsFor
        (told_created prospector.old seen.now told) table.new) }
    ensures refused { IfErr result (IsFirstRefusal (refusals prospector.old seen.now)) }
    ensures none_too_many { OnOk result (refusals prospector.old seen.now ≡ []) }
    ensures known_kept { OnErr result (prospector.new ≡ prospector.old) }
    ensures files_kept { OnErr result (HaveSameFiles table.old table.new) }
    ensures watched { AreWatched prospector.new table.new }
{
    let first = prospector.next_slot().0;
    let last = last_slot(first, count_new(prospector, seen));
    create_files(table, first, last)?;
    match prospector.compare(alloc, seen, whole, clean) {
        Ok(changes) => {
            withdraw_each(table, prospector.next_slot().0, last);
            Ok(changes)
        }
        Err(error) => {
            withdraw_each(table, first, last);
            Err(error)
        }
    }
}

/// At least how many files a scan shows for the first time: as many as it has members whose keys are not known.
fn count_new(prospector: &Prospector, seen: &[Seen]) -> usize
    ensures { length (new_members prospector.now.files seen.now) ≤ result }
{
    let mut count = 0;
    for member in seen {
        count += count_one(prospector, member);
    }
    count
}

fn count_one(prospector: &Prospector, member: &Seen) -> usize
    ensures one { result ≤ 1 }
    ensures counted { (earlier : _) → length (new_one prospector.now.files earlier member.now) ≤
        result }
{
    if prospector.slot_of(member.key.bytes()).is_none() {
        return 1;
    }
    0
}

/// The slot behind so many from the first one on, or the last slot.
fn last_slot(first: u32, count: usize) -> u32
    ensures reached { (slot : ℕ) → slot ≤ first + count → slot ≤ 4_294_967_295 → slot ≤ result }
    ensures above { first ≤ result }
{
    match u32::try_from(count) {
        Ok(count) => first.saturating_add(count),
        Err(_) => u32::MAX,
    }
}

/// Creates a file of each of these slots, or of none.
fn create_files(table: &mut FileTable, first: u32, last: u32) -> Result<(), NoMemory>
    requires free { IsFreeFrom first table.old }
    requires order { first ≤ last }
    ensures created { OnOk result (HasPut (Some created_entry) first last table.old table.new) }
    ensures kept { OnErr result (HaveSameFiles table.old table.new) }
{
    match create_each(table, first, last) {
        Ok(()) => Ok(()),
        Err(error) => {
            withdraw_each(table, first, last);
            Err(error)
        }
    }
}

fn create_each(table: &mut FileTable, first: u32, last: u32) -> Result<(), NoMemory>
    requires { first ≤ last }
    ensures created { OnOk result (HasPut (Some created_entry) first last table.old table.new) }
    ensures below { OnErr result ((slot : ℕ) → slot < first → file_of table.new slot ≡ file_of
        table.old slot) }
    ensures above { OnErr result ((slot : ℕ) → last ≤ slot → file_of table.new slot ≡ file_of
        table.old slot) }
{
    for slot in first..last {
        table.create(Slot(slot))?;
    }
    Ok(())
}

fn withdraw_each(table: &mut FileTable, first: u32, last: u32)
    requires { first ≤ last }
    ensures { HasPut None first last table.old table.new }
{
    for slot in first..last {
        table.withdraw(Slot(slot));
    }
}

/// Takes the changes in, one after another, and adds what they ask for.
pub fn take_changes(
    table: &mut FileTable,
    prospector: &Prospector,
    clean: &[bool],
    number: u64,
    changes: &[Change],
    deeds: &mut Vec<SlotDeed>,
) -> Result<(), NoMemory>
    requires { AreKnown prospector.now }
    ensures taken { OnOk result (Asks
        (flat_map (change_events number clean.now prospector.now.files) changes.now) []
        deeds.old.items deeds.new.items table.old table.new) }
    ensures same_slots { KeepsSlots table.old table.new }
{
    for change in changes {
        take_change(table, prospector, clean, number, change, deeds)?;
    }
    Ok(())
}

fn take_change(
    table: &mut FileTable,
    prospector: &Prospector,
    clean: &[bool],
    number: u64,
    change: &Change,
    deeds: &mut Vec<SlotDeed>,
) -> Result<(), NoMemory>
    requires { AreKnown prospector.now }
    ensures taken { OnOk result (Asks
        (change_events number clean.now prospector.now.files change.now) [] deeds.old.items
        deeds.new.items table.old table.new) }
    ensures same_slots { KeepsSlots table.old table.new }
{
    let Some(slot) = news_slot(change) else {
        return Ok(());
    };
    let clean = cleans_by(prospector, clean, change);
    let deed = table.take(change, number, clean)?;
    add_deed(slot, deed, deeds)
}

/// The slot of the known file of which the change is.
fn news_slot(change: &Change) -> Option<Slot>
    ensures { result ≡ news_slot change.now }
{
    match change {
        Change::Created { .. } | Change::Doubled { .. } => None,
        Change::Returned { slot, .. }
        | Change::Renamed { slot, .. }
        | Change::Written { slot, .. }
        | Change::Truncated { slot, .. }
        | Change::Removed { slot } => Some(*slot),
    }
}

/// Whether the change is that a file was removed that is to be forgotten.
fn cleans_by(prospector: &Prospector, clean: &[bool], change: &Change) -> bool
    requires { AreKnown prospector.now }
    ensures { result ≡ cleans_by clean.now prospector.now.files change.now }
{
    match change {
        Change::Removed { slot } => cleans_at(prospector, clean, *slot),
        _ => false,
    }
}

/// Whether removed files of the input of this slot's file are to be forgotten.
fn cleans_at(prospector: &Prospector, clean: &[bool], slot: Slot) -> bool
    requires { AreKnown prospector.now }
    ensures { result ≡ cleans_at clean.now prospector.now.files slot.0 }
{
    match prospector.file_of(slot) {
        Some(file) => cleans(clean, file.input),
        None => false,
    }
}

/// Whether removed files of the input are to be forgotten.
fn cleans(clean: &[bool], input: u32) -> bool
    ensures { result ≡ cleans clean.now input }
{
    clean.get(input as usize).copied().unwrap_or(false)
}

fn add_deed(slot: Slot, deed: Deed, deeds: &mut Vec<SlotDeed>) -> Result<(), NoMemory>
    ensures { OnOk result (deeds.new.items ≡ deeds.old.items ++ asked slot.0 deed) }
{
    if asks(deed) {
        deeds.push(SlotDeed { slot, deed })?;
    }
    Ok(())
}

fn asks(deed: Deed) -> bool
    ensures { result ≡ asks deed }
{
    !matches!(deed, Deed::Nothing)
}

/// Tells of each listed file that the scan of this number showed it.
pub fn show_all(table: &mut FileTable, prospector: &Prospector, number: u64, seen: &[Seen])
    ensures shown { Tells (flat_map (shown_events number prospector.now.files) seen.now) []
        table.old table.new }
    ensures same_slots { KeepsSlots table.old table.new }
{
    for member in seen {
        show(table, prospector, number, member);
    }
}

fn show(table: &mut FileTable, prospector: &Prospector, number: u64, member: &Seen)
    ensures shown { Tells (shown_events number prospector.now.files member.now) [] table.old
        table.new }
    ensures same_slots { KeepsSlots table.old table.new }
{
    if let Some(slot) = prospector.slot_of(member.key.bytes()) {
        table.show(slot, number);
    }
}

/// Tells of each known file that the scan of this number did not show that it is missed, if the scan is whole, and adds what that
/// asks for.
pub fn miss_unshown(
    table: &mut FileTable,
    prospector: &Prospector,
    number: u64,
    whole: bool,
    deeds: &mut Vec<SlotDeed>,
) -> Result<(), NoMemory>
    requires { AreWatched prospector.now table.old }
    ensures missed { OnOk result (MissesAll number whole prospector.now.files deeds.old.items
        deeds.new.items table.old table.new) }
    ensures same_slots { KeepsSlots table.old table.new }
{
    if !whole {
        return Ok(());
    }
    let next = prospector.next_slot().0;
    let mut from = 0;
    'slots: while from < next {
        from = miss_first(table, from, next, number, deeds)?;
    }
    Ok(())
}

/// Ends the whole scan for the first file from this slot on; the slot after it, or the next new one if there is no such file.
fn miss_first(
    table: &mut FileTable,
    from: u32,
    next: u32,
    number: u64,
    deeds: &mut Vec<SlotDeed>,
) -> Result<u32, NoMemory>
    requires { from < next }
    ensures goes_on { IfOk result (λ later. from < later) }
    ensures missed { IfOk result (λ later. (files : _) → (earlier : _) → (start : _)
        → Misses number files next earlier deeds.old.items from start table.old
        → Misses number files next earlier deeds.new.items later start table.new) }
    ensures same_slots { KeepsSlots table.old table.new }
{
    match table.first_from(Slot(from)) {
        Some((slot, _)) if slot.0 < next => {
            let deed = table.end_scan(slot, number, true);
            add_deed(slot, deed, deeds)?;
            Ok(slot.0 + 1)
        }
        _ => Ok(next),
    }
}

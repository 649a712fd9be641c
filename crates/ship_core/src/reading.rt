//! What notes say of a slot and of a key, read by plain passes over their list.
ghost use Rattle.std.specs.Prelude.{◌≡◌, ◌==◌, ◌&&◌, ◌≤◌, ℕ, List, [], nat_lt, length, IfOk, IfSome, All, max, fold, filter, Option, Some, None, is_some, unwrap_or, if◌then◌else◌, true};
ghost use Rattle.std.specs.List.{filter_map, list_any, find as first_that};
ghost use Rattle.std.specs.Option.{option_copied, option_map};
ghost use Rattle.wire_base.specs.Ranges.{IsNote, IsRow};
ghost use Rattle.wire_base.specs.declared.note.Note.{Note};
ghost use Rattle.ship_core.specs.CoveredEnd.{covered_end};
ghost use Rattle.ship_core.specs.Reading.{begins, is_newer, later, place_of};
ghost use Rattle.ship_core.specs.RowOver.{epoch_of, forgets, greatest_epoch, greatest_moment, moment_of, naming_of, newer, notes_of, row_over, slot_of, span_in, spans_in, start_of, start_over};
ghost use Rattle.ship_core.specs.RowsOver.{row_for, slot_for, slots_for};

use crate::Rows;
use std::alloc::Global;
use std::cmp::Ordering;
use wire_base::{Epoch, Moment, NoMemory, Note, Row, Span, Text};

pub(crate) fn slot_of(note: &Note) -> u32
    ensures { result ≡ slot_of note.now }
{
    match note {
        Note::Begin { slot, .. }
        | Note::Announce { slot, .. }
        | Note::Settle { slot, .. }
        | Note::Rename { slot, .. }
        | Note::Seen { slot, .. }
        | Note::Forget { slot, .. } => slot.0,
    }
}

fn epoch_of(note: &Note) -> Option<u32>
    ensures { result ≡ epoch_of note.now }
{
    match note {
        Note::Begin { epoch, .. }
        | Note::Announce { epoch, .. }
        | Note::Settle { epoch, .. }
        | Note::Forget { epoch, .. } => Some(epoch.0),
        Note::Rename { .. } | Note::Seen { .. } => None,
    }
}

fn moment_of(note: &Note) -> Option<u64>
    ensures { result ≡ moment_of note.now }
{
    match note {
        Note::Begin { changed, .. } | Note::Seen { changed, .. } => Some(changed.0),
        _ => None,
    }
}

fn span_in(epoch: u32, note: &Note) -> Option<Span>
    ensures { result ≡ span_in epoch note.now }
{
    match note {
        Note::Settle {
            epoch: named,
            span,
            ..
        } => { if named.0 == epoch { Some(*span) } else { None } }
        _ => None,
    }
}

fn forgets(epoch: u32, offset: u64, note: &Note) -> bool
    ensures { result ≡ forgets epoch offset note.now }
{
    match note {
        Note::Forget {
            epoch: named,
            end,
            ..
        } => named.0 < epoch || (named.0 == epoch && *end <= offset),
        _ => false,
    }
}

fn greatest_epoch(notes: &[Note], slot: u32) -> u32
    ensures { result ≡ greatest_epoch (notes_of slot notes.now) }
{
    notes
        .iter()
        .filter(|note| slot_of(note) == slot)
        .filter_map(|note| epoch_of(note))
        .fold(0, |greatest, epoch| epoch.max(greatest))
}

fn is_gone(notes: &[Note], slot: u32, epoch: u32, offset: u64) -> bool
    ensures { result ≡ list_any (forgets epoch offset) (notes_of slot notes.now) }
{
    notes
        .iter()
        .filter(|note| slot_of(note) == slot)
        .any(|note| forgets(epoch, offset, note))
}

fn greatest_moment(notes: &[Note], slot: u32) -> u64
    ensures { result ≡ greatest_moment (notes_of slot notes.now) }
{
    notes
        .iter()
        .filter(|note| slot_of(note) == slot)
        .filter_map(|note| moment_of(note))
        .fold(0, |greatest, moment| moment.max(greatest))
}

/// The span that begins at the place.
fn span_at(notes: &[Note], slot: u32, epoch: u32, place: u64) -> Option<Span>
    ensures { result ≡ first_that (λ span. (span.start == place) && nat_lt place span.end)
        (spans_in epoch (notes_of slot notes.now)) }
{
    notes
        .iter()
        .filter(|note| slot_of(note) == slot)
        .filter_map(|note| span_in(epoch, note))
        .find(|span| span.start() == place && place < span.end())
}

fn count_of_spans(notes: &[Note], slot: u32, epoch: u32) -> usize
    ensures { result ≡ length (spans_in epoch (notes_of slot notes.now)) }
{
    notes
        .iter()
        .filter(|note| slot_of(note) == slot)
        .filter_map(|note| span_in(epoch, note))
        .count()
}

/// The place up to which all is settled from the base on.
fn covered_end(notes: &[Note], slot: u32, epoch: u32, base: u64) -> u64
    ensures { result ≡ covered_end (spans_in epoch (notes_of slot notes.now)) base }
{
    let mut end = base;
    for _i in 0..count_of_spans(notes, slot, epoch) {
        match span_at(notes, slot, epoch, end) {
            Some(span) => end = span.end(),
            None => return end,
        }
    }
    end
}

fn begins(note: &Note, slot: u32) -> bool
    ensures { result ≡ begins slot note.now }
{
    match note {
        Note::Begin { slot: begun, .. } => begun.0 == slot,
        _ => false,
    }
}

/// The note with which the slot begins.
fn begin_of(notes: &[Note], slot: u32) -> Option<&Note>
    ensures { option_copied result ≡ first_that (begins slot) notes.now }
{
    notes.iter().find(|note| begins(note, slot))
}

/// The path of the newest scan, or else the first one.
fn newest_path<'a>(notes: &'a [Note], slot: u32, first: &'a Text) -> &'a Text
    ensures { result.now ≡ unwrap_or (option_map (λ naming. naming.path)
        (fold newer None (filter_map naming_of (notes_of slot notes.now)))) first.now }
{
    let mut newest = None;
    let mut path = first;
    for note in notes {
        if let Note::Rename {
            slot: named,
            scan,
            path: found,
        } = note
        {
            if named.0 == slot && is_newer(newest, *scan) {
                newest = Some(*scan);
                path = found;
            }
        }
    }
    path
}

fn is_newer(newest: Option<u64>, scan: u64) -> bool
    ensures { result ≡ is_newer newest scan }
{
    match newest {
        Some(other) => other < scan,
        None => true,
    }
}

/// How a slot begins.
#[derive(Clone, Copy, Debug)]
pub(crate) struct Begun<'a> {
    pub(crate) key: &'a Text,
    path: &'a Text,
    epoch: u32,
    base: u64,
}

fn begin_in(note: &Note) -> Option<Begun<'_>>
    ensures { option_map (λ begun. record {
      key = begun.key.now;
      path = begun.path.now;
      epoch = begun.epoch;
      base = begun.base;
    }) result ≡ start_of note.now }
{
    match note {
        Note::Begin {
            key,
            path,
            epoch,
            base,
            ..
        } => Some(Begun {
            key,
            path,
            epoch: epoch.0,
            base: *base,
        }),
        _ => None,
    }
}

pub(crate) fn start_over(notes: &[Note], slot: u32) -> Option<Begun<'_>>
    ensures { option_map (λ begun. record {
      key = begun.key.now;
      path = begun.path.now;
      epoch = begun.epoch;
      base = begun.base;
    }) result ≡ start_over (notes_of slot notes.now) }
{
    match begin_of(notes, slot) {
        Some(note) => begin_in(note),
        None => None,
    }
}

/// From if an epoch is read, if the first one was read from the base.
fn base_in(first: u32, base: u64, epoch: u32) -> u64
    ensures { result ≡ (if epoch == first then base else 0) }
{
    if epoch == first { base } else { 0 }
}

/// How far the slot's file is done: its epoch and offset; none if it did not begin or its row is gone.
fn place_over(notes: &[Note], slot: u32) -> Option<(u32, u64)>
    ensures { result ≡ place_of (row_over slot notes.now) }
{
    match start_over(notes, slot) {
        Some(start) => {
            let epoch = greatest_epoch(notes, slot);
            let base = base_in(start.epoch, start.base, epoch);
            let offset = covered_end(notes, slot, epoch, base);
            if is_gone(notes, slot, epoch, offset) {
                None
            } else {
                Some((epoch, offset))
            }
        }
        None => None,
    }
}

/// The slot's row.
fn row_over(alloc: Global, notes: &[Note], slot: u32) -> Result<Option<Row>, NoMemory>
    requires { All IsNote notes.now }
    ensures row { IfOk result (λ row. row ≡ row_over slot notes.now) }
    ensures in_range { IfOk result (λ row. IfSome row IsRow) }
{
    match place_over(notes, slot) {
        Some(place) => match start_over(notes, slot) {
            Some(start) => Ok(Some(Row {
                key: start.key.copy(alloc)?,
                path: newest_path(notes, slot, start.path).copy(alloc)?,
                epoch: Epoch(place.0),
                offset: place.1,
                changed: Moment(greatest_moment(notes, slot)),
            })),
            None => Ok(None),
        },
        None => Ok(None),
    }
}

fn has_row(notes: &[Note], slot: u32) -> bool
    ensures { result ≡ is_some (row_over slot notes.now) }
{
    place_over(notes, slot).is_some()
}

fn slot_for(key: &Text, note: &Note) -> Option<u32>
    ensures { result ≡ slot_for key.now note.now }
{
    match note {
        Note::Begin {
            slot,
            key: named,
            ..
        } => match key.cmp(named) {
            Ordering::Equal => Some(slot.0),
            _ => None,
        },
        _ => None,
    }
}

fn is_named(notes: &[Note], key: &Text) -> bool
    ensures { result ≡ list_any (λ slot. true) (slots_for key.now notes.now) }
{
    notes
        .iter()
        .filter_map(|note| slot_for(key, note))
        .any(|_| true)
}

fn later(latest: Option<u32>, slot: u32) -> Option<u32>
    ensures { result ≡ later latest slot }
{
    match latest {
        Some(other) => Some(other.max(slot)),
        None => Some(slot),
    }
}

/// The greatest slot of the key that has a row.
fn latest(notes: &[Note], key: &Text) -> Option<u32>
    ensures { result ≡ fold later None
        (filter (λ slot. is_some (row_over slot notes.now)) (slots_for key.now notes.now)) }
{
    notes
        .iter()
        .filter_map(|note| slot_for(key, note))
        .filter(|slot| has_row(notes, *slot))
        .fold(None, |latest, slot| later(latest, slot))
}

/// The row of the key.
pub(crate) fn row_for(
    alloc: Global,
    opening: &Rows,
    notes: &[Note],
    key: &Text,
) -> Result<Option<Row>, NoMemory>
    requires { All IsNote notes.now }
    ensures row { IfOk result (λ row. row ≡ row_for opening.now notes.now key.now) }
    ensures in_range { IfOk result (λ row. IfSome row IsRow) }
{
    if let Some(slot) = latest(notes, key) {
        return row_over(alloc, notes, slot);
    }
    if is_named(notes, key) {
        return Ok(None);
    }
    copied(alloc, opening.get(key.bytes()))
}

pub(crate) fn copied(alloc: Global, row: Option<&Row>) -> Result<Option<Row>, NoMemory>
    ensures { IfOk result (λ copy. copy ≡ option_copied row.entry) }
{
    match row {
        Some(row) => Ok(Some(row.copy(alloc)?)),
        None => Ok(None),
    }
}

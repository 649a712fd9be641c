ghost use Rattle.std.specs.Prelude.{◌≡◌, ◌++◌, ◌∷◌, [], All, Contains, IfOk, IfErr, OnOk, OnErr, IfSome, OnSome, IfNone, List, None};
ghost use Rattle.wire_base.specs.Ranges.{IsNote, IsOp, IsPlace, IsRow};
ghost use Rattle.wire_base.specs.declared.row.Row.{Row};
ghost use Rattle.wire_base.specs.declared.note.Note.{Note};
ghost use Rattle.ship_core.specs.Orderly.{AreOrderly, IsBegun};
ghost use Rattle.ship_core.specs.RowOver.{place_over, row_over, slot_of, start_of};
ghost use Rattle.ship_core.specs.RowsOver.{AreRowsOver};
ghost use Rattle.ship_core.specs.Changes.{AreAscending, LeadTo};
ghost use Rattle.ack_tracker.specs.Files.{AreOf, Begins, gone_among};
ghost use Rattle.ack_tracker.specs.Keys.{SetsBegun};

use crate::file::File;
use crate::history::History;
use crate::keys::{Files, Keys};
use ship_core::{
    Rows, changes_by_key, covered_end_by_spans, note_by_key, row_by_slots, slots_by_begin,
};
use std::alloc::Global;
use std::collections::BTreeMap;
use std::marker::Model;
use wire_base::{Epoch, NoMemory, Note, Op, Row, Slot};

/// What notes say of files, over the rows that the registry had at first.
#[derive(Debug, Drop)]
pub struct Tracker {
    opening: Rows,
    files: Files,
    keys: Keys,
    history: History,
    /// The notes before the last commit.
    committed: History,
}

impl Model for Tracker {
    ghost use Rattle.ack_tracker.specs.Tracked.{Tracked};
    ghost use Rattle.ack_tracker.specs.Files.{gone_among};
    ghost use Rattle.ack_tracker.specs.Keys.{IsTracker, noted_of, slots_of};

    ghost Value = { Tracked };

    ghost view = { λ t. record {
      opening = t.opening;
      notes = t.history.notes;
      committed = t.committed.notes;
      gone = gone_among t.files.entries;
    } };

    ghost invariant = { λ t. IsTracker t.opening t.files.entries
        (slots_of t.keys.by_key.entries) (noted_of t.keys.by_key.entries) t.keys.fresh.keys
        t.history.notes t.committed.notes };
}

impl Tracker {
    /// Over these rows, which are those last committed, with no notes yet.
    pub fn new(alloc: Global, rows: &Rows) -> Result<Tracker, NoMemory>
        ensures { IfOk result (λ tracker. tracker ≡
            record { opening = rows.now; notes = []; committed = []; gone = [] }) }
    {
        Ok(Tracker {
            opening: rows.copy(alloc)?,
            files: BTreeMap::new(alloc),
            keys: Keys::new(alloc),
            history: History::new(),
            committed: History::new(),
        })
    }

    /// Notes one thing more, whatever it is. `Err` means out of memory, and gives the note back.
    pub fn note(&mut self, alloc: Global, note: Note) -> Result<(), Note>
        requires { IsNote note }
        ensures noted { OnOk result (self.new.notes ≡ self.old.notes ++ note ∷ []) }
        ensures opening_stays { self.new.opening ≡ self.old.opening }
        ensures committed_stays { self.new.committed ≡ self.old.committed }
        ensures gone_stays { All (Contains self.new.gone) self.old.gone }
        ensures kept { OnErr result (self.new ≡ self.old) }
        ensures given_back { IfErr result (λ back. back ≡ note) }
    {
        covered_end_by_spans();
        row_by_slots();
        slots_by_begin();
        note_by_key();
        let history = self.history.and(&note);
        match self.keys.prepare(alloc, &self.opening, &self.files, &note) {
            Ok(()) => {}
            Err(_) => return Err(note),
        }
        add(&mut self.files, alloc, note)?;
        self.history = history;
        Ok(())
    }

    /// What leads from the rows last committed to the present ones, each in byte order of the keys: the opening rows
    /// and the notes up to the last commit, or all of them, say which rows these are. Takes time for the keys that were
    /// noted since then, and a look at each other one.
    pub fn changes(&self, alloc: Global) -> Result<Vec<Op>, NoMemory>
        ensures by_the_notes { AreOrderly self.now.notes → (from to : List Row) →
            AreRowsOver self.now.opening self.now.committed from →
            AreRowsOver self.now.opening self.now.notes to →
            IfOk result (λ ops. LeadTo from to ops.items) }

        // For notes of any order, too:
        ensures ascending { IfOk result (λ ops. AreAscending ops.items) }
        ensures sets_begun { IfOk result (λ ops.
            All (SetsBegun self.now.notes self.now.gone) ops.items) }
        ensures in_range { IfOk result (λ ops. All IsOp ops.items) }
    {
        covered_end_by_spans();
        row_by_slots();
        slots_by_begin();
        changes_by_key();
        self.keys.changes(alloc, &self.files)
    }

    /// The present rows are those last committed. Takes no memory.
    pub fn committed(&mut self)
        ensures committed { self.new.committed ≡ self.old.notes }
        ensures opening_stays { self.new.opening ≡ self.old.opening }
        ensures notes_stay { self.new.notes ≡ self.old.notes }
        ensures gone_stays { self.new.gone ≡ self.old.gone }
    {
        self.keys.commit();
        self.committed = self.history.again();
    }

    /// How far the slot's file is done: its epoch, and the place in bytes up to which all is settled. `None` exactly
    /// if the slot has no Begin or its row is gone. Takes no memory.
    pub fn offset(&self, slot: Slot) -> Option<(Epoch, u64)>
        ensures by_the_notes { AreOrderly self.now.notes →
            result ≡ place_over slot.0 self.now.notes }

        // For notes of any order, too:
        ensures none { IfNone result
            (IsBegun slot.0 self.now.notes → Contains self.now.gone slot.0) }
        ensures some { OnSome result
            (IsBegun slot.0 self.now.notes × ¬ (Contains self.now.gone slot.0)) }
        ensures in_range { IfSome result (λ place. IsPlace place.1) }
    {
        covered_end_by_spans();
        match self.files.get(&slot.0) {
            Some(file) => file.place(),
            None => None,
        }
    }

    /// The slot's row: how far its file is done, under which key and path, and when the file last changed. `Ok(None)`
    /// comes exactly when `offset` answers `None`.
    pub fn row(&self, alloc: Global, slot: Slot) -> Result<Option<Row>, NoMemory>
        ensures by_the_notes { AreOrderly self.now.notes →
            IfOk result (λ row. row ≡ row_over slot.0 self.now.notes) }

        // For notes of any order, too:
        ensures none { IfOk result (λ row. IfNone row
            (IsBegun slot.0 self.now.notes → Contains self.now.gone slot.0)) }
        ensures some { IfOk result (λ row. OnSome row
            (IsBegun slot.0 self.now.notes × ¬ (Contains self.now.gone slot.0))) }
        ensures in_range { IfOk result (λ row. IfSome row IsRow) }
    {
        covered_end_by_spans();
        match self.files.get(&slot.0) {
            Some(file) => file.row(alloc),
            None => Ok(None),
        }
    }
}

/// Notes one thing more of the file that it names.
fn add(files: &mut Files, alloc: Global, note: Note) -> Result<(), Note>
    requires { IsNote note }
    ensures noted { OnOk result ((notes : List Note) → AreOf files.old.entries notes →
        AreOf files.new.entries (notes ++ note ∷ [])) }
    ensures gone_stays { All (Contains (gone_among files.new.entries))
        (gone_among files.old.entries) }
    ensures kept { OnErr result (files.new.entries ≡ files.old.entries) }
    ensures given_back { IfErr result (λ back. back ≡ note) }
{
    match note {
        Note::Begin {
            slot,
            key,
            path,
            epoch,
            base,
            changed,
        } => {
            let file = File::begin(alloc, key, path, epoch, base, changed);
            match begin(files, slot, file) {
                Ok(()) => Ok(()),
                Err(file) => Err(file.into_begin(slot)),
            }
        }
        note => match go_on(files, alloc, note) {
            Ok(()) => Ok(()),
            Err(back) => Err(back),
        },
    }
}

/// The slot begins, unless it began already.
fn begin(files: &mut Files, slot: Slot, file: File) -> Result<(), File>
    ensures begun { OnOk result (Begins files.old.entries files.new.entries slot.0 file) }
    ensures gone_stays { All (Contains (gone_among files.new.entries))
        (gone_among files.old.entries) }
    ensures kept { OnErr result (files.new.entries ≡ files.old.entries) }
    ensures given_back { IfErr result (λ back. back ≡ file) }
{
    if files.contains_key(&slot.0) {
        return Ok(());
    }
    match files.insert(slot.0, file) {
        Ok(_) => Ok(()),
        Err(full) => Err(full.value.1),
    }
}

/// Notes one thing more of a file that began. Of a slot that was not begun a note says nothing.
fn go_on(files: &mut Files, alloc: Global, note: Note) -> Result<(), Note>
    requires in_range { IsNote note }
    requires no_start { start_of note ≡ None }
    ensures noted { OnOk result ((notes : List Note) → AreOf files.old.entries notes →
        AreOf files.new.entries (notes ++ note ∷ [])) }
    ensures gone_stays { All (Contains (gone_among files.new.entries))
        (gone_among files.old.entries) }
    ensures kept { OnErr result (files.new.entries ≡ files.old.entries) }
    ensures given_back { IfErr result (λ back. back ≡ note) }
{
    match files.get_mut(&slot_of(&note).0) {
        Some(file) => match file.note(alloc, note) {
            Ok(()) => Ok(()),
            Err(back) => Err(back),
        },
        None => Ok(()),
    }
}

pub(crate) fn slot_of(note: &Note) -> Slot
    ensures { result.0 ≡ slot_of note.now }
{
    match note {
        Note::Begin { slot, .. }
        | Note::Announce { slot, .. }
        | Note::Settle { slot, .. }
        | Note::Rename { slot, .. }
        | Note::Seen { slot, .. }
        | Note::Forget { slot, .. } => *slot,
    }
}

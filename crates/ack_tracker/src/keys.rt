ghost use Rattle.std.specs.Prelude.{◌≡◌, ℕ, true, Contains, List, [], None, Option, Some, IsSome, IfOk, OnOk, All};
ghost use Rattle.std.specs.List.{filter_map};
ghost use Rattle.std.specs.BTreeMap.{IsOrdered};
ghost use Rattle.wire_base.specs.KeyOrder.{compare};
ghost use Rattle.wire_base.specs.Ranges.{IsKey, IsNote, IsOp};
ghost use Rattle.wire_base.specs.declared.row.Row.{Row};
ghost use Rattle.ship_core.specs.RowOver.{Start, slot_of, start_of};
ghost use Rattle.ack_tracker.specs.Files.{file_of};
ghost use Rattle.ack_tracker.specs.Keys.{AreFresh, KeepsRows, KeepsSlots, at_key, change_now, key_noted, noted_of, row_before, slots_at, slots_of};

use crate::file::File;
use crate::keyed::Keyed;
use crate::tracker::slot_of;
use ship_core::Rows;
use std::alloc::Global;
use std::collections::{BTreeMap, BTreeSet};
use wire_base::{NoMemory, Note, Op, Text};

/// The files by their slots.
pub(crate) type Files = BTreeMap<u32, File>;

pub(crate) type ByKey = BTreeMap<Text, Keyed>;

/// What is kept of keys.
#[derive(Debug, Drop)]
pub(crate) struct Keys {
    pub by_key: ByKey,
    /// The slots whose files' keys were noted since the last commit, so that a note of theirs needs no look among keys.
    pub fresh: BTreeSet<u32>,
}

impl Keys {
    pub(crate) fn new(alloc: Global) -> Keys
        ensures by_key { result.by_key.entries ≡ [] }
        ensures fresh { result.fresh.keys ≡ [] }
    {
        Keys {
            by_key: BTreeMap::new(alloc),
            fresh: BTreeSet::new(alloc),
        }
    }

    /// No key was noted.
    pub(crate) fn commit(&mut self)
        ensures noted { noted_of self.new.by_key.entries ≡ [] }
        ensures slots { slots_of self.new.by_key.entries ≡ slots_of self.old.by_key.entries }
        ensures fresh { self.new.fresh.keys ≡ [] }
    {
        self.by_key.retain(
            |_, keyed: &mut Keyed| -> bool
                ensures all { result ≡ true }
                ensures none { keyed.new ≡ record keyed.old { was = None } }
            {
                keyed.was = None;
                true
            },
        );
        self.fresh.clear();
    }

    /// Before a note: the row that its key has is kept, and a key that begins is given its slot.
    pub(crate) fn prepare(
        &mut self,
        alloc: Global,
        opening: &Rows,
        files: &Files,
        note: &Note,
    ) -> Result<(), NoMemory>
        requires range { IsNote note.now }
        requires fresh { AreFresh self.old.fresh.keys files.now.entries
            (noted_of self.old.by_key.entries) }
        ensures keeps_rows { KeepsRows (noted_of self.old.by_key.entries)
            (noted_of self.new.by_key.entries)
            (row_before opening.now files.now.entries (slots_of self.old.by_key.entries)) }
        ensures keeps_slots { KeepsSlots (slots_of self.old.by_key.entries)
            (slots_of self.new.by_key.entries) }
        ensures fresh { AreFresh self.new.fresh.keys files.now.entries
            (noted_of self.new.by_key.entries) }
        ensures noted { OnOk result ((key : List ℕ) →
            key_noted files.now.entries note.now ≡ Some key →
            IsSome (at_key (noted_of self.new.by_key.entries) key)) }
        ensures given { OnOk result ((start : Start) → start_of note.now ≡ Some start →
            file_of files.now.entries (slot_of note.now) ≡ None →
            Contains (slots_at (slots_of self.new.by_key.entries) start.key)
            (slot_of note.now)) }
    {
        let slot = slot_of(note).0;
        if self.fresh.contains(&slot) {
            return Ok(());
        }
        match files.get(&slot) {
            Some(file) => {
                keep(&mut self.by_key, alloc, opening, files, file.key(), None)?;
                self.fresh.insert(slot)?;
                Ok(())
            }
            None => match note {
                Note::Begin { slot, key, .. } => {
                    keep(&mut self.by_key, alloc, opening, files, key, Some(slot.0))
                }
                _ => Ok(()),
            },
        }
    }

    /// What leads from the kept rows to the present ones.
    pub(crate) fn changes(&self, alloc: Global, files: &Files) -> Result<Vec<Op>, NoMemory>
        requires { (key : List ℕ) (was : Option Row) →
            at_key (noted_of self.now.by_key.entries) key ≡ Some was → IsKey key }
        ensures changes { IfOk result (λ ops. ops.items ≡
            filter_map (change_now files.now.entries (slots_of self.now.by_key.entries))
            (noted_of self.now.by_key.entries)) }
        ensures in_range { IfOk result (λ ops. All IsOp ops.items) }
        ensures in_order { IsOrdered compare self.now.by_key }
    {
        are_in_order(&self.by_key);
        let mut ops = Vec::new(alloc);
        for (key, keyed) in &self.by_key {
            if let Some(op) = keyed.change(alloc, files, key)? {
                ops.push(op)?;
            }
        }
        Ok(ops)
    }
}

/// The keys of a map ascend, and its length says how many there are.
fn are_in_order(by_key: &ByKey)
    ensures { IsOrdered compare by_key.now }
{
    by_key.len();
}

/// Before a note of the key: the row that it has is kept, and a slot with which it begins.
fn keep(
    by_key: &mut ByKey,
    alloc: Global,
    opening: &Rows,
    files: &Files,
    key: &Text,
    begun: Option<u32>,
) -> Result<(), NoMemory>
    requires { IsKey key.now }
    ensures keeps { KeepsRows (noted_of by_key.old.entries) (noted_of by_key.new.entries)
        (row_before opening.now files.now.entries (slots_of by_key.old.entries)) }
    ensures keeps_slots { KeepsSlots (slots_of by_key.old.entries) (slots_of by_key.new.entries) }
    ensures noted { OnOk result (IsSome (at_key (noted_of by_key.new.entries) key.now)) }
    ensures given { OnOk result ((slot : ℕ) → begun ≡ Some slot →
        Contains (slots_at (slots_of by_key.new.entries) key.now) slot) }
{
    are_in_order(by_key);
    match by_key.get_mut(key) {
        Some(keyed) => keyed.keep(alloc, opening, files, key, begun),
        None => keep_new(by_key, alloc, opening, files, key, begun),
    }
}

fn keep_new(
    by_key: &mut ByKey,
    alloc: Global,
    opening: &Rows,
    files: &Files,
    key: &Text,
    begun: Option<u32>,
) -> Result<(), NoMemory>
    requires in_range { IsKey key.now }
    requires new { at_key by_key.old.entries key.now ≡ None }
    ensures keeps { KeepsRows (noted_of by_key.old.entries) (noted_of by_key.new.entries)
        (row_before opening.now files.now.entries (slots_of by_key.old.entries)) }
    ensures keeps_slots { KeepsSlots (slots_of by_key.old.entries) (slots_of by_key.new.entries) }
    ensures noted { OnOk result (IsSome (at_key (noted_of by_key.new.entries) key.now)) }
    ensures given { OnOk result ((slot : ℕ) → begun ≡ Some slot →
        Contains (slots_at (slots_of by_key.new.entries) key.now) slot) }
{
    are_in_order(by_key);
    let mut keyed = Keyed::new(alloc);
    keyed.keep(alloc, opening, files, key, begun)?;
    by_key.insert(key.copy(alloc)?, keyed)?;
    Ok(())
}

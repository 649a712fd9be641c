ghost use Rattle.std.specs.Prelude.{◌≡◌, ◌⊎◌, ℕ, Contains, [], None, Some, IfOk, IfSome, IsSome, OnOk, unwrap_or};
ghost use Rattle.wire_base.specs.Ranges.{IsKey, IsOp, IsRow};
ghost use Rattle.ship_core.specs.Rows.{find};
ghost use Rattle.ack_tracker.specs.Keys.{change_kept, row_at, row_now};

use crate::keys::Files;
use crate::slots::Slots;
use ship_core::{Rows, change};
use std::alloc::Global;
use wire_base::{NoMemory, Op, Row, Text};

/// What is kept of one key.
#[derive(Debug, Drop)]
pub(crate) struct Keyed {
    /// The slots that Begins gave to it.
    pub slots: Slots,
    /// The row that it had at the last commit; nothing if it was not noted since.
    pub was: Option<Option<Row>>,
}

impl Keyed {
    /// A key that no Begin gave a slot, and that was not noted.
    pub(crate) fn new(alloc: Global) -> Keyed
        ensures slots { result.slots ≡ [] }
        ensures was { result.was ≡ None }
    {
        Keyed {
            slots: Slots::new(alloc),
            was: None,
        }
    }

    /// Before a note of the key: the row that it has is kept, unless one is kept already, and then a slot with which it begins.
    pub(crate) fn keep(
        &mut self,
        alloc: Global,
        opening: &Rows,
        files: &Files,
        key: &Text,
        begun: Option<u32>,
    ) -> Result<(), NoMemory>
        ensures keeps { (self.new.was ≡ self.old.was) ⊎ ((self.old.was ≡ None) ×
            (self.new.was ≡ Some (unwrap_or (row_now files.now.entries self.old.slots key.now)
            (find key.now opening.now)))) }
        ensures noted { OnOk result (IsSome self.new.was) }
        ensures slots_stay { (slot : ℕ) → Contains self.old.slots slot →
            Contains self.new.slots slot }
        ensures given { OnOk result ((slot : ℕ) → begun ≡ Some slot →
            Contains self.new.slots slot) }
    {
        if self.was.is_none() {
            let row = row_before(alloc, opening, files, &self.slots, key)?;
            self.was = Some(row);
        }
        match begun {
            Some(slot) => self.slots.add(slot),
            None => Ok(()),
        }
    }

    /// What leads from the row that was kept to the present one; nothing if none was kept, or nothing changed.
    pub(crate) fn change(
        &self,
        alloc: Global,
        files: &Files,
        key: &Text,
    ) -> Result<Option<Op>, NoMemory>
        requires { IsSome self.now.was → IsKey key.now }
        ensures change { IfOk result (λ op. op ≡ change_kept files.now.entries (key.now, self.now)) }
        ensures in_range { IfOk result (λ op. IfSome op IsOp) }
    {
        let Some(was) = &self.was else {
            return Ok(None);
        };
        match row_now(alloc, files, &self.slots, key)? {
            Some(now) => change(alloc, key, was.as_ref(), now),
            None => Ok(None),
        }
    }
}

/// The row of a key with these slots: that of a slot, or the opening one if none began with it.
fn row_before(
    alloc: Global,
    opening: &Rows,
    files: &Files,
    own: &Slots,
    key: &Text,
) -> Result<Option<Row>, NoMemory>
    ensures { IfOk result (λ row. row ≡
        unwrap_or (row_now files.now.entries own.now key.now) (find key.now opening.now)) }
{
    if let Some(row) = row_now(alloc, files, own, key)? {
        return Ok(row);
    }
    match opening.get(key.bytes()) {
        Some(row) => Ok(Some(row.copy(alloc)?)),
        None => Ok(None),
    }
}

/// The row of a key that began with some of these slots; `None` if it did not.
fn row_now(
    alloc: Global,
    files: &Files,
    own: &Slots,
    key: &Text,
) -> Result<Option<Option<Row>>, NoMemory>
    ensures row { IfOk result (λ row. row ≡ row_now files.now.entries own.now key.now) }
    ensures in_range { IfOk result (λ row. IfSome row (λ now. IfSome now IsRow)) }
{
    match own.latest(files, key) {
        Some(latest) => row_at(alloc, files, latest),
        None if own.is_begun(files, key) => Ok(Some(None)),
        None => Ok(None),
    }
}

fn row_at(alloc: Global, files: &Files, slot: u32) -> Result<Option<Option<Row>>, NoMemory>
    ensures row { IfOk result (λ row. row ≡ Some (row_at files.now.entries slot)) }
    ensures in_range { IfOk result (λ row. IfSome row (λ now. IfSome now IsRow)) }
{
    match files.get(&slot) {
        Some(file) => Ok(Some(file.row(alloc)?)),
        None => Ok(Some(None)),
    }
}

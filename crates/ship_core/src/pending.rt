ghost use Rattle.std.specs.Prelude.{◌≡◌, ℕ, List, All, IfOk, IfErr, IfSome, OnOk, OnErr};
ghost use Rattle.std.specs.Option.{option_copied};
ghost use Rattle.wire_base.specs.KeyOrder.{IsAt, IsGap};
ghost use Rattle.wire_base.specs.Ranges.{IsKey, IsNote, IsOp, IsRow};
ghost use Rattle.ship_core.specs.Changes.{AreAscending, change_of, key_in, op_for};
ghost use Rattle.ship_core.specs.Rows.{find};
ghost use Rattle.ship_core.specs.RowsOver.{row_for};
ghost use Rattle.ship_core.specs.Machine.{Renews, with_change};
ghost use Rattle.ship_core.specs.Orderly.{AreOrderly};
ghost use Rattle.ship_core.specs.Replay.{after_op, replay_on};

use crate::changes::change;
use crate::reading::{copied, row_for, start_over};
use crate::rows::Rows;
use std::alloc::Global;
use wire_base::{NoMemory, Note, Op, Row, Text};

/// What was stored, what is there now, and what leads from one to the other.
#[derive(Debug, Drop)]
pub(crate) struct Ahead {
    pub(crate) durable: Rows,
    pub(crate) rows: Rows,
    pub(crate) pending: Vec<Op>,
}

impl Ahead {
    /// Renews the row of the slot's key.
    pub(crate) fn renew(
        &mut self,
        alloc: Global,
        opening: &Rows,
        notes: &[Note],
        slot: u32,
    ) -> Result<(), NoMemory>
        requires in_range { All IsNote notes.now }
        requires orderly { AreOrderly notes.now }
        requires ascending { AreAscending self.old.pending.items }
        requires ops { All IsOp self.old.pending.items }
        ensures ops { All IsOp self.new.pending.items }
        ensures renewed { OnOk result (Renews opening.now notes.now slot self.old.durable
            self.old.rows self.new.rows self.old.pending.items self.new.pending.items) }
        ensures rows_kept { OnErr result (self.new.rows ≡ self.old.rows) }
        ensures pending_kept { OnErr result (self.new.pending.items ≡ self.old.pending.items) }
        ensures durable_stays { self.new.durable ≡ self.old.durable }
    {
        match start_over(notes, slot) {
            Some(start) => self.renew_key(alloc, opening, notes, start.key),
            None => Ok(()),
        }
    }

    fn renew_key(
        &mut self,
        alloc: Global,
        opening: &Rows,
        notes: &[Note],
        key: &Text,
    ) -> Result<(), NoMemory>
        requires key { IsKey key.now }
        requires in_range { All IsNote notes.now }
        requires orderly { AreOrderly notes.now }
        requires ascending { AreAscending self.old.pending.items }
        requires ops { All IsOp self.old.pending.items }
        ensures ops { All IsOp self.new.pending.items }
        ensures rows { OnOk result (self.new.rows ≡
            after_op self.old.rows (op_for key.now (row_for opening.now notes.now key.now))) }
        ensures pending { OnOk result (self.new.pending.items ≡ with_change key.now
            (change_of key.now (find key.now self.old.durable)
            (row_for opening.now notes.now key.now)) self.old.pending.items) }
        ensures rows_kept { OnErr result (self.new.rows ≡ self.old.rows) }
        ensures pending_kept { OnErr result (self.new.pending.items ≡ self.old.pending.items) }
        ensures durable_stays { self.new.durable ≡ self.old.durable }
    {
        let row = row_for(alloc, opening, notes, key)?;
        let mut rows = self.rows.copy(alloc)?;
        put(alloc, &mut rows, key, copied(alloc, row.as_ref())?)?;
        let op = change(alloc, key, self.durable.get(key.bytes()), row)?;
        replace(&mut self.pending, key, op)?;
        self.rows = rows;
        Ok(())
    }
}

/// The key has this row, or none.
fn put(alloc: Global, rows: &mut Rows, key: &Text, row: Option<Row>) -> Result<(), NoMemory>
    requires key { IsKey key.now }
    requires row { IfSome row IsRow }
    ensures { OnOk result (rows.new ≡ after_op rows.old (op_for key.now row)) }
{
    match row {
        Some(row) => rows.apply(alloc, Op::Set(row)),
        None => rows.apply(alloc, Op::Remove(key.copy(alloc)?)),
    }
}

/// The key's operation in place of an earlier one, or none.
fn replace(ops: &mut Vec<Op>, key: &Text, op: Option<Op>) -> Result<(), NoMemory>
    requires ascending { AreAscending ops.old.items }
    requires own { IfSome op (λ o. key_in o ≡ key.now) }
    ensures replaced { OnOk result (ops.new.items ≡ with_change key.now op ops.old.items) }
    ensures kept { OnErr result (ops.new.items ≡ ops.old.items) }
{
    match place(ops, key) {
        Ok(i) => match op {
            Some(op) => ops[i] = op,
            None => {
                ops.remove(i);
            }
        },
        Err(i) => {
            if let Some(op) = op {
                ops.insert(i, op)?;
            }
        }
    }
    Ok(())
}

/// Where the key's operation is, or where it belongs.
fn place(ops: &[Op], key: &Text) -> Result<usize, usize>
    requires { AreAscending ops.now }
    ensures found { IfOk result (IsAt key_in ops.now key.now) }
    ensures absent { IfErr result (IsGap key_in ops.now key.now) }
{
    ops.binary_search_by(|op| key_in(op).bytes().cmp(key.bytes()))
}

fn key_in(op: &Op) -> &Text
    ensures { result.now ≡ key_in op.now }
{
    match op {
        Op::Set(row) => &row.key,
        Op::Remove(key) => key,
    }
}

/// The rows after these operations.
pub(crate) fn replayed(alloc: Global, rows: &Rows, ops: &[Op]) -> Result<Rows, NoMemory>
    requires { All IsOp ops.now }
    ensures { IfOk result (λ after. after ≡ replay_on rows.now ops.now) }
{
    let mut after = rows.copy(alloc)?;
    for op in ops {
        after.apply(alloc, copy_of(alloc, op)?)?;
    }
    Ok(after)
}

fn copy_of(alloc: Global, op: &Op) -> Result<Op, NoMemory>
    ensures { IfOk result (λ copy. copy ≡ op.now) }
{
    match op {
        Op::Set(row) => Ok(Op::Set(row.copy(alloc)?)),
        Op::Remove(key) => Ok(Op::Remove(key.copy(alloc)?)),
    }
}

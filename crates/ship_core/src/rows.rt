ghost use Rattle.std.specs.Prelude.{◌≡◌, ◌≢◌, ◌<◌, ℕ, All, Contains, List, [], length, IfOk, IfErr, OnOk, OnErr, IfSome, IfNone, slice_get, Some};
ghost use Rattle.std.specs.Option.{option_copied};
ghost use Rattle.wire_base.specs.KeyOrder.{IsAt, IsGap};
ghost use Rattle.wire_base.specs.Ranges.{IsOp, IsRow};
ghost use Rattle.ship_core.specs.Rows.{AreRows, IsInOrder, find, key_of};
ghost use Rattle.ship_core.specs.Replay.{after_op, with_row, without_row};

use std::alloc::Global;
use std::marker::Model;
use wire_base::{NoMemory, Op, Row};

/// The rows of the registry, seen as their list: in byte order of the keys, one for each key.
#[derive(Debug, Drop)]
pub struct Rows {
    rows: Vec<Row>,
    /// The place after the row that was set last: operations mostly come in the order of their keys.
    next: usize,
}

impl Model for Rows {
    ghost use Rattle.std.specs.Prelude.{List};
    ghost use Rattle.wire_base.specs.declared.row.Row.{Row};
    ghost use Rattle.ship_core.specs.Rows.{AreRows};

    ghost Value = { List Row };

    ghost view = { λ r. r.rows.items };

    ghost invariant = { λ r. AreRows r.rows.items };
}

impl Rows {
    /// Takes no memory yet, and keeps the allocator.
    pub fn new(alloc: Global) -> Rows
        ensures { result ≡ [] }
    {
        Rows {
            rows: Vec::new(alloc),
            next: 0,
        }
    }

    pub fn len(&self) -> usize
        ensures { result ≡ length self.now }
    {
        self.rows.len()
    }

    /// The row at place `i`, counted from 0 in the order of the keys.
    pub fn at(&self, i: usize) -> &Row
        requires { i < length self.now }
        ensures at { slice_get self.now i ≡ Some result.now }
        ensures rows { AreRows self.now }
        ensures in_range { IsRow result.now }
    {
        &self.rows[i]
    }

    /// `None` exactly if no row has the key.
    pub fn get(&self, key: &[u8]) -> Option<&Row>
        ensures found { option_copied result ≡ find key.now self.now }
        ensures has_the_key { IfSome result (λ row. row.now.key ≡ key.now) }
        ensures is_a_row { IfSome result (λ row. Contains self.now row.now) }
        ensures none_has_it { IfNone result (All (λ row. row.key ≢ key.now) self.now) }
        ensures in_range { IfSome result (λ row. IsRow row.now) }
        ensures rows { AreRows self.now }
    {
        match place(&self.rows, key) {
            Ok(i) => Some(&self.rows[i]),
            Err(_) => None,
        }
    }

    /// Sets the row of a key in place of an earlier one, or takes it away if there is one.
    pub fn apply(&mut self, _alloc: Global, op: Op) -> Result<(), NoMemory>
        requires { IsOp op }
        ensures applied { OnOk result (self.new ≡ after_op self.old op) }
        ensures kept { OnErr result (self.new ≡ self.old) }
        ensures rows { AreRows self.new }
    {
        match op {
            Op::Set(row) => self.set(row),
            Op::Remove(key) => {
                self.remove(key.bytes());
                Ok(())
            }
        }
    }

    fn set(&mut self, row: Row) -> Result<(), NoMemory>
        requires { IsRow row }
        ensures set { OnOk result (self.new ≡ with_row row self.old) }
        ensures kept { OnErr result (self.new ≡ self.old) }
        ensures rows { AreRows self.new }
    {
        let place = place_near(&self.rows, self.next, row.key.bytes());
        self.next = behind(place);
        match place {
            Ok(i) => self.rows[i] = row,
            Err(i) => self.rows.insert(i, row)?,
        }
        Ok(())
    }

    fn remove(&mut self, key: &[u8])
        ensures removed { self.new ≡ without_row key.now self.old }
        ensures rows { AreRows self.new }
    {
        if let Ok(i) = place(&self.rows, key) {
            self.rows.remove(i);
        }
    }

    pub fn copy(&self, alloc: Global) -> Result<Rows, NoMemory>
        ensures same { IfOk result (λ copy. copy ≡ self.now) }
        ensures rows { AreRows self.now }
    {
        let mut rows = Vec::new(alloc);
        for row in &self.rows {
            rows.push(row.copy(alloc)?)?;
        }
        Ok(Rows { rows, next: 0 })
    }
}

/// The place after this one.
fn behind(place: Result<usize, usize>) -> usize {
    match place {
        Ok(i) | Err(i) => i.saturating_add(1),
    }
}

/// Where the key's row is, or where it belongs. The place `near` is looked at first.
fn place_near(rows: &[Row], near: usize, key: &[u8]) -> Result<usize, usize>
    requires { IsInOrder rows.now }
    ensures found { IfOk result (IsAt key_of rows.now key.now) }
    ensures absent { IfErr result (IsGap key_of rows.now key.now) }
{
    match rows.get(near) {
        Some(row) if row.key.bytes() == key => Ok(near),
        _ => place(rows, key),
    }
}

/// Where the key's row is, or where it belongs.
fn place(rows: &[Row], key: &[u8]) -> Result<usize, usize>
    requires { IsInOrder rows.now }
    ensures found { IfOk result (IsAt key_of rows.now key.now) }
    ensures absent { IfErr result (IsGap key_of rows.now key.now) }
{
    rows.binary_search_by(|row| row.key.bytes().cmp(key))
}

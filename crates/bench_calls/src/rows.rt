//! Commits of a store over two areas, and spans that a tracker notes as settled.
ghost use Rattle.std.specs.Prelude.{◌≤◌, All, IfOk, length};
ghost use Rattle.wire_base.specs.Ranges.{IsNote, IsOp, IsRow};

use ack_tracker::Tracker;
use outside::Disk;
use registry_store::{Store, StoreError, few_by_length};
use ship_core::Rows;
use std::alloc::Global;
use wire_base::{
    Cause, Epoch, MAX_PATH, MAX_PLACE, Moment, NoMemory, Note, Op, Row, Slot, Span, Text,
};

/// No registry has more rows.
const MAX_ROWS: usize = 65_536;

const SPAN_BYTES: u64 = 10;

/// How many spans are permuted among each other.
const BLOCK: u64 = 100_000;

/// The text, if it is no longer than a path.
fn short(text: String) -> Result<Text, NoMemory>
    ensures { IfOk result (λ text. length text ≤ MAX_PATH) }
{
    let text = Text::from_string(text);
    if text.bytes().len() <= MAX_PATH {
        Ok(text)
    } else {
        Err(NoMemory)
    }
}

/// The row of the file of this number. Keys and paths are of an ordinary length.
fn row(alloc: Global, number: u64) -> Result<Row, NoMemory>
    ensures { IfOk result IsRow }
{
    let key = format!(in alloc; "filestream::nginx::native::{number:08}-64513")?;
    let path = format!(in alloc; "/var/log/app-{number:08}.log")?;
    Ok(Row {
        key: short(key)?,
        path: short(path)?,
        epoch: Epoch(0),
        offset: 4_096,
        changed: Moment(0),
    })
}

/// Operations that set this many rows.
fn settings(alloc: Global, count: u64) -> Result<Vec<Op>, NoMemory>
    ensures { IfOk result (λ ops. All IsOp ops.items) }
{
    let mut ops = Vec::new(alloc);
    for number in 0..count {
        ops.push(Op::Set(row(alloc, number)?))?;
    }
    Ok(ops)
}

fn commit<D: Disk>(
    alloc: Global,
    store: &mut Store,
    a: &mut D,
    b: &mut D,
    ops: &[Op],
) -> Result<(), StoreError>
    requires { All IsOp ops.now }
{
    few_by_length();
    if store.rows().len().saturating_add(ops.len()) > MAX_ROWS {
        return Err(StoreError::NoMemory);
    }
    store.commit(alloc, a, b, ops)
}

/// How many rows were committed by this many commits of this many rows each.
pub(crate) fn commits<D: Disk>(
    alloc: Global,
    a: &mut D,
    b: &mut D,
    count: u64,
    turns: u64,
) -> Result<u64, StoreError> {
    let mut store = Store::open(alloc, a, b)?;
    let ops = settings(alloc, count)?;
    let mut rows: u64 = 0;
    for _ in 0..turns {
        commit(alloc, &mut store, a, b, &ops)?;
        rows = rows.saturating_add(ops.len() as u64);
    }
    Ok(rows)
}

fn begin(alloc: Global) -> Result<Note, NoMemory>
    ensures { IfOk result IsNote }
{
    Ok(Note::Begin {
        slot: Slot(0),
        key: short(String::from_str(alloc, "filestream::nginx::native::0-64513")?)?,
        path: short(String::from_str(alloc, "/var/log/app.log")?)?,
        epoch: Epoch(0),
        base: 0,
        changed: Moment(0),
    })
}

/// Notes the span of this number as settled.
fn settle(alloc: Global, tracker: &mut Tracker, number: u64) -> Result<(), NoMemory> {
    let start = number.min(MAX_PLACE / SPAN_BYTES - 1) * SPAN_BYTES;
    let Some(span) = Span::new(start, start + SPAN_BYTES) else {
        return Ok(());
    };
    let settled = Note::Settle {
        slot: Slot(0),
        epoch: Epoch(0),
        span,
        cause: Cause::Acked,
    };
    tracker.note(alloc, settled).map_err(|_| NoMemory)
}

/// The place up to which all is settled once this many spans are.
pub(crate) fn settled(alloc: Global, stride: u64, count: u64) -> Result<u64, NoMemory> {
    let mut tracker = Tracker::new(alloc, &Rows::new(alloc))?;
    tracker.note(alloc, begin(alloc)?).map_err(|_| NoMemory)?;
    for place in 0..count {
        let within = (place % BLOCK).saturating_mul(stride) % BLOCK;
        settle(
            alloc,
            &mut tracker,
            (place / BLOCK * BLOCK).saturating_add(within),
        )?;
    }
    Ok(tracker.offset(Slot(0)).map_or(0, |(_, end)| end))
}

ghost use Rattle.std.specs.Prelude.{IfOk};
ghost use Rattle.wire_base.specs.Ranges.{IsOp};

mod bodies;
mod headers;
mod reading;
mod store;

use outside_mem::MemDisk;
use registry_log::{LogError, start_area};
use ship_core::Rows;
use std::alloc::Global;
use std::process::Abort;
use std::test::Fail;
use wire_base::{Epoch, MAX_KEY, MAX_MOMENT, MAX_PATH, MAX_PLACE, Moment, Op, Row, Text};

pub(crate) const WORKED: &[u8] =
    b"{beat 2 00000000000000000001\n{0000091 [{\"epoch\":0,\"key\":\"filestream::w::path::/w/a.log\",\"offset\":4,\"op\":\"set\",\"path\":\"/w/a.log\"}]\n.";

const EMPTY: &[u8] = b"{beat 2 00000000000000000007\n.";

/// A row, which need not be in range.
#[derive(Clone, Copy)]
pub(crate) struct Line<'a> {
    pub(crate) key: &'a [u8],
    pub(crate) path: &'a [u8],
    pub(crate) epoch: u32,
    pub(crate) offset: u64,
    pub(crate) changed: u64,
}

/// The row of `/w/a.log` at its offset 4, at 6, and there with a moment of change.
pub(crate) const AT_4: Line<'static> = Line {
    key: b"filestream::w::path::/w/a.log",
    path: b"/w/a.log",
    epoch: 0,
    offset: 4,
    changed: 0,
};

pub(crate) const AT_6: Line<'static> = Line { offset: 6, ..AT_4 };

pub(crate) const CHANGED: Line<'static> = Line { changed: 5, ..AT_6 };

/// The row of this key at the offset 0.
pub(crate) fn begun(key: &[u8]) -> Line<'_> {
    Line {
        key,
        path: b"/p",
        epoch: 0,
        offset: 0,
        changed: 0,
    }
}

/// The operation that sets the row, if it is in range.
pub(crate) fn setting(rt: &impl Abort, alloc: Global, line: Line<'_>) -> Result<Op, Fail>
    ensures { IfOk result IsOp }
{
    assert!(rt; line.key.len() <= MAX_KEY && line.path.len() <= MAX_PATH);
    assert!(rt; line.offset <= MAX_PLACE && line.changed <= MAX_MOMENT);
    Ok(Op::Set(Row {
        key: Text::from_bytes(alloc, line.key)?,
        path: Text::from_bytes(alloc, line.path)?,
        epoch: Epoch(line.epoch),
        offset: line.offset,
        changed: Moment(line.changed),
    }))
}

/// What a disk may have before an area is started on it.
const BEFORES: &[&[u8]] = &[b"", b"{", b".", b".beat 1 and more"];

#[test]
fn started_area_has_exactly_these_bytes(rt: HostRuntime) -> Result<(), Fail> {
    let alloc = rt.alloc();
    let mut rows = Rows::new(alloc);
    rows.apply(alloc, setting(&rt, alloc, AT_4)?)?;
    assert!(rt; rows.len() == 1);
    for before in BEFORES {
        let mut disk = MemDisk::new(alloc, before)?;
        let started = start_area(alloc, &mut disk, 1, &rows);
        assert_eq!(rt; started, Ok(130));
        assert_eq!(rt; disk.image(2)?.bytes(), WORKED);
    }
    Ok(())
}

/// Twenty-one rows with the longest keys, each byte but the first of which is escaped, and one with a shorter key.
fn many_rows(rt: &impl Abort, alloc: Global, plain: usize) -> Result<Rows, Fail> {
    let mut rows = Rows::new(alloc);
    for first in b'a'..b'v' {
        let key = long_key(alloc, first, 8_191, 0)?;
        rows.apply(alloc, setting(rt, alloc, begun(&key))?)?;
    }
    let key = long_key(alloc, b'z', 2_000, plain)?;
    rows.apply(alloc, setting(rt, alloc, begun(&key))?)?;
    Ok(rows)
}

pub(crate) fn long_key(
    alloc: Global,
    first: u8,
    escaped: usize,
    plain: usize,
) -> Result<Vec<u8>, Fail> {
    let mut key = Vec::new(alloc);
    key.push(first)?;
    for _ in 0..escaped {
        key.push(1)?;
    }
    for _ in 0..plain {
        key.push(b'x')?;
    }
    Ok(key)
}

/// How many bytes of the last key are not escaped, how the first record begins, and the place of the last gate.
const FULL: &[(usize, &[u8], u64)] = &[
    (3_277, b"{1048576 [", 1_048_615),
    (3_278, b"{1033243 [", 1_048_627),
];

#[test]
fn record_takes_as_many_operations_as_fit(rt: HostRuntime) -> Result<(), Fail> {
    let alloc = rt.alloc();
    for (plain, head, gate) in FULL {
        let rows = many_rows(&rt, alloc, *plain)?;
        assert!(rt; rows.len() <= 65_536);
        let mut disk = MemDisk::new(alloc, b"")?;
        let started = start_area(alloc, &mut disk, 1, &rows);
        assert_eq!(rt; started, Ok(*gate));
        assert!(rt; disk.bytes().get(29..39) == Some(*head));
    }
    Ok(())
}

#[test]
fn disk_that_stops_is_a_fault(rt: HostRuntime) -> Result<(), Fail> {
    let alloc = rt.alloc();
    let rows = Rows::new(alloc);
    for calls in 0..10 {
        let mut disk = MemDisk::new(alloc, WORKED)?;
        disk.stop_after(calls);
        let started = start_area(alloc, &mut disk, 7, &rows);
        let image = disk.image(3)?;
        let left = image.bytes();
        let shut = left.len() <= 1 || !left.starts_with(b"{");
        assert_eq!(rt; started, Err(LogError::DiskFault), "after {calls} calls");
        assert!(rt;
            shut || left == WORKED || left == EMPTY,
            "after {calls} calls"
        );
    }
    Ok(())
}

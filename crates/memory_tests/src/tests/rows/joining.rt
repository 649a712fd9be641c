ghost use Rattle.std.specs.Prelude.{◌≡◌, ◌≤◌, All, IfOk, length};
ghost use Rattle.prospector_core.specs.KnownFiles.{IsSeen};
ghost use Rattle.wire_base.specs.Ranges.{IsKey, IsPath, IsPlace};

use prospector_core::Seen;
use restart_join::join_rows;
use ship_core::Rows;
use std::alloc::Global;
use std::fmt::Write;
use std::process::Abort;
use std::test::Fail;
use wire_base::{Begin, Epoch, MAX_KEY, MAX_PATH, MAX_PLACE, Moment, Op, Row, Slot, Text};

fn seen(alloc: Global, key: &str, path: &str, size: u64) -> Result<Seen, Fail>
    requires key { IsKey key.now }
    requires path { IsPath path.now }
    requires size { IsPlace size }
    ensures { IfOk result IsSeen }
{
    Ok(Seen {
        input: 0,
        key: Text::from_bytes(alloc, key.as_bytes())?,
        path: Text::from_bytes(alloc, path.as_bytes())?,
        size,
    })
}

fn set(alloc: Global, rows: &mut Rows, key: &str, epoch: u32, offset: u64) -> Result<(), Fail>
    requires key { IsKey key.now }
    requires offset { IsPlace offset }
{
    let row = Row {
        key: Text::from_bytes(alloc, key.as_bytes())?,
        path: Text::from_bytes(alloc, b"/old")?,
        epoch: Epoch(epoch),
        offset,
        changed: Moment(0),
    };
    rows.apply(alloc, Op::Set(row))?;
    Ok(())
}

/// The key of a row, its epoch and its offset.
type Line = (&'static str, u32, u64);

fn rows_of(rt: &impl Abort, alloc: Global, lines: &[Line]) -> Result<Rows, Fail> {
    let mut rows = Rows::new(alloc);
    for (key, epoch, offset) in lines {
        assert!(rt; key.len() <= MAX_KEY && *offset <= MAX_PLACE);
        set(alloc, &mut rows, key, *epoch, *offset)?;
    }
    Ok(rows)
}

/// The key of a file, its path and its size.
type File = (&'static str, &'static str, u64);

fn scan_of(rt: &impl Abort, alloc: Global, files: &[File]) -> Result<Vec<Seen>, Fail>
    ensures { IfOk result (λ scan. All IsSeen scan.items) }
{
    let mut scan = Vec::new(alloc);
    for (key, path, size) in files {
        assert!(rt; key.len() <= MAX_KEY && path.len() <= MAX_PATH && *size <= MAX_PLACE);
        scan.push(seen(alloc, key, path, *size)?)?;
    }
    Ok(scan)
}

/// A line for each begin.
fn shown(alloc: Global, begins: &[Begin]) -> Result<String, Fail> {
    let mut text = String::new(alloc);
    for begin in begins {
        let (slot, epoch, base, size) = (begin.slot.0, begin.epoch.0, begin.base, begin.size);
        let (key, path) = (begin.key.as_str(), begin.path.as_str());
        writeln!(&mut text, "{slot} {key} {path} {size} {epoch} {base}")?;
    }
    Ok(text)
}

#[test]
fn files_begin_where_their_rows_stand(rt: HostRuntime) -> Result<(), Fail> {
    let alloc = rt.alloc();
    let rows = rows_of(
        &rt,
        alloc,
        &[
            ("same", 2, 10),
            ("longer", 1, 10),
            ("shorter", 3, 10),
            ("absent", 4, 10),
        ],
    )?;
    // Not in byte order of the paths, and two paths of one key.
    let scan = [
        ("shorter", "/d", 9),
        ("same", "/e", 10),
        ("same", "/b", 10),
        ("longer", "/c", 11),
        ("none", "/a", 5),
    ];
    let want = "7 none /a 5 0 0\n8 same /b 10 2 10\n9 longer /c 11 1 10\n10 shorter /d 9 4 0\n";
    let begins = join_rows(alloc, &rows, &scan_of(&rt, alloc, &scan)?, Slot(7))?;
    assert_eq!(rt; shown(alloc, &begins)?.as_str(), want);
    Ok(())
}

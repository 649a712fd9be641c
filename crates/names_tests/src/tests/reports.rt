use crate::tests::parts::text;
use beat_config::SettingsError;
use glob_paths::GlobError;
use outside_mem::MemSink;
use report::*;
use ship_core::Rows;
use std::alloc::Global;
use std::process::Abort;
use std::test::Fail;
use wire_base::{
    Epoch, Full, MAX_KEY, MAX_PATH, MAX_PLACE, Moment, NoMemory, Op, Row, Text, Which,
};

const PATH: &str = "/w/\"\u{1}\u{e9}\\.log";

const KEY: &str = "a.\"b\"";

/// The status ends so, by its number and its last line.
fn ends(alloc: Global, status: &Status, code: u8, line: &str) -> Result<bool, NoMemory> {
    let mut page = MemSink::new(alloc)?;
    let told = status_line(status, &mut page);
    Ok(told.is_ok() && page.bytes() == line.as_bytes() && status.code() == code)
}

/// An end, its number and its last line.
const ENDS: [(Status, u8, &str); 14] = [
    (Status::Done, 0, "status 0 done\n"),
    (Status::Stopped, 1, "status 1 stopped\n"),
    (
        Status::Usage,
        2,
        "status 2 usage: beat_main -c FILE [--once] [--data DIR] [--generate N]\n",
    ),
    (
        Status::Settings(SettingsError::TooLong),
        3,
        "status 3 settings too long\n",
    ),
    (
        Status::Settings(SettingsError::NotToml),
        3,
        "status 3 settings not toml\n",
    ),
    (
        Status::RegistryBad {
            area: Which::A,
            at: 0,
        },
        4,
        "status 4 registry bad area A at 0\n",
    ),
    (
        Status::RegistryBad {
            area: Which::B,
            at: 8,
        },
        4,
        "status 4 registry bad area B at 8\n",
    ),
    (Status::DiskFault, 5, "status 5 disk fault\n"),
    (Status::FolderFault, 6, "status 6 folder fault\n"),
    (
        Status::Unreachable {
            worker: 15,
            failures: 3,
        },
        7,
        "status 7 unreachable worker 15 failures 3\n",
    ),
    (Status::OutFault, 8, ""),
    (Status::SourceFault, 9, "status 9 source fault\n"),
    (Status::NoMemory, 12, "status 12 no memory\n"),
    (
        Status::Unbuilt { what: Lack::Follow },
        13,
        "status 13 unbuilt follow\n",
    ),
];

#[test]
fn each_end_has_its_code_and_last_line(rt: HostRuntime) -> Result<(), Fail> {
    for (status, code, line) in &ENDS {
        assert!(rt; ends(rt.alloc(), status, *code, line)?, "{line}");
    }
    Ok(())
}

/// An end that has a name: a key of the settings, or the path of a file.
#[derive(Clone, Copy)]
enum Naming {
    Unknown,
    Missing,
    WrongKind,
    BadText,
    OutOfRange(i64),
    BadGlob(GlobError),
    BadPattern,
    CleanTooSoon,
    TooMany(Full),
    NoNative,
    Unbuilt,
}

/// The end of this kind with this name.
fn status_of(naming: Naming, key: Text) -> Status {
    match naming {
        Naming::Unknown => Status::Settings(SettingsError::Unknown { key }),
        Naming::Missing => Status::Settings(SettingsError::Missing { key }),
        Naming::WrongKind => Status::Settings(SettingsError::WrongKind { key }),
        Naming::BadText => Status::Settings(SettingsError::BadText { key }),
        Naming::OutOfRange(value) => Status::Settings(SettingsError::OutOfRange { key, value }),
        Naming::BadGlob(fault) => Status::Settings(SettingsError::BadGlob { key, fault }),
        Naming::BadPattern => Status::Settings(SettingsError::BadPattern { key }),
        Naming::CleanTooSoon => Status::Settings(SettingsError::CleanTooSoon { key }),
        Naming::TooMany(what) => Status::TooMany { what, path: key },
        Naming::NoNative => Status::NoNative { path: key },
        Naming::Unbuilt => Status::Unbuilt {
            what: Lack::Key(key),
        },
    }
}

/// An end, the name that it has, its number and its last line.
type Named = (Naming, &'static str, u8, &'static str);

const FAULTS: [Named; 8] = [
    (
        Naming::Unknown,
        KEY,
        3,
        "status 3 settings unknown a.\"b\"\n",
    ),
    (
        Naming::Missing,
        KEY,
        3,
        "status 3 settings missing a.\"b\"\n",
    ),
    (
        Naming::WrongKind,
        KEY,
        3,
        "status 3 settings wrong kind a.\"b\"\n",
    ),
    (
        Naming::BadText,
        KEY,
        3,
        "status 3 settings bad text a.\"b\"\n",
    ),
    (
        Naming::OutOfRange(-7),
        KEY,
        3,
        "status 3 settings out of range a.\"b\" -7\n",
    ),
    (
        Naming::BadGlob(GlobError::Empty),
        KEY,
        3,
        "status 3 settings bad glob a.\"b\"\n",
    ),
    (
        Naming::BadPattern,
        KEY,
        3,
        "status 3 settings bad pattern a.\"b\"\n",
    ),
    (
        Naming::CleanTooSoon,
        KEY,
        3,
        "status 3 settings clean too soon a.\"b\"\n",
    ),
];

const OTHERS: [Named; 5] = [
    (
        Naming::TooMany(Full::Files),
        PATH,
        10,
        "status 10 too many files \"/w/\\\"\\u0001\u{e9}\\\\.log\"\n",
    ),
    (
        Naming::TooMany(Full::Epochs),
        PATH,
        10,
        "status 10 too many epochs \"/w/\\\"\\u0001\u{e9}\\\\.log\"\n",
    ),
    (
        Naming::TooMany(Full::Slots),
        PATH,
        10,
        "status 10 too many slots \"/w/\\\"\\u0001\u{e9}\\\\.log\"\n",
    ),
    (
        Naming::NoNative,
        PATH,
        11,
        "status 11 no native numbers \"/w/\\\"\\u0001\u{e9}\\\\.log\"\n",
    ),
    (Naming::Unbuilt, KEY, 13, "status 13 unbuilt key a.\"b\"\n"),
];

/// Each end is reported as its row says.
fn check_names(rt: &impl Abort, alloc: Global, rows: &[Named]) -> Result<(), Fail> {
    for (naming, name, code, line) in rows {
        let status = status_of(*naming, text(alloc, name)?);
        assert!(rt; ends(alloc, &status, *code, line)?, "{line}");
    }
    Ok(())
}

#[test]
fn each_fault_of_the_settings_is_told_with_its_key(rt: HostRuntime) -> Result<(), Fail> {
    check_names(&rt, rt.alloc(), &FAULTS)
}

#[test]
fn each_end_tells_its_path(rt: HostRuntime) -> Result<(), Fail> {
    check_names(&rt, rt.alloc(), &OTHERS)
}

/// The key of a row, its path, its epoch and its offset, in no order.
const ROWS: [(&str, &str, u32, u64); 2] = [("b", PATH, 7, 22), ("a\t", "/w/a", 0, 4)];

/// The rows of the table.
fn rows(rt: &impl Abort, alloc: Global) -> Result<Rows, Fail> {
    let mut rows = Rows::new(alloc);
    for (key, path, epoch, offset) in &ROWS {
        assert!(rt; key.len() <= MAX_KEY && path.len() <= MAX_PATH && *offset <= MAX_PLACE);
        let row = Row {
            key: text(alloc, key)?,
            path: text(alloc, path)?,
            epoch: Epoch(*epoch),
            offset: *offset,
            changed: Moment(1_700_000_000_123),
        };
        rows.apply(alloc, Op::Set(row))?;
    }
    Ok(rows)
}

/// The path that is passed, and why, in no order.
const PASSED: [(&str, Why); 6] = [
    (PATH, Why::Small),
    ("/w/b", Why::Old),
    ("/w/b", Why::Doubled),
    (PATH, Why::Gone),
    (PATH, Why::Small),
    ("/w/b", Why::Moved),
];

/// The passings of the table.
fn passed(alloc: Global) -> Result<Vec<Passing>, Fail> {
    let mut passed = Vec::new(alloc);
    for (path, why) in &PASSED {
        let path = text(alloc, path)?;
        passed.push(Passing { path, why: *why })?;
    }
    Ok(passed)
}

const REPORT: &str = concat!(
    "file \"a\\t\" 0 4 \"/w/a\"\n",
    "file \"b\" 7 22 \"/w/\\\"\\u0001\u{e9}\\\\.log\"\n",
    "passed \"/w/\\\"\\u0001\u{e9}\\\\.log\" gone\n",
    "passed \"/w/\\\"\\u0001\u{e9}\\\\.log\" small\n",
    "passed \"/w/b\" doubled\n",
    "passed \"/w/b\" moved\n",
    "passed \"/w/b\" old\n",
    "shipped 3 dropped 5\n",
    "status 0 done\n",
);

#[test]
fn report_has_rows_passings_counts_and_status_in_order(rt: HostRuntime) -> Result<(), Fail> {
    let rows = rows(&rt, rt.alloc())?;
    let passed = passed(rt.alloc())?;
    let report = report_text(rt.alloc(), &rows, &passed, 3, 5, &Status::Done)?;
    assert!(rt; report.bytes() == REPORT.as_bytes());
    Ok(())
}

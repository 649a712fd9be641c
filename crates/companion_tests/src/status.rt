//! Looks over objects in memory.

use file_progress::{Format, Outside, read_words, show};
use outside_mem::{
    Due, MemChange, MemClock, MemDisk, MemFile, MemFolder, MemSink, MemSource, MemStep,
};
use std::alloc::Global;
use std::test::Fail;
use wire_base::{Blob, Moment, Text};

/// Two inputs: one knows its files by inode and device, one by 64 bytes.
const SETTINGS: &str =
    "[[inputs]]\nid = 'w'\npaths = ['/w/*.log']\nfile_identity = 'native'\n[[inputs]]\nid = 'f'\npaths = ['/f/*.log']\nfingerprint.length = 64\n[output]\nhosts = ['h']\n";

/// The inode, the path and the bytes of each file: one was renamed since its row was stored, one is shorter than its row's
/// offset, one has no row, one is its double, and one is too small.
const FILES: &[(u64, &str, &[u8])] = &[
    (7, "/w/a.log", b"123456789\n"),
    (8, "/w/b.log", b"12\n"),
    (10, "/w/d.log", b"12345678901\n"),
    (10, "/w/e.log", b"12345678901\n"),
    (11, "/f/s.log", b"1234\n"),
];

/// The area that is used, with a row for the first two and one for a file that is gone.
const USED: &str =
    "{beat 2 00000000000000000003\n{0000264 [{\"epoch\":0,\"key\":\"filestream::w::native::7-1\",\"offset\":4,\"op\":\"set\",\"path\":\"/w/old.log\"},{\"epoch\":2,\"key\":\"filestream::w::native::8-1\",\"offset\":5,\"op\":\"set\",\"path\":\"/w/b.log\"},{\"epoch\":0,\"key\":\"filestream::w::native::9-1\",\"offset\":2,\"op\":\"set\",\"path\":\"/w/c.log\"}]\n.";

/// An earlier generation.
const OLDER: &str =
    "{beat 2 00000000000000000002\n{0000090 [{\"epoch\":0,\"key\":\"filestream::w::native::7-1\",\"offset\":1,\"op\":\"set\",\"path\":\"/w/old.log\"}]\n.";

const TABLE: &[&str] = &[
    "      BEHIND         SIZE       OFFSET EPOCH STATE   PATH\n",
    "          12           12            0     0 new     /w/d.log\n",
    "           6           10            4     0 present /w/a.log\n",
    "           5            5            0     0 small   /f/s.log\n",
    "           3            3            5     2 shorter /w/b.log\n",
    "           -            -            2     0 gone    /w/c.log\n",
    "           -           12            0     0 doubled /w/e.log\n",
    "26 bytes behind, 1 present, 1 shorter, 1 gone, 1 new, 1 doubled, 1 small\n",
    "registry of generation 3, written 3 seconds ago\n",
];

const JSON: &[&str] = &[
    "{\"age_ms\":3500,\"committed_ms\":1500,\"files\":[",
    "{\"behind_bytes\":6,\"epoch\":0,\"key\":\"filestream::w::native::7-1\",\"offset\":4,\"path\":\"/w/a.log\",\"size\":10,\"state\":\"present\"},",
    "{\"behind_bytes\":3,\"epoch\":2,\"key\":\"filestream::w::native::8-1\",\"offset\":5,\"path\":\"/w/b.log\",\"size\":3,\"state\":\"shorter\"},",
    "{\"behind_bytes\":null,\"epoch\":0,\"key\":\"filestream::w::native::9-1\",\"offset\":2,\"path\":\"/w/c.log\",\"size\":null,\"state\":\"gone\"},",
    "{\"behind_bytes\":12,\"epoch\":0,\"key\":\"filestream::w::native::10-1\",\"offset\":0,\"path\":\"/w/d.log\",\"size\":12,\"state\":\"new\"},",
    "{\"behind_bytes\":null,\"epoch\":0,\"key\":\"filestream::w::native::10-1\",\"offset\":0,\"path\":\"/w/e.log\",\"size\":12,\"state\":\"doubled\"},",
    "{\"behind_bytes\":5,\"epoch\":0,\"key\":null,\"offset\":0,\"path\":\"/f/s.log\",\"size\":5,\"state\":\"small\"}",
    "],\"generation\":3,\"totals\":",
    "{\"behind_bytes\":26,\"doubled\":1,\"gone\":1,\"new\":1,\"present\":1,\"shorter\":1,\"small\":1}}\n",
];

const PROMETHEUS: &[&str] = &[
    "# HELP beat_file_behind_bytes Bytes of the file that are neither acknowledged nor dropped yet.\n",
    "# TYPE beat_file_behind_bytes gauge\n",
    "beat_file_behind_bytes{key=\"filestream::w::native::7-1\",path=\"/w/a.log\"} 6\n",
    "beat_file_behind_bytes{key=\"filestream::w::native::8-1\",path=\"/w/b.log\"} 3\n",
    "beat_file_behind_bytes{key=\"filestream::w::native::10-1\",path=\"/w/d.log\"} 12\n",
    "# HELP beat_file_offset_bytes Place in the file up to which all is acknowledged or dropped.\n",
    "# TYPE beat_file_offset_bytes gauge\n",
    "beat_file_offset_bytes{key=\"filestream::w::native::7-1\",path=\"/w/a.log\"} 4\n",
    "beat_file_offset_bytes{key=\"filestream::w::native::8-1\",path=\"/w/b.log\"} 5\n",
    "beat_file_offset_bytes{key=\"filestream::w::native::9-1\",path=\"/w/c.log\"} 2\n",
    "beat_file_offset_bytes{key=\"filestream::w::native::10-1\",path=\"/w/d.log\"} 0\n",
    "# HELP beat_file_size_bytes Size of the file.\n",
    "# TYPE beat_file_size_bytes gauge\n",
    "beat_file_size_bytes{key=\"filestream::w::native::7-1\",path=\"/w/a.log\"} 10\n",
    "beat_file_size_bytes{key=\"filestream::w::native::8-1\",path=\"/w/b.log\"} 3\n",
    "beat_file_size_bytes{key=\"filestream::w::native::10-1\",path=\"/w/d.log\"} 12\n",
    "# HELP beat_file_restarts_total How often the file was begun again from its start.\n",
    "# TYPE beat_file_restarts_total counter\n",
    "beat_file_restarts_total{key=\"filestream::w::native::7-1\",path=\"/w/a.log\"} 0\n",
    "beat_file_restarts_total{key=\"filestream::w::native::8-1\",path=\"/w/b.log\"} 2\n",
    "beat_file_restarts_total{key=\"filestream::w::native::9-1\",path=\"/w/c.log\"} 0\n",
    "beat_file_restarts_total{key=\"filestream::w::native::10-1\",path=\"/w/d.log\"} 0\n",
    "# HELP beat_files Files by how they and their rows go together.\n",
    "# TYPE beat_files gauge\n",
    "beat_files{state=\"present\"} 1\n",
    "beat_files{state=\"shorter\"} 1\n",
    "beat_files{state=\"gone\"} 1\n",
    "beat_files{state=\"new\"} 1\n",
    "beat_files{state=\"doubled\"} 1\n",
    "beat_files{state=\"small\"} 1\n",
    "# HELP beat_behind_bytes Bytes of all files that are neither acknowledged nor dropped yet.\n",
    "# TYPE beat_behind_bytes gauge\n",
    "beat_behind_bytes 26\n",
    "# HELP beat_registry_generation Generation of the registry area that is used.\n",
    "# TYPE beat_registry_generation gauge\n",
    "beat_registry_generation 3\n",
    "# HELP beat_registry_written_timestamp_seconds When the registry was last written, in Unix time.\n",
    "# TYPE beat_registry_written_timestamp_seconds gauge\n",
    "beat_registry_written_timestamp_seconds 1\n",
];

const EMPTY: &[&str] = &[
    "      BEHIND         SIZE       OFFSET EPOCH STATE   PATH\n",
    "           4            4            0     0 new     /w/a.log\n",
    "4 bytes behind, 0 present, 0 shorter, 0 gone, 1 new, 0 doubled, 0 small\n",
    "no registry yet, written 3 seconds ago\n",
];

/// Of a long path the end is shown, from a whole character on, and no control character.
const LONG: &[&str] = &[
    "      BEHIND         SIZE       OFFSET EPOCH STATE   PATH\n",
    "           1            1            0     0 new     ..123456789012345678901234567890123456789?.log\n",
    "1 bytes behind, 0 present, 0 shorter, 0 gone, 1 new, 0 doubled, 0 small\n",
    "no registry yet, written 3 seconds ago\n",
];

/// An object whose first call fails.
#[derive(Clone, Copy)]
enum Failing {
    Nothing,
    Source,
    FirstArea,
    SecondArea,
    Folder,
    Sink,
}

/// What a look is given, and what it ends with.
#[derive(Clone, Copy)]
struct Case<'a> {
    format: Format,
    settings: &'a str,
    files: &'a [(u64, &'a str, &'a [u8])],
    areas: [&'a str; 2],
    failing: Failing,
    status: u8,
    printed: &'a [&'a str],
}

const PLAIN: Case = Case {
    format: Format::Table,
    settings: SETTINGS,
    files: FILES,
    areas: [USED, OLDER],
    failing: Failing::Nothing,
    status: 0,
    printed: TABLE,
};

const CASES: &[Case] = &[
    PLAIN,
    Case {
        format: Format::Json,
        printed: JSON,
        ..PLAIN
    },
    Case {
        format: Format::Prometheus,
        printed: PROMETHEUS,
        ..PLAIN
    },
    // the other area is used
    Case {
        areas: [OLDER, USED],
        ..PLAIN
    },
    Case {
        files: &[(7, "/w/a.log", b"123\n")],
        areas: ["", ""],
        printed: EMPTY,
        ..PLAIN
    },
    Case {
        files: &[(
            7,
            "/w/\u{e4}123456789012345678901234567890123456789\n.log",
            b"\n",
        )],
        areas: ["", ""],
        printed: LONG,
        ..PLAIN
    },
    Case {
        settings: "[output]\nhosts = ['h']\n",
        status: 3,
        ..REFUSED
    },
    Case {
        areas: ["{no registry", ""],
        status: 4,
        ..REFUSED
    },
    Case {
        failing: Failing::FirstArea,
        status: 5,
        ..REFUSED
    },
    Case {
        failing: Failing::SecondArea,
        status: 5,
        ..REFUSED
    },
    Case {
        failing: Failing::Folder,
        status: 6,
        ..REFUSED
    },
    Case {
        failing: Failing::Sink,
        status: 8,
        ..REFUSED
    },
    Case {
        failing: Failing::Source,
        status: 9,
        ..REFUSED
    },
];

/// Nothing is printed.
const REFUSED: Case = Case {
    printed: &[],
    ..PLAIN
};

fn files_of(alloc: Global, files: &[(u64, &str, &[u8])]) -> Result<Vec<MemFile>, Fail> {
    let mut made = Vec::new(alloc);
    for (inode, path, bytes) in files {
        let mut steps = Vec::new(alloc);
        steps.push(MemStep {
            due: Due::Listings(0),
            change: MemChange::Append(Blob::from_bytes(alloc, bytes)?),
        })?;
        made.push(MemFile {
            path: Text::from_bytes(alloc, path.as_bytes())?,
            native: Some((*inode, 1)),
            steps,
        })?;
    }
    Ok(made)
}

/// What the case's look ends with, and what it has printed.
fn look(alloc: Global, case: &Case<'_>) -> Result<(u8, MemSink), Fail> {
    let mut settings = MemSource::new(alloc, case.settings.as_bytes())?;
    let mut outside = Outside {
        folder: MemFolder::new(alloc, files_of(alloc, case.files)?)?,
        area_a: MemDisk::new(alloc, case.areas[0].as_bytes())?,
        area_b: MemDisk::new(alloc, case.areas[1].as_bytes())?,
        clock: MemClock::new(alloc, Moment(5_000))?,
    };
    let mut out = MemSink::new(alloc)?;
    match case.failing {
        Failing::Nothing => {}
        Failing::Source => settings.fail_at(&[0])?,
        Failing::FirstArea => outside.area_a.fail_at(&[0])?,
        Failing::SecondArea => outside.area_b.fail_at(&[0])?,
        Failing::Folder => outside.folder.fail_at(&[0])?,
        Failing::Sink => out.fail_at(&[0])?,
    }
    let status = show(
        alloc,
        case.format,
        &mut settings,
        &mut outside,
        Some(Moment(1_500)),
        &mut out,
    );
    Ok((status.code(), out))
}

fn joined(alloc: Global, pieces: &[&str]) -> Result<String, Fail> {
    let mut text = String::new(alloc);
    for piece in pieces {
        text.push_str(piece)?;
    }
    Ok(text)
}

#[test]
fn looks_show_what_is_there(rt: HostRuntime) -> Result<(), Fail> {
    for case in CASES {
        let (status, out) = look(rt.alloc(), case)?;
        let wanted = joined(rt.alloc(), case.printed)?;
        let printed = str::from_utf8(out.bytes()).unwrap_or("no text");
        assert_eq!(rt; status, case.status);
        assert_eq!(rt; printed, wanted.as_str());
    }
    Ok(())
}

#[test]
fn arguments_are_read(rt: HostRuntime) -> Result<(), Fail> {
    let alloc = rt.alloc();
    let cases: [(&[&str], Option<(&str, &str, Format)>); 5] = [
        (&["-c", "f"], Some(("f", "data", Format::Table))),
        (
            &["--config", "f", "--data", "d", "--format", "json"],
            Some(("f", "d", Format::Json)),
        ),
        (
            &["-c", "f", "--format", "prometheus"],
            Some(("f", "data", Format::Prometheus)),
        ),
        (&["-c", "f", "--format", "xml"], None),
        (&[], None),
    ];
    for (words, wanted) in cases {
        let mut texts = Vec::new(alloc);
        for word in words {
            texts.push(String::from_str(alloc, word)?)?;
        }
        match (read_words(alloc, &texts), wanted) {
            (Ok(asked), Some((settings, data, format))) => {
                assert_eq!(rt; asked.settings.as_str(), settings);
                assert_eq!(rt; asked.data.as_str(), data);
                assert_eq!(rt; asked.format, format);
            }
            (Err(error), None) => assert_eq!(rt; error.exit_code(), 2),
            _ => assert!(rt; false, "taken, or refused"),
        }
    }
    Ok(())
}

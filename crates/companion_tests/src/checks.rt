//! Checks over objects in memory.

use findings::{
    Asked, Ending, MemHosts, MemSystem, Outside, Place, Skipped, Why, check, read_words,
};
use outside_mem::{Due, MemChange, MemFile, MemFolder, MemSink, MemSource, MemStep};
use std::alloc::Global;
use std::collections::BTreeMap;
use std::test::Fail;
use wire_base::{Blob, Text};

/// Three inputs: one knows its files by inode and device, one by 64 bytes, one by their paths.
const SETTINGS: &str =
    "[[inputs]]\nid = 'w'\npaths = ['/w/*.log', '/w/[!x].log']\nfile_identity = 'native'\n[[inputs]]\nid = 'f'\npaths = ['/f/*.log', '/gone/*']\nfingerprint.length = 64\n[[inputs]]\nid = 'p'\npaths = ['/p/*']\nfile_identity = 'path'\n[output]\nhosts = ['h:1', 'h:2']\n";

/// The inode, the path and the bytes of each file.
const FILES: &[(u64, &str, &[u8])] = &[
    (7, "/w/a.log", b"123456789\n"),
    (7, "/w/b.log", b"123456789\n"),
    (9, "/f/s.log", b"1234\n"),
    (10, "/p/closed", b"1\n"),
];

/// What has which path; nothing has any other.
const PLACES: &[(&str, Place)] = &[
    ("/w", Place::Folder),
    ("/f", Place::Folder),
    ("/p", Place::Folder),
    ("/p/closed", Place::Other),
];

/// What cannot be read; the second is gone meanwhile.
const REFUSALS: &[(&str, &str)] = &[
    ("/p/closed", "not yours"),
    ("/w/a.log", "no such file"),
    ("beat.toml", "not here"),
];

/// What lies below `/p`: a link, a name that is no text, and a folder that cannot be listed.
const SKIPPED: &[(&str, &str)] = &[
    ("/p/link", "link"),
    ("/p", "no text"),
    ("/p/in", "no entry"),
];

const GLOBS: &[&str] = &[
    "input w, native: 2 files \"/w/*.log\"\n",
    "input w, native: 0 files \"/w/[!x].log\"\n",
    "input f, fingerprint of 64 bytes from 0: 1 files \"/f/*.log\"\n",
    "input f, fingerprint of 64 bytes from 0: 0 files \"/gone/*\"\n",
    "input p, path: 1 files \"/p/*\"\n",
];

const FOUND: &[&str] = &[
    "unreadable: 2\n",
    "  \"/p/in\": no entry\n",
    "  \"/p/closed\": not yours\n",
    "too small for a fingerprint: 1\n",
    "  \"/f/s.log\": 5 of 64 bytes\n",
    "doubled by a file before it: 1\n",
    "  \"/w/b.log\"\n",
    "symbolic link: 1\n",
    "  \"/p/link\"\n",
    "folder of a name that is not UTF-8: 1\n",
    "  \"/p\"\n",
    "glob whose folder is absent: 1\n",
    "  \"/gone/*\"\n",
    "glob that finds no file: 1\n",
    "  \"/w/[!x].log\"\n",
    "glob as another tool reads it: 1\n",
    "  \"/w/[!x].log\"\n",
    "warning, known by path and rotated names are covered: 1\n",
    "  \"/p/*\"\n",
    "warning, host that no worker uses: 1\n",
    "  \"h:2\"\n",
    "warning, more files than may be open: 1\n",
    "  \"ulimit -n\": 4 files, limit 35\n",
    "warning, registry that cannot be written: 1\n",
    "  \"data\": full\n",
];

const CONNECTED: &[&str] = &[
    "host that connects: 1\n",
    "  \"h:1\"\n",
    "host that does not connect: 1\n",
    "  \"h:2\": no way\n",
];

/// An object whose first call fails.
#[derive(Clone, Copy)]
enum Failing {
    Nothing,
    Source,
    Folder,
    Sink,
}

/// What a check is given, and what it ends with.
#[derive(Clone, Copy)]
struct Case<'a> {
    settings: &'a str,
    files: &'a [(u64, &'a str, &'a [u8])],
    connect: bool,
    failing: Failing,
    status: u8,
    printed: [&'a [&'a str]; 3],
    told: &'a [&'a str],
}

const PLAIN: Case = Case {
    settings: SETTINGS,
    files: FILES,
    connect: false,
    failing: Failing::Nothing,
    status: 6,
    printed: [GLOBS, FOUND, &[]],
    told: &["\"/p/in\": no entry\n", "\"/p/closed\": not yours\n"],
};

/// Nothing is printed.
const REFUSED: Case = Case {
    printed: [&[], &[], &[]],
    told: &[],
    ..PLAIN
};

const CASES: &[Case] = &[
    PLAIN,
    Case {
        connect: true,
        printed: [GLOBS, FOUND, CONNECTED],
        told: &[
            "\"/p/in\": no entry\n",
            "\"/p/closed\": not yours\n",
            "\"h:2\": no way\n",
        ],
        ..PLAIN
    },
    // one host by itself, which connects, and another that does not
    Case {
        settings: "[[inputs]]\nid = 'w'\npaths = ['/w/*.log']\nfile_identity = 'path'\n[output]\nhosts = ['h:1']\n",
        files: &[],
        connect: true,
        status: 0,
        printed: [
            &["input w, path: 0 files \"/w/*.log\"\n"],
            &[
                "glob that finds no file: 1\n",
                "  \"/w/*.log\"\n",
                "warning, registry that cannot be written: 1\n",
                "  \"data\": full\n",
            ],
            &["host that connects: 1\n", "  \"h:1\"\n"],
        ],
        told: &[],
        ..PLAIN
    },
    Case {
        settings: "[[inputs]]\nid = 'w'\npaths = ['/w/*.log']\nfile_identity = 'path'\n[output]\nhosts = ['h:2']\n",
        files: &[],
        connect: true,
        status: 7,
        printed: [
            &["input w, path: 0 files \"/w/*.log\"\n"],
            &[
                "glob that finds no file: 1\n",
                "  \"/w/*.log\"\n",
                "warning, registry that cannot be written: 1\n",
                "  \"data\": full\n",
            ],
            &["host that does not connect: 1\n", "  \"h:2\": no way\n"],
        ],
        told: &["\"h:2\": no way\n"],
        ..PLAIN
    },
    // a folder could not be listed, so nothing is counted
    Case {
        settings: "[[inputs]]\nid = 'w'\npaths = ['/w/*.log']\nfile_identity = 'path'\n[output]\nhosts = ['h:1']\n",
        failing: Failing::Folder,
        printed: [
            &["input w, path: not counted \"/w/*.log\"\n"],
            &[
                "warning, registry that cannot be written: 1\n",
                "  \"data\": full\n",
            ],
            &[],
        ],
        told: &[],
        ..PLAIN
    },
    Case {
        settings: "[output]\nhosts = ['h']\n",
        status: 3,
        ..REFUSED
    },
    Case {
        settings: "[[inputs]]\nid = 'w'\npaths = [\n '/w/*.log',\n '/w/[',\n]\n[output]\nhosts = ['h']\n",
        status: 3,
        told: &["beat.toml:3: what begins at byte 3 does not end\n"],
        ..REFUSED
    },
    Case {
        settings: "# nothing\n[output]\nhosts = \n",
        status: 3,
        told: &[
            "beat.toml:3: invalid value, expected a string, number, boolean, date-time, array or inline table\n",
        ],
        ..REFUSED
    },
    Case {
        failing: Failing::Sink,
        status: 8,
        ..REFUSED
    },
    Case {
        failing: Failing::Source,
        status: 9,
        told: &["beat.toml: not here\n"],
        ..REFUSED
    },
];

fn text(alloc: Global, words: &str) -> Result<Text, Fail> {
    Ok(Text::from_string(String::from_str(alloc, words)?))
}

fn files_of(alloc: Global, files: &[(u64, &str, &[u8])]) -> Result<Vec<MemFile>, Fail> {
    let mut made = Vec::new(alloc);
    for (inode, path, bytes) in files {
        let mut steps = Vec::new(alloc);
        steps.push(MemStep {
            due: Due::Listings(0),
            change: MemChange::Append(Blob::from_bytes(alloc, bytes)?),
        })?;
        made.push(MemFile {
            path: text(alloc, path)?,
            native: Some((*inode, 1)),
            steps,
        })?;
    }
    Ok(made)
}

/// A table of texts.
fn table(alloc: Global, rows: &[(&str, &str)]) -> Result<BTreeMap<Text, Text>, Fail> {
    let mut made = BTreeMap::new(alloc);
    for (key, value) in rows {
        made.insert(text(alloc, key)?, text(alloc, value)?)?;
    }
    Ok(made)
}

fn skipped(alloc: Global) -> Result<BTreeMap<Text, Vec<Skipped>>, Fail> {
    let mut below = Vec::new(alloc);
    for (path, reason) in SKIPPED {
        let why = match *reason {
            "link" => Why::Link,
            "no text" => Why::NoText,
            reason => Why::Unreadable {
                reason: text(alloc, reason)?,
            },
        };
        let path = text(alloc, path)?;
        below.push(Skipped { path, why })?;
    }
    let mut made = BTreeMap::new(alloc);
    made.insert(text(alloc, "/p")?, below)?;
    Ok(made)
}

fn system(alloc: Global) -> Result<MemSystem, Fail> {
    let mut places = BTreeMap::new(alloc);
    for (path, place) in PLACES {
        places.insert(text(alloc, path)?, *place)?;
    }
    Ok(MemSystem {
        places,
        skipped: skipped(alloc)?,
        refusals: table(alloc, REFUSALS)?,
        write_refusals: table(alloc, &[("data", "full")])?,
        open_limit: Some(35),
    })
}

fn hosts(alloc: Global) -> Result<MemHosts, Fail> {
    let mut refusals = BTreeMap::new(alloc);
    refusals.insert(2, text(alloc, "no way")?)?;
    Ok(MemHosts {
        refusals,
        tried: Vec::new(alloc),
    })
}

/// What the case's check ends with, what it has printed, and what it has reported.
fn look(alloc: Global, case: &Case<'_>) -> Result<(Ending, MemSink, MemSink), Fail> {
    let asked = Asked {
        settings: text(alloc, "beat.toml")?,
        data: text(alloc, "data")?,
        connect: case.connect,
    };
    let mut settings = MemSource::new(alloc, case.settings.as_bytes())?;
    let mut outside = Outside {
        folder: MemFolder::new(alloc, files_of(alloc, case.files)?)?,
        system: system(alloc)?,
        hosts: hosts(alloc)?,
    };
    let mut out = MemSink::new(alloc)?;
    let mut err = MemSink::new(alloc)?;
    match case.failing {
        Failing::Nothing => {}
        Failing::Source => settings.fail_at(&[0])?,
        Failing::Folder => outside.folder.fail_at(&[0])?,
        Failing::Sink => out.fail_at(&[0])?,
    }
    let ending = check(
        alloc,
        &asked,
        &mut settings,
        &mut outside,
        &mut out,
        &mut err,
    );
    Ok((ending, out, err))
}

fn joined(alloc: Global, parts: &[&[&str]]) -> Result<String, Fail> {
    let mut text = String::new(alloc);
    for pieces in parts {
        for piece in *pieces {
            text.push_str(piece)?;
        }
    }
    Ok(text)
}

#[test]
fn checks_tell_what_is_there(rt: HostRuntime) -> Result<(), Fail> {
    for case in CASES {
        let (ending, out, err) = look(rt.alloc(), case)?;
        let wanted = joined(rt.alloc(), &case.printed)?;
        let printed = str::from_utf8(out.bytes()).unwrap_or("no text");
        assert_eq!(rt; printed, wanted.as_str());
        let wanted = joined(rt.alloc(), &[case.told])?;
        let told = str::from_utf8(err.bytes()).unwrap_or("no text");
        assert_eq!(rt; told, wanted.as_str());
        assert_eq!(rt; ending.code(), case.status);
    }
    Ok(())
}

#[test]
fn arguments_are_read(rt: HostRuntime) -> Result<(), Fail> {
    let alloc = rt.alloc();
    let cases: [(&[&str], Option<(&str, &str, bool)>); 4] = [
        (&["-c", "f"], Some(("f", "data", false))),
        (
            &["--connect", "--data", "d", "--config", "f"],
            Some(("f", "d", true)),
        ),
        (&["-c", "f", "--follow"], None),
        (&[], None),
    ];
    for (words, wanted) in cases {
        let mut given = Vec::new(alloc);
        for word in words {
            given.push(String::from_str(alloc, word)?)?;
        }
        match (read_words(alloc, given.as_slice()), wanted) {
            (Ok(asked), Some((settings, data, connect))) => {
                assert_eq!(rt; asked.settings.as_str(), settings);
                assert_eq!(rt; asked.data.as_str(), data);
                assert_eq!(rt; asked.connect, connect);
            }
            (answer, wanted) => {
                assert!(rt; answer.is_err());
                assert!(rt; wanted.is_none());
            }
        }
    }
    Ok(())
}

//! Worked runs over objects in memory.

use outside_mem::{MemClock, MemDisk, MemPiece, MemSink, MemSource, MemTalk, MemWire};
use spool_queue::{Spool, SpoolError, SpoolStatus, spool_run};
use std::alloc::Global;
use std::sync::Wait;
use std::test::Fail;
use wire_base::{Blob, Moment, NoMemory, Text};

/// The spool of `a` and `bb`.
const TWO: &[u8] = b"{0000000001 ea\n{0000000002 ebb\n.";

/// The same with the first of them settled.
const ONE_SETTLED: &[u8] = b"{0000000001 ea\n{0000000002 ebb\n{0000000001 s1\n.";

const PUT: &[&str] = &["put"];

const SEND: &[&str] = &["send", "h"];

/// What a peer does with a window.
#[derive(Clone, Copy)]
enum Peer<'a> {
    Acknowledges,
    /// It gives these bytes, and then closes.
    Closes(&'a [u8]),
    IsSilent,
}

/// What a run is given.
#[derive(Clone, Copy)]
struct Case<'a> {
    words: &'a [&'a str],
    disk: &'a [u8],
    input: &'a [u8],
    peer: Peer<'a>,
    failing_reads: &'a [u64],
    /// after so many calls the disk fails
    disk_calls: u64,
}

/// How a run has ended, and what it has left.
#[derive(Drop)]
struct Ran {
    status: SpoolStatus,
    printed: MemSink,
    disk: MemDisk,
}

fn put<'a>(input: &'a [u8]) -> Case<'a> {
    Case {
        words: PUT,
        disk: b"",
        input,
        peer: Peer::Acknowledges,
        failing_reads: &[],
        disk_calls: u64::MAX,
    }
}

fn send<'a>(disk: &'a [u8], peer: Peer<'a>) -> Case<'a> {
    Case {
        words: SEND,
        disk,
        peer,
        ..put(b"")
    }
}

fn run_of<X: Wait>(rt: &X, alloc: Global, case: Case<'_>) -> Result<Ran, NoMemory> {
    let mut words = Vec::new(alloc);
    for word in case.words {
        words.push(Text::from_string(String::from_str(alloc, word)?))?;
    }
    let mut source = MemSource::new(alloc, case.input)?;
    source.fail_at(case.failing_reads)?;
    let mut wire = MemWire::new(alloc, talks_of(alloc, case.peer)?)?;
    let mut disk = MemDisk::new(alloc, case.disk)?;
    disk.stop_after(case.disk_calls);
    let mut clock = MemClock::new(alloc, Moment(0))?;
    let mut printed = MemSink::new(alloc)?;
    let status = spool_run(
        rt,
        alloc,
        &words,
        &mut source,
        &mut wire,
        &mut disk,
        &mut clock,
        &mut printed,
    );
    Ok(Ran {
        status,
        printed,
        disk,
    })
}

fn talks_of(alloc: Global, peer: Peer<'_>) -> Result<Vec<MemTalk>, NoMemory> {
    let mut pieces = Vec::new(alloc);
    let closes = match peer {
        Peer::Acknowledges => return Ok(Vec::new(alloc)),
        Peer::IsSilent => false,
        Peer::Closes(bytes) => {
            pieces.push(MemPiece {
                windows: 1,
                bytes: Blob::from_bytes(alloc, bytes)?,
            })?;
            true
        }
    };
    let mut talks = Vec::new(alloc);
    talks.push(MemTalk::Pieces { pieces, closes })?;
    Ok(talks)
}

/// The payloads of a spool as it is opened.
fn outstanding_in(alloc: Global, disk: &mut MemDisk) -> Result<Vec<Blob>, SpoolError> {
    let spool = Spool::open(disk)?;
    let mut payloads = Vec::new(alloc);
    for i in 0..spool.outstanding() {
        payloads.push(spool.read(alloc, disk, i)?)?;
    }
    Ok(payloads)
}

fn are(payloads: &[Blob], wanted: &[&[u8]]) -> bool {
    payloads.len() == wanted.len()
        && payloads
            .iter()
            .zip(wanted)
            .all(|(payload, wanted)| payload.bytes() == *wanted)
}

#[test]
fn runs_end_as_told(rt: HostRuntime) -> Result<(), Fail> {
    let failing = Case {
        failing_reads: &[1],
        ..put(b"a\n")
    };
    let bad: &[u8] = b"{0000000001 s1\n.";
    let other = Case {
        words: &["send", "h:0"],
        ..put(b"")
    };
    let first = b"2A\0\0\0\x01";
    let cases: [(Case<'_>, SpoolStatus, &[u8], &[u8]); 13] = [
        (put(b"a\nbb\n"), SpoolStatus::Done, b"spooled 2\n", TWO),
        (
            send(TWO, Peer::Closes(first)),
            SpoolStatus::Unreachable,
            b"sent 1 left 1\n",
            ONE_SETTLED,
        ),
        (
            send(ONE_SETTLED, Peer::Acknowledges),
            SpoolStatus::Done,
            b"sent 1 left 0\n",
            b".",
        ),
        (
            send(TWO, Peer::Acknowledges),
            SpoolStatus::Done,
            b"sent 2 left 0\n",
            b".",
        ),
        (
            send(b"", Peer::IsSilent),
            SpoolStatus::Done,
            b"sent 0 left 0\n",
            b".",
        ),
        // A sign of life first; nothing; a number above the count; no acknowledgement.
        (
            send(TWO, Peer::Closes(b"2A\0\0\0\x002A\0\0\0\x02")),
            SpoolStatus::Done,
            b"sent 2 left 0\n",
            b".",
        ),
        (
            send(TWO, Peer::IsSilent),
            SpoolStatus::Unreachable,
            b"sent 0 left 2\n",
            TWO,
        ),
        (
            send(TWO, Peer::Closes(b"2A\0\0\0\x03")),
            SpoolStatus::Unreachable,
            b"sent 0 left 2\n",
            TWO,
        ),
        (
            send(TWO, Peer::Closes(b"2J")),
            SpoolStatus::Unreachable,
            b"sent 0 left 2\n",
            TWO,
        ),
        // An empty line is put, and what no line feed ends is no line.
        (
            put(b"\na"),
            SpoolStatus::Done,
            b"spooled 1\n",
            b"{0000000000 e\n.",
        ),
        (
            failing,
            SpoolStatus::SourceFault,
            b"spooled 1\n",
            b"{0000000001 ea\n.",
        ),
        (
            Case {
                disk: bad,
                ..put(b"a\n")
            },
            SpoolStatus::SpoolBad { at: 0 },
            b"",
            bad,
        ),
        (other, SpoolStatus::Usage, b"", b""),
    ];
    for (case, status, printed, disk) in cases {
        let ran = run_of(&rt, rt.alloc(), case)?;
        assert_eq!(rt; ran.status, status);
        assert_eq!(rt; ran.printed.bytes(), printed);
        assert_eq!(rt; ran.disk.bytes(), disk);
    }
    Ok(())
}

#[test]
fn stopped_disks_keep_what_is_not_settled(rt: HostRuntime) -> Result<(), Fail> {
    let alloc = rt.alloc();
    let put_lists: &[&[&[u8]]] = &[&[], &[b"a"], &[b"a", b"bb"]];
    let sent_lists: &[&[&[u8]]] = &[&[b"a", b"bb"], &[b"bb"]];
    let rest_lists: &[&[&[u8]]] = &[&[b"bb"], &[]];
    let part = send(TWO, Peer::Closes(b"2A\0\0\0\x01"));
    let rest = send(ONE_SETTLED, Peer::Acknowledges);
    let cases = [
        (put(b"a\nbb\n"), put_lists),
        (part, sent_lists),
        (rest, rest_lists),
    ];
    for (case, lists) in cases {
        for disk_calls in 0..40 {
            let ran = run_of(&rt, alloc, Case { disk_calls, ..case })?;
            for pick in 0..3 {
                let mut image = ran.disk.image(pick)?;
                let allowed = match outstanding_in(alloc, &mut image) {
                    Ok(payloads) => lists.iter().any(|list| are(&payloads, list)),
                    Err(_) => false,
                };
                assert!(rt; allowed, "image {pick} after {disk_calls} calls");
            }
        }
    }
    Ok(())
}

#[test]
fn cut_spools_are_bad(rt: HostRuntime) -> Result<(), Fail> {
    for length in 2..TWO.len() {
        let at = match length {
            0..15 => 0,
            15..31 => 15,
            _ => 31,
        };
        let mut disk = MemDisk::new(rt.alloc(), &TWO[..length])?;
        let opened = outstanding_in(rt.alloc(), &mut disk).map(|payloads| payloads.len());
        assert_eq!(rt; opened, Err(SpoolError::Bad { at }), "cut at {length}");
    }
    Ok(())
}

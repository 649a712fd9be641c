//! Worked runs over what an earlier run left, by their names.

use crate::tests::wanted::{Sent, Wanted, check_left, check_number, check_text};
use crate::tests::world::{
    FINGERPRINT, Later, NATIVE, Object, PLAIN, Peer, Ran, Start, run, run_over,
};
use std::process::Abort;
use std::sync::Wait;
use std::test::Fail;
use std::thread::Threads;

/// A run over the areas of an earlier one, and what it has to leave.
#[derive(Clone, Copy)]
struct Restart<'a> {
    name: &'a str,
    first: Start<'a>,
    second: Start<'a>,
    wanted: Wanted<'a>,
}

/// What a run leaves that finds nothing more to send.
const NOTHING_MORE: Wanted = Wanted {
    status: 0,
    rows: Some("file \"filestream::w::path::/w/a.log\" 0 4 \"/w/a.log\"\n"),
    printed: "shipped 0 dropped 0\nstatus 0 done\n",
    sent: Sent::Events(0),
    moment: Some(0),
};

const SAME_FILE: Restart = Restart {
    name: "same_file",
    first: PLAIN,
    second: PLAIN,
    wanted: NOTHING_MORE,
};

const GROWN_FILE: Restart = Restart {
    name: "grown_file",
    second: Start {
        files: &[("/w/a.log", b"a\nb\nc\n", &[])],
        ..PLAIN
    },
    wanted: Wanted {
        rows: Some("file \"filestream::w::path::/w/a.log\" 0 6 \"/w/a.log\"\n"),
        printed: "shipped 1 dropped 0\nstatus 0 done\n",
        sent: Sent::Lines(&[(4, "c")]),
        ..NOTHING_MORE
    },
    ..SAME_FILE
};

const SHORTER_FILE: Restart = Restart {
    name: "shorter_file",
    second: Start {
        files: &[("/w/a.log", b"c\n", &[])],
        ..PLAIN
    },
    wanted: Wanted {
        rows: Some("file \"filestream::w::path::/w/a.log\" 1 2 \"/w/a.log\"\n"),
        printed: "shipped 1 dropped 0\nstatus 0 done\n",
        sent: Sent::Lines(&[(0, "c")]),
        ..NOTHING_MORE
    },
    ..SAME_FILE
};

const ROW_OF_ABSENT_FILE_GOES: Restart = Restart {
    name: "row_of_absent_file_goes",
    second: Start {
        files: &[],
        ..PLAIN
    },
    wanted: Wanted {
        rows: Some(""),
        ..NOTHING_MORE
    },
    ..SAME_FILE
};

/// Its peer is away, and the row of the absent file goes all the same.
const OTHER_FILE: Restart = Restart {
    name: "other_file",
    second: Start {
        output: "attempts = 1",
        failing: &[(Object::Wire, 0)],
        files: &[("/w/b.log", b"c\n", &[])],
        ..PLAIN
    },
    wanted: Wanted {
        status: 7,
        rows: Some("file \"filestream::w::path::/w/b.log\" 0 0 \"/w/b.log\"\n"),
        printed: "status 7 unreachable worker 0 failures 1\n",
        sent: Sent::Events(0),
        ..NOTHING_MORE
    },
    ..SAME_FILE
};

/// The input keeps the rows of its removed files.
const ROW_IS_KEPT: Restart = Restart {
    name: "row_is_kept",
    second: Start {
        input: "clean_removed = false",
        files: &[("/w/b.log", b"c\n", &[])],
        ..PLAIN
    },
    wanted: Wanted {
        rows: Some(
            "file \"filestream::w::path::/w/a.log\" 0 4 \"/w/a.log\"\nfile \"filestream::w::path::/w/b.log\" 0 2 \"/w/b.log\"\n",
        ),
        printed: "shipped 1 dropped 0\nstatus 0 done\n",
        sent: Sent::Events(1),
        ..NOTHING_MORE
    },
    ..SAME_FILE
};

/// The settings have no input of the row's key, whose id only begins like that of theirs.
const ROW_OF_NO_INPUT_STAYS: Restart = Restart {
    name: "row_of_no_input_stays",
    second: Start {
        settings: Some(
            "[[inputs]]\nid = 'ww'\npaths = ['/v/*.log']\nfile_identity = 'path'\n[output]\nhosts = ['h:5044']\n",
        ),
        ..PLAIN
    },
    wanted: NOTHING_MORE,
    ..SAME_FILE
};

/// It keeps its inode and device.
const RENAMED_FILE: Restart = Restart {
    name: "renamed_file",
    first: NATIVE,
    second: Start {
        files: &[("/w/b.log", b"a\nb\n", &[])],
        ..NATIVE
    },
    wanted: Wanted {
        rows: Some("file \"filestream::w::native::7-1\" 0 4 \"/w/b.log\"\n"),
        ..NOTHING_MORE
    },
};

/// It keeps its first 112 bytes, and grows after them.
const RENAMED_BY_FINGERPRINT: Restart = Restart {
    name: "renamed_by_fingerprint",
    first: FINGERPRINT,
    second: Start {
        files: &[(
            "/w/b.log",
            b"abcdefghbcdefghicdefghijdefghijkefghijklfghijklmghijklmnhijklmnoijklmnopjklmnopqklmnopqrlmnopqrsmnopqrstnopqrstu\nb\n",
            &[],
        )],
        ..FINGERPRINT
    },
    wanted: Wanted {
        rows: Some(
            "file \"filestream::w::fingerprint::cf5b16a778af8380036ce59e7b0492370b249b11e8f07a51afac45037afee9d1\" 0 115 \"/w/b.log\"\n",
        ),
        printed: "shipped 1 dropped 0\nstatus 0 done\n",
        sent: Sent::Events(1),
        ..NOTHING_MORE
    },
};

/// It cannot be opened again, and keeps its row; the other file is shipped, and the row of the removed one goes.
const ROW_OF_UNOPENED_FILE_STAYS: Restart = Restart {
    name: "row_of_unopened_file_stays",
    first: Start {
        files: &[
            ("/w/a.log", b"a\nb\n", &[]),
            ("/w/b.log", b"c\n", &[]),
            ("/w/c.log", b"d\n", &[]),
        ],
        ..PLAIN
    },
    second: Start {
        files: &[
            ("/w/a.log", b"a\nb\ne\n", &[]),
            ("/w/b.log", b"c\nf\n", &[]),
        ],
        failing: &[(Object::Folder, 1)],
        ..PLAIN
    },
    wanted: Wanted {
        status: 6,
        rows: Some(
            "file \"filestream::w::path::/w/a.log\" 0 4 \"/w/a.log\"\nfile \"filestream::w::path::/w/b.log\" 0 4 \"/w/b.log\"\n",
        ),
        printed: "status 6 folder fault\n",
        sent: Sent::Events(1),
        ..NOTHING_MORE
    },
};

/// That of the file in `FINGERPRINT`.
const LONG_LINE: &[u8] =
    b"abcdefghbcdefghicdefghijdefghijkefghijklfghijklmghijklmnhijklmnoijklmnopjklmnopqklmnopqrlmnopqrsmnopqrstnopqrstu\n";

const OTHER_LINE: &[u8] =
    b"the second file, of which the first hundred and twelve bytes are this one line, and then come those of the next.\n";

/// The scan takes its fingerprint by one read. After that it is cut and written anew, so the second asking needs two reads, of which the
/// last fails.
const FAULT_AS_ITS_KEY_IS_ASKED_AGAIN: Restart = Restart {
    name: "fault_as_its_key_is_asked_again",
    first: FINGERPRINT,
    second: Start {
        files: &[
            (
                "/w/a.log",
                LONG_LINE,
                &[Later::Cut(1), Later::Grows(1, b"a")],
            ),
            ("/w/b.log", OTHER_LINE, &[]),
        ],
        failing: &[(Object::Tail, 1)],
        ..FINGERPRINT
    },
    wanted: Wanted {
        status: 6,
        rows: Some(
            "file \"filestream::w::fingerprint::4acacbb8da55b66a38e40910d7b15b522c079cb9bee9ef177e2396de38a3211d\" 0 113 \"/w/b.log\"\nfile \"filestream::w::fingerprint::cf5b16a778af8380036ce59e7b0492370b249b11e8f07a51afac45037afee9d1\" 0 113 \"/w/a.log\"\n",
        ),
        printed: "status 6 folder fault\n",
        sent: Sent::Events(1),
        ..NOTHING_MORE
    },
};

const UNREACHABLE_BEFORE: Restart = Restart {
    name: "unreachable_before",
    first: Start {
        failing: &[(Object::Wire, 0), (Object::Wire, 1), (Object::Wire, 2)],
        ..PLAIN
    },
    wanted: Wanted {
        printed: "shipped 2 dropped 0\nstatus 0 done\n",
        sent: Sent::Lines(&[(0, "a"), (2, "b")]),
        ..NOTHING_MORE
    },
    ..SAME_FILE
};

/// The first run ends as its peer had acknowledged one line of two.
const PARTLY_ACKNOWLEDGED_BEFORE: Restart = Restart {
    name: "partly_acknowledged_before",
    first: Start {
        output: "bulk_max_size = 2\npipelining = 1\nattempts = 1",
        peer: Peer::Closes(b"2A\0\0\0\x01"),
        failing: &[(Object::Wire, 1)],
        ..PLAIN
    },
    wanted: Wanted {
        printed: "shipped 1 dropped 0\nstatus 0 done\n",
        sent: Sent::Lines(&[(2, "b")]),
        ..NOTHING_MORE
    },
    ..SAME_FILE
};

const RESTARTS: &[Restart] = &[
    SAME_FILE,
    GROWN_FILE,
    SHORTER_FILE,
    ROW_OF_ABSENT_FILE_GOES,
    OTHER_FILE,
    ROW_IS_KEPT,
    ROW_OF_NO_INPUT_STAYS,
    RENAMED_FILE,
    RENAMED_BY_FINGERPRINT,
    ROW_OF_UNOPENED_FILE_STAYS,
    FAULT_AS_ITS_KEY_IS_ASKED_AGAIN,
    UNREACHABLE_BEFORE,
    PARTLY_ACKNOWLEDGED_BEFORE,
];

/// Makes a run, and one over the areas that it leaves.
fn run_again<X: Threads + Wait + Sync + AllocGlobal>(
    rt: &X,
    first: Start,
    second: Start,
) -> Result<Ran, Fail> {
    let objects = run(rt, first)?.objects;
    run_over(rt, second, objects.area, objects.other_area)
}

#[test]
fn rows_are_taken_up(rt: HostRuntime) -> Result<(), Fail> {
    for restart in RESTARTS {
        let second = run_again(&rt, restart.first, restart.second)?;
        check_left(&rt, restart.name, second, "", restart.wanted)?;
    }
    Ok(())
}

/// How many calls of a disk a run over two plain lines makes at the most.
const MOST_CALLS: u64 = 24;

/// How many images of a stopped disk are taken up, of those that a crash may leave.
const PICKS: u64 = 4;

/// The row of the whole file.
const LAST_ROW: &str = "file \"filestream::w::path::/w/a.log\" 0 4 \"/w/a.log\"\n";

/// Makes a run whose disk stops after this many calls, and one over what a crash leaves there.
fn crash<X: Threads + Wait + Sync + AllocGlobal>(
    rt: &X,
    calls: u64,
    pick: u64,
) -> Result<(Ran, Ran), Fail> {
    let start = Start {
        stop_after: Some(calls),
        ..PLAIN
    };
    let first = run(rt, start)?;
    let area = first.objects.area.image(pick)?;
    let other_area = first.objects.other_area.image(pick)?;
    let second = run_over(rt, PLAIN, area, other_area)?;
    Ok((first, second))
}

/// The second run ends with the row of the whole file, and each line was sent by one of the two.
fn check_taken_up<X: AllocGlobal + Abort>(
    rt: &X,
    case: &str,
    first: &Ran,
    second: &mut Ran,
) -> Result<(), Fail> {
    let alloc = rt.alloc();
    check_number(rt, "exit status", case, second.code(), 0);
    let sent = first.payloads(alloc)?.len() + second.payloads(alloc)?.len();
    assert!(rt; sent >= 2, "events: {case}");
    check_text(rt, "rows", case, second.stored(alloc)?.as_str(), LAST_ROW);
    Ok(())
}

/// Makes both runs for each image that a crash may leave.
fn check_crash<X: Threads + Wait + Sync + AllocGlobal + Abort>(
    rt: &X,
    calls: u64,
) -> Result<(), Fail> {
    for pick in 0..PICKS {
        let case = format!(in rt.alloc(); "behind {calls} calls, pick {pick}")?;
        let (first, mut second) = crash(rt, calls, pick)?;
        check_taken_up(rt, case.as_str(), &first, &mut second)?;
    }
    Ok(())
}

/// Wherever the disk stops, and whatever a crash leaves there, a run over it ends with the same row, and
/// each line was sent by one of the two.
#[test]
fn each_crash_is_taken_up(rt: HostRuntime) -> Result<(), Fail> {
    for calls in 0..MOST_CALLS {
        check_crash(&rt, calls)?;
    }
    Ok(())
}

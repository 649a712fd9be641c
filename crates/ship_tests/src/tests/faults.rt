//! Objects that fail, and peers that break the protocol, close or fall silent.

use crate::tests::wanted::{Case, Sent, Wanted, check_each, check_number, check_text};
use crate::tests::world::{Object, PLAIN, Peer, Ran, Start, run};
use registry_store::Store;
use std::alloc::Global;
use std::process::Abort;
use std::sync::Wait;
use std::test::Fail;
use std::thread::Threads;
use wire_base::Text;

const ROW_AT_0: &str = "file \"filestream::w::path::/w/a.log\" 0 0 \"/w/a.log\"\n";

const ROW_AT_2: &str = "file \"filestream::w::path::/w/a.log\" 0 2 \"/w/a.log\"\n";

const ROW_AT_4: &str = "file \"filestream::w::path::/w/a.log\" 0 4 \"/w/a.log\"\n";

/// The whole report of a run that ships all.
const DONE: &str =
    "file \"filestream::w::path::/w/a.log\" 0 4 \"/w/a.log\"\nshipped 2 dropped 0\nstatus 0 done\n";

const UNREACHABLE: &str = "status 7 unreachable worker 0 failures 1\n";

/// One failure ends the run.
const ONE_ATTEMPT: Start = Start {
    output: "attempts = 1",
    ..PLAIN
};

/// So does silence of a second, and each window has one event.
const ONE_SECOND: Start = Start {
    output: "attempts = 1\ntimeout = '1s'\nbulk_max_size = 1\npipelining = 1",
    ..PLAIN
};

/// The run ends with status 7 at once, and nothing was acknowledged.
const GIVEN_UP: Wanted = Wanted {
    status: 7,
    rows: Some(ROW_AT_0),
    printed: UNREACHABLE,
    sent: Sent::Open,
    moment: Some(0),
};

const NO_FRAME: Case = Case {
    name: "no frame",
    start: Start {
        peer: Peer::Closes(b"3"),
        ..ONE_ATTEMPT
    },
    wanted: GIVEN_UP,
};

const COMPRESSED: Case = Case {
    name: "a compressed frame behind an acknowledgement",
    start: Start {
        peer: Peer::FallsSilent(b"2A\0\0\0\x012C"),
        ..ONE_SECOND
    },
    wanted: Wanted {
        rows: Some(ROW_AT_2),
        ..GIVEN_UP
    },
};

const ABOVE_THE_WINDOW: Case = Case {
    name: "above the window",
    start: Start {
        peer: Peer::Closes(b"2A\0\0\0\x03"),
        ..ONE_ATTEMPT
    },
    wanted: GIVEN_UP,
};

const CLOSED_BEHIND_A_PART: Case = Case {
    name: "closed behind a part",
    start: Start {
        peer: Peer::Closes(b"2A\0\0\0\x01"),
        ..ONE_ATTEMPT
    },
    wanted: Wanted {
        rows: Some(ROW_AT_2),
        ..GIVEN_UP
    },
};

const SILENT_WITHIN_AN_ANSWER: Case = Case {
    name: "silent within an answer",
    start: Start {
        peer: Peer::FallsSilent(b"2A\0\0"),
        ..ONE_SECOND
    },
    wanted: Wanted {
        sent: Sent::Lines(&[(0, "a")]),
        moment: Some(1_000),
        ..GIVEN_UP
    },
};

const SILENT_BEHIND_THE_FIRST_WINDOW: Case = Case {
    name: "silent behind the first window",
    start: Start {
        peer: Peer::FallsSilent(b"2A\0\0\0\x01"),
        ..ONE_SECOND
    },
    wanted: Wanted {
        rows: Some(ROW_AT_2),
        sent: Sent::Lines(&[(0, "a"), (2, "b")]),
        moment: Some(1_000),
        ..GIVEN_UP
    },
};

const STOPPED_WHILE_SILENT: Case = Case {
    name: "the bell rings while the peer is silent",
    start: Start {
        quiet: 5,
        peer: Peer::FallsSilent(b"2A\0\0\0\x01"),
        ..ONE_SECOND
    },
    wanted: Wanted {
        status: 1,
        rows: Some(ROW_AT_2),
        printed: "shipped 1 dropped 0\nstatus 1 stopped\n",
        sent: Sent::Lines(&[(0, "a"), (2, "b")]),
        // in how many of these rounds nothing moved is left open
        moment: None,
    },
};

const PEERS: &[Case] = &[
    NO_FRAME,
    COMPRESSED,
    ABOVE_THE_WINDOW,
    CLOSED_BEHIND_A_PART,
    SILENT_WITHIN_AN_ANSWER,
    SILENT_BEHIND_THE_FIRST_WINDOW,
    STOPPED_WHILE_SILENT,
];

#[test]
fn acknowledged_lines_are_kept_whatever_the_peer_does(rt: HostRuntime) -> Result<(), Fail> {
    check_each(&rt, PEERS)
}

/// More calls than a run makes of any object.
const CALLS: u64 = 64;

/// How many calls of the first worker's wire and link fail, one in each run.
const PEER_CALLS: u64 = 6;

/// The objects, and what the run ends with if one of their calls ends it: the exit status and
/// the line.
const OBJECTS: [(Object, u8, &str); 9] = [
    (Object::Source, 9, "status 9 source fault\n"),
    (Object::Area, 5, "status 5 disk fault\n"),
    (Object::OtherArea, 5, "status 5 disk fault\n"),
    (Object::Folder, 6, "status 6 folder fault\n"),
    (Object::Tail, 6, "status 6 folder fault\n"),
    (Object::Wire, 7, UNREACHABLE),
    (Object::LinkSend, 7, UNREACHABLE),
    (Object::LinkReceive, 7, UNREACHABLE),
    (Object::Sink, 8, ""),
];

/// Whether the rows are none, or the one of the file at an end of a line.
fn is_front(rows: &str) -> bool {
    rows.is_empty() || rows == ROW_AT_0 || rows == ROW_AT_2 || rows == ROW_AT_4
}

/// What a run with a fault leaves.
#[derive(Drop)]
struct Left {
    code: u64,
    rows: String,
    printed: Text,
}

/// Makes a run in which a call fails.
fn left_by<X: Threads + Wait + Sync + AllocGlobal>(rt: &X, start: Start) -> Result<Left, Fail> {
    let alloc = rt.alloc();
    let mut ran = run(rt, start)?;
    use_up(alloc, &mut ran);
    Ok(Left {
        code: ran.code(),
        rows: ran.stored(alloc)?,
        printed: ran.printed(alloc)?,
    })
}

/// A call of an area that the run did not come to fails in one of these.
fn use_up(alloc: Global, ran: &mut Ran) {
    for _i in 0..CALLS {
        let _ = Store::open(alloc, &mut ran.objects.area, &mut ran.objects.other_area);
    }
}

/// The run ended with the status of the call's object, or, if it needs no such call or has a further
/// attempt, with 0. True if the fault ended it.
fn is_ended(rt: &impl Abort, left: &Left, status: u8, line: &str) -> bool {
    let (rows, printed) = (left.rows.as_str(), left.printed.as_str());
    if left.code == 8 {
        assert!(rt; DONE.starts_with(printed), "printed: {printed}");
        return true;
    }
    if left.code == status as u64 {
        check_text(rt, "printed", line, printed, line);
        assert!(rt; is_front(rows), "rows behind {line}: {rows}");
        return true;
    }
    check_number(rt, "exit status in place of the line", line, left.code, 0);
    check_text(rt, "rows in place of the line", line, rows, ROW_AT_4);
    check_text(rt, "printed in place of the line", line, printed, DONE);
    false
}

/// Makes a run in which a call fails, and says whether the fault ended it.
fn ends<X: Threads + Wait + Sync + AllocGlobal + Abort>(
    rt: &X,
    start: Start,
    status: u8,
    line: &str,
) -> Result<bool, Fail> {
    Ok(is_ended(rt, &left_by(rt, start)?, status, line))
}

/// How many calls of this object end the run if they fail: the first ones, each in a run of its
/// own.
fn ending_calls<X: Threads + Wait + Sync + AllocGlobal + Abort>(
    rt: &X,
    object: Object,
    status: u8,
    line: &str,
) -> Result<u64, Fail> {
    for call in 0..CALLS {
        let failing = [(object, call)];
        let start = Start {
            failing: &failing,
            ..ONE_ATTEMPT
        };
        if !ends(rt, start, status, line)? {
            return Ok(call);
        }
    }
    Ok(CALLS)
}

#[test]
fn each_fault_ends_the_run_by_its_object(rt: HostRuntime) -> Result<(), Fail> {
    for (object, status, line) in OBJECTS {
        let calls = ending_calls(&rt, object, status, line)?;
        assert!(&rt; 0 < calls && calls < CALLS, "{calls} calls, with {line}");
    }
    Ok(())
}

/// Whether the run ends with 5 and has stored no row, as this call of its area fails. It has sent nothing then.
fn is_unstored<X: Threads + Wait + Sync + AllocGlobal + Abort>(
    rt: &X,
    start: Start,
    call: u64,
) -> Result<bool, Fail> {
    let alloc = rt.alloc();
    let failing = [(Object::Area, call)];
    let mut ran = run(
        rt,
        Start {
            failing: &failing,
            ..start
        },
    )?;
    use_up(alloc, &mut ran);
    let is_unstored = ran.code() == 5 && ran.stored(alloc)?.is_empty();
    let sent = ran.payloads(alloc)?.len();
    assert!(rt;
        !is_unstored || sent == 0,
        "{sent} events are sent, though call {call} of the area fails"
    );
    Ok(is_unstored)
}

/// How many calls of its area a run makes before it has stored a row: the first ones fail, each in a run of its own.
fn calls_before_a_row<X: Threads + Wait + Sync + AllocGlobal + Abort>(
    rt: &X,
    start: Start,
) -> Result<u64, Fail> {
    for call in 0..CALLS {
        if !is_unstored(rt, start, call)? {
            return Ok(call);
        }
    }
    Ok(CALLS)
}

/// There is nothing to store.
const NO_FILE: Start = Start {
    files: &[],
    ..PLAIN
};

#[test]
fn nothing_is_sent_before_its_row_is_stored(rt: HostRuntime) -> Result<(), Fail> {
    let opening = calls_before_a_row(&rt, NO_FILE)?;
    let storing = calls_before_a_row(&rt, PLAIN)?;
    assert!(&rt;
        opening < storing && storing < CALLS,
        "{opening} calls to open, {storing} to store"
    );
    Ok(())
}

#[test]
fn failures_of_a_peer_are_made_good(rt: HostRuntime) -> Result<(), Fail> {
    for object in [Object::Wire, Object::LinkSend, Object::LinkReceive] {
        for call in 0..PEER_CALLS {
            let failing = [(object, call)];
            let start = Start {
                output: "workers = 2",
                failing: &failing,
                ..PLAIN
            };
            let ended = ends(&rt, start, 7, "")?;
            assert!(&rt; !ended, "call {call} of the first worker's peer");
        }
    }
    Ok(())
}

use crate::tests::workers::rig::{Rig, Sizes};
use crate::tests::workers::rows::{Row, Turns, follow};
use crate::tests::workers::scripts::{Script, bytes_sent, first_sent, scripted};
use batch_worker::{Failure, WorkerTurn};
use std::alloc::Global;
use std::process::Abort;
use std::sync::Wait;
use std::test::Fail;
use wire_base::Moment;

/// How many small events are under way together.
const MANY: usize = 500;

#[test]
fn parcels_go_out_and_are_posted(rt: HostRuntime) -> Result<(), Fail> {
    let sizes = Sizes {
        most: 512,
        depth: 1,
        places: 512,
    };
    let mut wire = scripted(rt.alloc(), &[])?;
    let mut rig = Rig::new(rt.alloc(), sizes, 0)?;
    let loaded = rig.load(&rt, rt.alloc(), &[b'x'; MANY], 120);
    let answer = rig.until(&rt, &mut wire, 0);
    let posted = rig.count_posted(&rt) as usize;
    rig.end(&mut wire);
    assert!(rt; loaded && answer == WorkerTurn::Idle && posted == MANY);
    // the frame of the window, and those of its events
    assert!(rt; bytes_sent(&wire) == 6 + 130 * MANY as u64);
    Ok(())
}

/// The most parcels of a window, the most windows in flight, and how many notes the box holds.
type Measures = (u32, u32, u32);

/// A worker, what the peers of its links do, the calls that fail as it connects, what comes of it, and what is sent first over
/// the link that is finished last.
struct Case {
    name: &'static str,
    measures: Measures,
    scripts: &'static [Script<'static>],
    refused: &'static [u64],
    rows: &'static [Row<'static>],
    sent: Option<&'static [u8]>,
}

const ABC: &[u8] =
    b"2W\0\0\0\x032J\0\0\0\x01\0\0\0\x01a2J\0\0\0\x02\0\0\0\x01b2J\0\0\0\x03\0\0\0\x01c";

const BC: &[u8] = b"2W\0\0\0\x022J\0\0\0\x01\0\0\0\x01b2J\0\0\0\x02\0\0\0\x01c";

const SINGLE: Measures = (1, 1, 8);

const PAIRS: Measures = (2, 2, 8);

const THREES: Measures = (3, 1, 8);

const ONE_PLACE: Measures = (3, 1, 1);

const REFUSED: WorkerTurn = WorkerTurn::Failed(Failure::Connect);

const CLOSED: WorkerTurn = WorkerTurn::Failed(Failure::Closed);

/// Rests of 1, 2, 4, 8, 16, 32 and 60 seconds, and no longer one.
const RESTS: &[Row] = &[
    (0, b"a", Turns::One, REFUSED, b"", 1),
    (
        999,
        b"",
        Turns::One,
        WorkerTurn::Resting {
            until: Moment(1_000),
        },
        b"",
        1,
    ),
    (1_000, b"", Turns::One, REFUSED, b"", 2),
    (
        2_999,
        b"",
        Turns::One,
        WorkerTurn::Resting {
            until: Moment(3_000),
        },
        b"",
        2,
    ),
    (3_000, b"", Turns::One, REFUSED, b"", 3),
    (7_000, b"", Turns::One, REFUSED, b"", 4),
    (15_000, b"", Turns::One, REFUSED, b"", 5),
    (31_000, b"", Turns::One, REFUSED, b"", 6),
    (
        62_999,
        b"",
        Turns::One,
        WorkerTurn::Resting {
            until: Moment(63_000),
        },
        b"",
        6,
    ),
    (63_000, b"", Turns::One, REFUSED, b"", 7),
    (
        122_999,
        b"",
        Turns::One,
        WorkerTurn::Resting {
            until: Moment(123_000),
        },
        b"",
        7,
    ),
    (123_000, b"", Turns::One, REFUSED, b"", 8),
    (183_000, b"", Turns::One, REFUSED, b"", 9),
    (
        242_999,
        b"",
        Turns::One,
        WorkerTurn::Resting {
            until: Moment(243_000),
        },
        b"",
        9,
    ),
    (243_000, b"", Turns::All, WorkerTurn::Idle, b"a", 0),
];

/// The window is begun, out, and waited for; over the second link a sign of life comes at 7,000.
const SILENCES: &[Row] = &[
    (100, b"a", Turns::One, WorkerTurn::Worked, b"", 0),
    (200, b"", Turns::One, WorkerTurn::Worked, b"", 0),
    (5_199, b"", Turns::One, WorkerTurn::NotYet, b"", 0),
    (
        5_200,
        b"",
        Turns::One,
        WorkerTurn::Failed(Failure::TimedOut {
            since: Moment(200),
            now: Moment(5_200),
        }),
        b"",
        1,
    ),
    (6_200, b"", Turns::One, WorkerTurn::Worked, b"", 1),
    (6_300, b"", Turns::One, WorkerTurn::Worked, b"", 1),
    (7_000, b"", Turns::One, WorkerTurn::Worked, b"", 1),
    (11_999, b"", Turns::One, WorkerTurn::NotYet, b"", 1),
    (
        12_000,
        b"",
        Turns::One,
        WorkerTurn::Failed(Failure::TimedOut {
            since: Moment(7_000),
            now: Moment(12_000),
        }),
        b"",
        2,
    ),
];

/// Two windows are begun and sent; then each acknowledgement is heard.
const PARTS: &[Row] = &[
    (0, b"abc", Turns::One, WorkerTurn::Worked, b"", 0),
    (0, b"", Turns::One, WorkerTurn::Worked, b"", 0),
    (0, b"", Turns::One, WorkerTurn::Worked, b"", 0),
    (0, b"", Turns::One, WorkerTurn::Worked, b"", 0),
    (0, b"", Turns::One, WorkerTurn::Worked, b"a", 0),
    (0, b"", Turns::One, WorkerTurn::Worked, b"b", 0),
    (0, b"", Turns::One, WorkerTurn::Worked, b"c", 0),
    (0, b"", Turns::One, WorkerTurn::Idle, b"", 0),
];

/// The first peer acknowledges more than there was.
const FAULT: &[Row] = &[(
    0,
    b"abc",
    Turns::All,
    WorkerTurn::Failed(Failure::Peer { at: 5 }),
    b"",
    1,
)];

/// The second one breaks the protocol by its first byte.
const TWO_FAULTS: &[Row] = &[
    (
        0,
        b"abc",
        Turns::All,
        WorkerTurn::Failed(Failure::Peer { at: 5 }),
        b"",
        1,
    ),
    (
        999,
        b"",
        Turns::All,
        WorkerTurn::Resting {
            until: Moment(1_000),
        },
        b"",
        1,
    ),
    (
        1_000,
        b"",
        Turns::All,
        WorkerTurn::Failed(Failure::Peer { at: 0 }),
        b"",
        2,
    ),
];

/// The third one acknowledges all.
const FAULTS: &[Row] = &[
    (
        0,
        b"abc",
        Turns::All,
        WorkerTurn::Failed(Failure::Peer { at: 5 }),
        b"",
        1,
    ),
    (
        999,
        b"",
        Turns::All,
        WorkerTurn::Resting {
            until: Moment(1_000),
        },
        b"",
        1,
    ),
    (
        1_000,
        b"",
        Turns::All,
        WorkerTurn::Failed(Failure::Peer { at: 0 }),
        b"",
        2,
    ),
    (
        2_999,
        b"",
        Turns::All,
        WorkerTurn::Resting {
            until: Moment(3_000),
        },
        b"",
        2,
    ),
    (3_000, b"", Turns::All, WorkerTurn::Idle, b"abc", 0),
];

/// The second window is without what was acknowledged of the first.
const NOT_AGAIN: &[Row] = &[
    (0, b"abc", Turns::All, CLOSED, b"a", 1),
    (1_000, b"", Turns::All, WorkerTurn::Idle, b"bc", 0),
];

/// A frame that begins before the window of b is out ends after it.
const EARLY: &[Row] = &[(0, b"ab", Turns::All, WorkerTurn::NotYet, b"a", 0)];

/// Each is a window of its own, and the third one waits for the first.
const SLOWLY: &[Row] = &[
    (0, b"", Turns::All, WorkerTurn::Idle, b"", 0),
    (0, b"a", Turns::All, WorkerTurn::NotYet, b"", 0),
    (0, b"b", Turns::All, WorkerTurn::NotYet, b"a", 0),
    (0, b"c", Turns::All, WorkerTurn::Idle, b"bc", 0),
];

/// One note at a time has room.
const NOTE_BY_NOTE: &[Row] = &[
    (0, b"abc", Turns::All, WorkerTurn::Held, b"a", 0),
    (0, b"", Turns::All, WorkerTurn::Held, b"b", 0),
    (0, b"", Turns::All, WorkerTurn::Idle, b"c", 0),
];

const CASES: &[Case] = &[
    Case {
        name: "unreachable_after_rests",
        measures: SINGLE,
        scripts: &[],
        refused: &[0, 1, 2, 3, 4, 5, 6, 7, 8],
        rows: RESTS,
        sent: None,
    },
    Case {
        name: "silent_peer_times_out",
        measures: SINGLE,
        scripts: &[
            Script {
                pieces: &[],
                closes: false,
            },
            Script {
                pieces: &[(1, b"2A\0\0\0\0")],
                closes: false,
            },
        ],
        refused: &[],
        rows: SILENCES,
        sent: None,
    },
    Case {
        name: "partial_acknowledgements",
        measures: PAIRS,
        scripts: &[Script {
            pieces: &[
                (2, b"2A\0\0\0\x01"),
                (2, b"2A\0\0\0\x02"),
                (2, b"2A\0\0\0\x01"),
            ],
            closes: false,
        }],
        refused: &[],
        rows: PARTS,
        sent: None,
    },
    Case {
        name: "peer_fault_then_again, over the first link",
        measures: THREES,
        scripts: &[
            Script {
                pieces: &[(1, b"2A\0\0\0\x04")],
                closes: false,
            },
            Script {
                pieces: &[(1, b"3")],
                closes: false,
            },
        ],
        refused: &[],
        rows: FAULT,
        sent: Some(ABC),
    },
    Case {
        name: "peer_fault_then_again, over the second link",
        measures: THREES,
        scripts: &[
            Script {
                pieces: &[(1, b"2A\0\0\0\x04")],
                closes: false,
            },
            Script {
                pieces: &[(1, b"3")],
                closes: false,
            },
        ],
        refused: &[],
        rows: TWO_FAULTS,
        sent: Some(ABC),
    },
    Case {
        name: "peer_fault_then_again",
        measures: THREES,
        scripts: &[
            Script {
                pieces: &[(1, b"2A\0\0\0\x04")],
                closes: false,
            },
            Script {
                pieces: &[(1, b"3")],
                closes: false,
            },
        ],
        refused: &[],
        rows: FAULTS,
        sent: Some(ABC),
    },
    Case {
        name: "acknowledged_parcels_are_not_sent_again",
        measures: PAIRS,
        scripts: &[Script {
            pieces: &[(2, b"2A\0\0\0\x01")],
            closes: true,
        }],
        refused: &[],
        rows: NOT_AGAIN,
        sent: Some(BC),
    },
    Case {
        name: "early_bytes_acknowledge_nothing",
        measures: SINGLE,
        scripts: &[Script {
            pieces: &[(1, b"2A\0\0\0\x012A"), (2, b"\0\0\0\x01")],
            closes: false,
        }],
        refused: &[],
        rows: EARLY,
        sent: None,
    },
    Case {
        name: "queue_gives_parcels_slowly",
        measures: PAIRS,
        scripts: &[Script {
            pieces: &[(2, b"2A\0\0\0\x01"), (3, b"2A\0\0\0\x012A\0\0\0\x01")],
            closes: false,
        }],
        refused: &[],
        rows: SLOWLY,
        sent: None,
    },
    Case {
        name: "box_of_one_place",
        measures: ONE_PLACE,
        scripts: &[],
        refused: &[],
        rows: NOTE_BY_NOTE,
        sent: None,
    },
];

/// What comes of the worker is what the case says.
fn check<R: Wait + Abort>(rt: &R, alloc: Global, case: &Case) -> Result<(), Fail> {
    let (most, depth, places) = case.measures;
    assert!(rt; 0 < most && 0 < depth && 0 < places);
    let sizes = Sizes {
        most,
        depth,
        places,
    };
    let mut wire = scripted(alloc, case.scripts)?;
    wire.fail_at(case.refused)?;
    follow(rt, alloc, &mut wire, sizes, case.rows)?;
    if let Some(sent) = case.sent {
        assert!(rt; first_sent(&wire) == sent, "{}", case.name);
    }
    Ok(())
}

#[test]
fn windows_of_a_worker(rt: HostRuntime) -> Result<(), Fail> {
    for case in CASES {
        check(&rt, rt.alloc(), case)?;
    }
    Ok(())
}

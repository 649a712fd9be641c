//! Worked runs over one file, by their names.

use crate::tests::wanted::{Case, Sent, Wanted, check_each};
use crate::tests::world::{FINGERPRINT, Later, NATIVE, Object, PLAIN, Peer, Start};
use std::test::Fail;

const ROW_AT_0: &str = "file \"filestream::w::path::/w/a.log\" 0 0 \"/w/a.log\"\n";

const ROW_AT_4: &str = "file \"filestream::w::path::/w/a.log\" 0 4 \"/w/a.log\"\n";

/// What two plain lines leave.
const BOTH: Wanted = Wanted {
    status: 0,
    rows: Some(ROW_AT_4),
    printed: "shipped 2 dropped 0\nstatus 0 done\n",
    sent: Sent::Lines(&[(0, "a"), (2, "b")]),
    moment: Some(0),
};

const TWO_PLAIN_LINES: Case = Case {
    name: "two_plain_lines",
    start: PLAIN,
    wanted: BOTH,
};

const EMPTY_FILE: Case = Case {
    name: "empty_file",
    start: Start {
        files: &[("/w/a.log", b"", &[])],
        ..PLAIN
    },
    wanted: Wanted {
        rows: Some(ROW_AT_0),
        printed: "shipped 0 dropped 0\nstatus 0 done\n",
        sent: Sent::Events(0),
        ..BOTH
    },
};

const UNTERMINATED_REST_WAITS: Case = Case {
    name: "unterminated_rest_waits",
    start: Start {
        files: &[("/w/a.log", b"a\nb", &[])],
        ..PLAIN
    },
    wanted: Wanted {
        rows: Some("file \"filestream::w::path::/w/a.log\" 0 2 \"/w/a.log\"\n"),
        printed: "shipped 1 dropped 0\nstatus 0 done\n",
        sent: Sent::Lines(&[(0, "a")]),
        ..BOTH
    },
};

const CARRIAGE_RETURN: Case = Case {
    name: "carriage_return",
    start: Start {
        files: &[("/w/a.log", b"a\r\na\rb\n", &[])],
        ..PLAIN
    },
    wanted: Wanted {
        rows: Some("file \"filestream::w::path::/w/a.log\" 0 7 \"/w/a.log\"\n"),
        sent: Sent::Lines(&[(0, "a"), (3, "a\\rb")]),
        ..BOTH
    },
};

const MULTILINE_AFTER: Case = Case {
    name: "multiline_after",
    start: Start {
        input: "multiline.pattern = '^\\['\nmultiline.negate = true\nmultiline.match = 'after'",
        files: &[("/w/a.log", b"[1\n x\n y\n[2\n", &[])],
        ..PLAIN
    },
    wanted: Wanted {
        rows: Some("file \"filestream::w::path::/w/a.log\" 0 12 \"/w/a.log\"\n"),
        sent: Sent::Lines(&[(0, "[1\\n x\\n y"), (9, "[2")]),
        ..BOTH
    },
};

const MULTILINE_BEFORE: Case = Case {
    name: "multiline_before",
    start: Start {
        input: "multiline.pattern = '\\\\$'\nmultiline.match = 'before'",
        files: &[("/w/a.log", b"a\\\nb\nc\\\n", &[])],
        ..PLAIN
    },
    wanted: Wanted {
        rows: Some("file \"filestream::w::path::/w/a.log\" 0 8 \"/w/a.log\"\n"),
        sent: Sent::Lines(&[(0, "a\\\\\\nb"), (5, "c\\\\")]),
        ..BOTH
    },
};

const MAX_LINES_CUTS_MESSAGE: Case = Case {
    name: "max_lines_cuts_message",
    start: Start {
        input: "multiline.pattern = '^ '\nmultiline.match = 'after'\nmultiline.max_lines = 2",
        files: &[("/w/a.log", b"s\n x\n x\n x\n x\n x\n", &[])],
        ..PLAIN
    },
    wanted: Wanted {
        rows: Some("file \"filestream::w::path::/w/a.log\" 0 17 \"/w/a.log\"\n"),
        printed: "shipped 1 dropped 0\nstatus 0 done\n",
        sent: Sent::Lines(&[(0, "s\\n x")]),
        ..BOTH
    },
};

const ALL_LINES_EXCLUDED: Case = Case {
    name: "all_lines_excluded",
    start: Start {
        input: "exclude_lines = ['.']",
        ..PLAIN
    },
    wanted: Wanted {
        printed: "shipped 0 dropped 2\nstatus 0 done\n",
        sent: Sent::Events(0),
        ..BOTH
    },
};

const TWO_WORKERS_MEET: Case = Case {
    name: "two_workers_meet",
    start: Start {
        output: "workers = 2\nbulk_max_size = 1\npipelining = 1\nattempts = 1",
        peer: Peer::Meet,
        ..PLAIN
    },
    wanted: Wanted {
        sent: Sent::Events(2),
        ..BOTH
    },
};

const UNREACHABLE_AFTER_RESTS: Case = Case {
    name: "unreachable_after_rests",
    start: Start {
        failing: &[(Object::Wire, 0), (Object::Wire, 1), (Object::Wire, 2)],
        ..PLAIN
    },
    wanted: Wanted {
        status: 7,
        rows: Some(ROW_AT_0),
        printed: "status 7 unreachable worker 0 failures 3\n",
        sent: Sent::Events(0),
        moment: Some(3_000),
    },
};

const INVALID_UTF8_IS_REPLACED: Case = Case {
    name: "invalid_utf8_is_replaced",
    start: Start {
        files: &[("/w/a.log", b"a\xffb\n", &[])],
        ..PLAIN
    },
    wanted: Wanted {
        printed: "shipped 1 dropped 0\nstatus 0 done\n",
        sent: Sent::Lines(&[(0, "a\u{fffd}b")]),
        ..BOTH
    },
};

const EMPTY_LINES_ARE_DROPPED: Case = Case {
    name: "empty_lines_are_dropped",
    start: Start {
        files: &[("/w/a.log", b"\n\nx\n", &[])],
        ..PLAIN
    },
    wanted: Wanted {
        printed: "shipped 1 dropped 2\nstatus 0 done\n",
        sent: Sent::Lines(&[(2, "x")]),
        ..BOTH
    },
};

const PROCESSORS_IN_ORDER: Case = Case {
    name: "processors_in_order",
    start: Start {
        top: r#"processors = [
            { add_tags = { tags = ["x"] } },
            { rename = { fields = [{ from = "a", to = "b" }] } },
            { add_fields = { fields = { env = "prod" } } },
            { drop_event = { when = { equals = { message = "b" } } } },
        ]"#,
        ..PLAIN
    },
    wanted: Wanted {
        printed: "shipped 1 dropped 1\nstatus 0 done\n",
        sent: Sent::Payloads(&[
            r#"{"@timestamp":"1970-01-01T00:00:00.000Z","error":{"message":"rename: no field a"},"fields":{"env":"prod"},"input":{"type":"filestream"},"log":{"file":{"path":"/w/a.log"},"offset":0},"message":"a","tags":["x"]}"#,
        ]),
        ..BOTH
    },
};

const RANGE_OF_ABSENT_FIELD: Case = Case {
    name: "range_of_absent_field",
    start: Start {
        top: "processors = [{ drop_event = { when = { range = { a = { gt = 1 } } } } }]",
        ..PLAIN
    },
    wanted: BOTH,
};

/// The file is cut after the first read, and grows once that was seen.
const TRUNCATED_BETWEEN_READS: Case = Case {
    name: "truncated_between_reads",
    start: Start {
        files: &[(
            "/w/a.log",
            b"a\nb\n",
            &[Later::Cut(2), Later::Grows(3, b"c\n")],
        )],
        ..PLAIN
    },
    wanted: Wanted {
        rows: Some("file \"filestream::w::path::/w/a.log\" 1 2 \"/w/a.log\"\n"),
        printed: "shipped 3 dropped 0\nstatus 0 done\n",
        sent: Sent::Lines(&[(0, "a"), (2, "b"), (0, "c")]),
        ..BOTH
    },
};

/// The first connection acknowledges the first line and closes; the second line goes out again, by
/// itself.
const PARTIAL_ACKNOWLEDGEMENT_THEN_AGAIN: Case = Case {
    name: "partial_acknowledgement_then_again",
    start: Start {
        output: "bulk_max_size = 2\npipelining = 1",
        peer: Peer::Closes(b"2A\0\0\0\x01"),
        ..PLAIN
    },
    wanted: Wanted {
        sent: Sent::Lines(&[(2, "b")]),
        moment: Some(1_000),
        ..BOTH
    },
};

const BELL_AT_THE_FIRST_QUESTION: Case = Case {
    name: "bell_at_the_first_question",
    start: Start { quiet: 0, ..PLAIN },
    wanted: Wanted {
        status: 1,
        rows: Some(ROW_AT_0),
        printed: "shipped 0 dropped 0\nstatus 1 stopped\n",
        sent: Sent::Events(0),
        moment: Some(0),
    },
};

const ABSENT_FILE: Case = Case {
    name: "absent_file",
    start: Start {
        files: &[],
        ..PLAIN
    },
    wanted: Wanted {
        rows: Some(""),
        printed: "shipped 0 dropped 0\nstatus 0 done\n",
        sent: Sent::Events(0),
        ..BOTH
    },
};

const NATIVE_WITHOUT_NUMBERS: Case = Case {
    name: "native_without_numbers",
    start: Start {
        numbers: &[],
        ..NATIVE
    },
    wanted: Wanted {
        status: 11,
        rows: Some(""),
        printed: "status 11 no native numbers \"/w/a.log\"\n",
        sent: Sent::Events(0),
        ..BOTH
    },
};

/// Another file has the path, once it was listed.
const MOVED_BEFORE_OPENING: Case = Case {
    name: "moved_before_opening",
    start: Start {
        files: &[
            ("/w/a.log", b"a\nb\n", &[Later::Renamed(1, "/w/a.old")]),
            ("/w/a.new", b"c\n", &[Later::Renamed(1, "/w/a.log")]),
        ],
        numbers: &[(7, 1), (8, 1)],
        ..NATIVE
    },
    wanted: Wanted {
        rows: Some(""),
        printed: "passed \"/w/a.log\" moved\nshipped 0 dropped 0\nstatus 0 done\n",
        sent: Sent::Events(0),
        ..BOTH
    },
};

/// Two paths of one inode and device.
const SECOND_PATH_OF_A_FILE: Case = Case {
    name: "second_path_of_a_file",
    start: Start {
        files: &[("/w/a.log", b"a\nb\n", &[]), ("/w/b.log", b"a\nb\n", &[])],
        numbers: &[(7, 1), (7, 1)],
        ..NATIVE
    },
    wanted: Wanted {
        rows: Some("file \"filestream::w::native::7-1\" 0 4 \"/w/a.log\"\n"),
        printed: "passed \"/w/b.log\" doubled\nshipped 2 dropped 0\nstatus 0 done\n",
        ..BOTH
    },
};

/// A text of 112 bytes with a known SHA-256, and a file of its first 111.
const FINGERPRINT_KEY: Case = Case {
    name: "fingerprint_key",
    start: Start {
        files: &[
            (
                "/w/a.log",
                b"abcdefghbcdefghicdefghijdefghijkefghijklfghijklmghijklmnhijklmnoijklmnopjklmnopqklmnopqrlmnopqrsmnopqrstnopqrstu\n",
                &[],
            ),
            (
                "/w/b.log",
                b"abcdefghbcdefghicdefghijdefghijkefghijklfghijklmghijklmnhijklmnoijklmnopjklmnopqklmnopqrlmnopqrsmnopqrstnopqrst",
                &[],
            ),
        ],
        ..FINGERPRINT
    },
    wanted: Wanted {
        rows: Some(
            "file \"filestream::w::fingerprint::cf5b16a778af8380036ce59e7b0492370b249b11e8f07a51afac45037afee9d1\" 0 113 \"/w/a.log\"\n",
        ),
        printed: "passed \"/w/b.log\" small\nshipped 1 dropped 0\nstatus 0 done\n",
        sent: Sent::Lines(&[(
            0,
            "abcdefghbcdefghicdefghijdefghijkefghijklfghijklmghijklmnhijklmnoijklmnopjklmnopqklmnopqrlmnopqrsmnopqrstnopqrstu",
        )]),
        ..BOTH
    },
};

/// The file is removed once it was listed.
const GONE_BEFORE_ITS_KEY_IS_ASKED: Case = Case {
    name: "gone_before_its_key_is_asked",
    start: Start {
        files: &[("/w/a.log", b"a\nb\n", &[Later::Removed(1)])],
        ..FINGERPRINT
    },
    wanted: Wanted {
        rows: Some(""),
        printed: "passed \"/w/a.log\" gone\nshipped 0 dropped 0\nstatus 0 done\n",
        sent: Sent::Events(0),
        ..BOTH
    },
};

const FAULT_AS_ITS_KEY_IS_ASKED: Case = Case {
    name: "fault_as_its_key_is_asked",
    start: Start {
        failing: &[(Object::Tail, 0)],
        ..FINGERPRINT
    },
    wanted: Wanted {
        status: 6,
        rows: Some(""),
        printed: "status 6 folder fault\n",
        sent: Sent::Events(0),
        ..BOTH
    },
};

const CLOSED_AREA: Case = Case {
    name: "closed_area",
    start: Start { area: ".", ..PLAIN },
    wanted: BOTH,
};

const OPEN_AREA_OF_ONE_BYTE: Case = Case {
    name: "open_area_of_one_byte",
    start: Start { area: "{", ..PLAIN },
    wanted: BOTH,
};

const CASES_OF_EVENTS: &[Case] = &[
    TWO_PLAIN_LINES,
    EMPTY_FILE,
    UNTERMINATED_REST_WAITS,
    CARRIAGE_RETURN,
    MULTILINE_AFTER,
    MULTILINE_BEFORE,
    MAX_LINES_CUTS_MESSAGE,
    ALL_LINES_EXCLUDED,
    INVALID_UTF8_IS_REPLACED,
    EMPTY_LINES_ARE_DROPPED,
    PROCESSORS_IN_ORDER,
    RANGE_OF_ABSENT_FIELD,
];

const CASES_OF_RUNS: &[Case] = &[
    TWO_WORKERS_MEET,
    UNREACHABLE_AFTER_RESTS,
    TRUNCATED_BETWEEN_READS,
    PARTIAL_ACKNOWLEDGEMENT_THEN_AGAIN,
    BELL_AT_THE_FIRST_QUESTION,
    ABSENT_FILE,
    NATIVE_WITHOUT_NUMBERS,
    MOVED_BEFORE_OPENING,
    SECOND_PATH_OF_A_FILE,
    FINGERPRINT_KEY,
    GONE_BEFORE_ITS_KEY_IS_ASKED,
    FAULT_AS_ITS_KEY_IS_ASKED,
    CLOSED_AREA,
    OPEN_AREA_OF_ONE_BYTE,
];

#[test]
fn worked_events(rt: HostRuntime) -> Result<(), Fail> {
    check_each(&rt, CASES_OF_EVENTS)
}

#[test]
fn worked_runs(rt: HostRuntime) -> Result<(), Fail> {
    check_each(&rt, CASES_OF_RUNS)
}

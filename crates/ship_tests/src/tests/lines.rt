//! What settings of an input make of the bytes of its one file: lines, groups of lines and what filters drop.

use crate::tests::wanted::{Case, Sent, Wanted, check_each};
use crate::tests::world::{PLAIN, Start};
use std::test::Fail;

const ROW_AT_4: &str = "file \"filestream::w::path::/w/a.log\" 0 4 \"/w/a.log\"\n";

const ROW_AT_5: &str = "file \"filestream::w::path::/w/a.log\" 0 5 \"/w/a.log\"\n";

const ROW_AT_6: &str = "file \"filestream::w::path::/w/a.log\" 0 6 \"/w/a.log\"\n";

const ROW_AT_8: &str = "file \"filestream::w::path::/w/a.log\" 0 8 \"/w/a.log\"\n";

const ROW_AT_12: &str = "file \"filestream::w::path::/w/a.log\" 0 12 \"/w/a.log\"\n";

/// Two events.
const TWO: Wanted = Wanted {
    status: 0,
    rows: Some(ROW_AT_8),
    printed: "shipped 2 dropped 0\nstatus 0 done\n",
    sent: Sent::Open,
    moment: Some(0),
};

const LINE_FEED: Case = Case {
    name: "line feed alone",
    start: Start {
        input: "line_terminator = 'line_feed'",
        files: &[("/w/a.log", b"a\r\nb\n", &[])],
        ..PLAIN
    },
    wanted: Wanted {
        rows: Some(ROW_AT_5),
        sent: Sent::Lines(&[(0, "a\\r"), (3, "b")]),
        ..TWO
    },
};

/// Both bytes are wanted, and each may be in the line.
const CARRIAGE_RETURN_LINE_FEED: Case = Case {
    name: "carriage return and line feed",
    start: Start {
        input: "line_terminator = 'carriage_return_line_feed'",
        files: &[("/w/a.log", b"a\nb\r\r\nc\r\n", &[])],
        ..PLAIN
    },
    wanted: Wanted {
        rows: Some("file \"filestream::w::path::/w/a.log\" 0 9 \"/w/a.log\"\n"),
        sent: Sent::Lines(&[(0, "a\\nb\\r"), (6, "c")]),
        ..TWO
    },
};

const NULL_TERMINATOR: Case = Case {
    name: "a byte 0",
    start: Start {
        input: "line_terminator = 'null_terminator'",
        files: &[("/w/a.log", b"a\r\n\0\0b", &[])],
        ..PLAIN
    },
    wanted: Wanted {
        rows: Some(ROW_AT_5),
        printed: "shipped 1 dropped 1\nstatus 0 done\n",
        sent: Sent::Lines(&[(0, "a\\r\\n")]),
        ..TWO
    },
};

/// The message is cut before the carriage return that ends its line.
const CUT_BEFORE_THE_RETURN: Case = Case {
    name: "a message is cut before the carriage return",
    start: Start {
        input: "message_max_bytes = 2",
        files: &[("/w/a.log", b"abcd\r\ne\n", &[])],
        ..PLAIN
    },
    wanted: Wanted {
        sent: Sent::Lines(&[(0, "ab"), (6, "e")]),
        ..TWO
    },
};

/// One carriage return belongs to the line, and the message is cut after it.
const CUT_BEHIND_A_RETURN: Case = Case {
    name: "a message is cut behind a carriage return",
    start: Start {
        input: "message_max_bytes = 2",
        files: &[("/w/a.log", b"a\r\r\n", &[])],
        ..PLAIN
    },
    wanted: Wanted {
        rows: Some(ROW_AT_4),
        printed: "shipped 1 dropped 0\nstatus 0 done\n",
        sent: Sent::Lines(&[(0, "a\\r")]),
        ..TWO
    },
};

const SHORTER_THAN_THE_LIMIT: Case = Case {
    name: "lines that are shorter than the limit",
    start: Start {
        input: "message_max_bytes = 3",
        files: &[("/w/a.log", b"ab\r\n\r\n", &[])],
        ..PLAIN
    },
    wanted: Wanted {
        rows: Some(ROW_AT_6),
        printed: "shipped 1 dropped 1\nstatus 0 done\n",
        sent: Sent::Lines(&[(0, "ab")]),
        ..TWO
    },
};

const FIRST_LINE_CONTINUES: Case = Case {
    name: "a first line that continues nothing",
    start: Start {
        input: "multiline.pattern = '^ '\nmultiline.match = 'after'",
        files: &[("/w/a.log", b" x\n y\nz\n", &[])],
        ..PLAIN
    },
    wanted: Wanted {
        sent: Sent::Lines(&[(0, " x\\n y"), (6, "z")]),
        ..TWO
    },
};

/// A line that flushes is the last of its event; without the pattern it begins the next one.
const FLUSHED: Case = Case {
    name: "a line that flushes",
    start: Start {
        input: "multiline.pattern = '^c'\nmultiline.match = 'after'\nmultiline.flush_pattern = '^f'",
        files: &[("/w/a.log", b"s\nc\nf\ns\n", &[])],
        ..PLAIN
    },
    wanted: Wanted {
        sent: Sent::Lines(&[(0, "s\\nc\\nf"), (6, "s")]),
        ..TWO
    },
};

const UNFLUSHED: Case = Case {
    name: "the same without a pattern that flushes",
    start: Start {
        input: "multiline.pattern = '^c'\nmultiline.match = 'after'",
        files: &[("/w/a.log", b"s\nc\nf\ns\n", &[])],
        ..PLAIN
    },
    wanted: Wanted {
        printed: "shipped 3 dropped 0\nstatus 0 done\n",
        sent: Sent::Lines(&[(0, "s\\nc"), (4, "f"), (6, "s")]),
        ..TWO
    },
};

/// A first line that flushes ends nothing, and neither does one after a line that does not continue.
const FIRST_LINE_FLUSHES: Case = Case {
    name: "a first line that flushes",
    start: Start {
        input: "multiline.pattern = '^c'\nmultiline.match = 'after'\nmultiline.flush_pattern = '^f'",
        files: &[("/w/a.log", b"f\nc\n", &[])],
        ..PLAIN
    },
    wanted: Wanted {
        rows: Some(ROW_AT_4),
        printed: "shipped 1 dropped 0\nstatus 0 done\n",
        sent: Sent::Lines(&[(0, "f\\nc")]),
        ..TWO
    },
};

const FLUSHED_BEFORE: Case = Case {
    name: "a line that flushes, where lines continue in the next one",
    start: Start {
        input: "multiline.pattern = '^c'\nmultiline.match = 'before'\nmultiline.flush_pattern = '^f'",
        files: &[("/w/a.log", b"s\nf\nc\nf\n", &[])],
        ..PLAIN
    },
    wanted: Wanted {
        printed: "shipped 3 dropped 0\nstatus 0 done\n",
        sent: Sent::Lines(&[(0, "s"), (2, "f"), (4, "c\\nf")]),
        ..TWO
    },
};

/// A stack trace, as operators write the pattern for it.
const JAVA_TRACE: Case = Case {
    name: "a stack trace of Java",
    start: Start {
        input: "multiline.pattern = '^[[:space:]]+(at|\\.{3})[[:space:]]+\\b|^Caused by:'\nmultiline.match = 'after'",
        files: &[(
            "/w/a.log",
            b"E: java.lang.NullPointerException\n    at a.B.c(B.java:16)\n    at a.D.e(D.java:25)\nCaused by: java.lang.Error\n    ... 1 more\nnext\n",
            &[],
        )],
        ..PLAIN
    },
    wanted: Wanted {
        rows: Some("file \"filestream::w::path::/w/a.log\" 0 129 \"/w/a.log\"\n"),
        sent: Sent::Lines(&[
            (
                0,
                "E: java.lang.NullPointerException\\n    at a.B.c(B.java:16)\\n    at a.D.e(D.java:25)\\nCaused by: java.lang.Error\\n    ... 1 more",
            ),
            (124, "next"),
        ]),
        ..TWO
    },
};

const PYTHON_TRACE: Case = Case {
    name: "a stack trace of Python",
    start: Start {
        input: "multiline.pattern = '^[0-9]{4}-[0-9]{2}-[0-9]{2}'\nmultiline.negate = true\nmultiline.match = 'after'",
        files: &[(
            "/w/a.log",
            b"2026-01-02 ERROR boom\nTraceback (most recent call last):\n  File \"a.py\", line 1, in f\nValueError: x\n2026-01-02 INFO ok\n",
            &[],
        )],
        ..PLAIN
    },
    wanted: Wanted {
        rows: Some("file \"filestream::w::path::/w/a.log\" 0 118 \"/w/a.log\"\n"),
        sent: Sent::Lines(&[
            (
                0,
                "2026-01-02 ERROR boom\\nTraceback (most recent call last):\\n  File \\\"a.py\\\", line 1, in f\\nValueError: x",
            ),
            (99, "2026-01-02 INFO ok"),
        ]),
        ..TWO
    },
};

/// Three lines an event, of which two are kept, and four bytes.
const COUNTED: Case = Case {
    name: "three lines an event",
    start: Start {
        input: "message_max_bytes = 4\nmultiline.type = 'count'\nmultiline.count_lines = 3\nmultiline.max_lines = 2",
        files: &[("/w/a.log", b"ab\ncd\nef\n\nx\n", &[])],
        ..PLAIN
    },
    wanted: Wanted {
        rows: Some(ROW_AT_12),
        sent: Sent::Lines(&[(0, "ab\\nc"), (9, "\\nx")]),
        ..TWO
    },
};

const COUNTED_WITHOUT_LINE_FEEDS: Case = Case {
    name: "three lines an event, joined without a line feed",
    start: Start {
        input: "message_max_bytes = 4\nmultiline.type = 'count'\nmultiline.count_lines = 3\nmultiline.max_lines = 2\nmultiline.skip_newline = true",
        files: &[("/w/a.log", b"ab\ncd\nef\n\nx\n", &[])],
        ..PLAIN
    },
    wanted: Wanted {
        rows: Some(ROW_AT_12),
        sent: Sent::Lines(&[(0, "abcd"), (9, "x")]),
        ..TWO
    },
};

/// Of the empty line, one that no pattern includes, one that a pattern excludes, one that is kept, and the same of bytes that
/// are no UTF-8: one pattern matches on these, and the others before and after them.
const FILTERED: Case = Case {
    name: "the first rule drops",
    start: Start {
        input: "include_lines = ['^a', '(?-u)\\xff$']\nexclude_lines = ['b', '^$']",
        files: &[("/w/a.log", b"\nb\nab\na\nc\xff\n\xff\xfe\na\xffb\n", &[])],
        ..PLAIN
    },
    wanted: Wanted {
        rows: Some("file \"filestream::w::path::/w/a.log\" 0 18 \"/w/a.log\"\n"),
        printed: "shipped 2 dropped 5\nstatus 0 done\n",
        sent: Sent::Lines(&[(6, "a"), (8, "c\u{fffd}")]),
        ..TWO
    },
};

const CASES: &[Case] = &[
    LINE_FEED,
    CARRIAGE_RETURN_LINE_FEED,
    NULL_TERMINATOR,
    CUT_BEFORE_THE_RETURN,
    CUT_BEHIND_A_RETURN,
    SHORTER_THAN_THE_LIMIT,
    FIRST_LINE_CONTINUES,
    FLUSHED,
    UNFLUSHED,
    FIRST_LINE_FLUSHES,
    FLUSHED_BEFORE,
    JAVA_TRACE,
    PYTHON_TRACE,
    COUNTED,
    COUNTED_WITHOUT_LINE_FEEDS,
    FILTERED,
];

#[test]
fn bytes_become_events(rt: HostRuntime) -> Result<(), Fail> {
    check_each(&rt, CASES)
}

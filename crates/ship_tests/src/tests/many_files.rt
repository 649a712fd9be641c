//! Several inputs, files, lanes and workers.

use crate::tests::wanted::{Case, Sent, Wanted, check, check_each};
use crate::tests::world::{Later, NATIVE, Object, PLAIN, Start};
use std::test::Fail;

const TWO_INPUTS: &str = r#"
[[inputs]]
id = "app"
paths = ["/app/*.log", "/none/*.log"]
file_identity = "path"
[[inputs]]
id = "web"
paths = ["/web/**/access.log"]
file_identity = "path"
[output]
hosts = ["h:5044"]
"#;

const TWO_INPUTS_WITH_THREE_FILES: Case = Case {
    name: "two inputs with three files each",
    start: Start {
        settings: Some(TWO_INPUTS),
        files: &[
            ("/web/b/access.log", b"GET /b\n", &[]),
            ("/app/c.log", b"", &[]),
            ("/app/a.log", b"a\nb\n", &[]),
            ("/app/a.txt", b"not covered\n", &[]),
            ("/web/access.log", b"GET /\nGET", &[]),
            ("/web/a/x/access.log", b"\nGET /x\n", &[]),
            ("/app/x/a.log", b"not covered\n", &[]),
            ("/app/b.log", b"c\n", &[]),
        ],
        ..PLAIN
    },
    wanted: Wanted {
        status: 0,
        rows: Some(
            r#"file "filestream::app::path::/app/a.log" 0 4 "/app/a.log"
file "filestream::app::path::/app/b.log" 0 2 "/app/b.log"
file "filestream::app::path::/app/c.log" 0 0 "/app/c.log"
file "filestream::web::path::/web/a/x/access.log" 0 8 "/web/a/x/access.log"
file "filestream::web::path::/web/access.log" 0 6 "/web/access.log"
file "filestream::web::path::/web/b/access.log" 0 7 "/web/b/access.log"
"#,
        ),
        printed: "shipped 6 dropped 1\nstatus 0 done\n",
        sent: Sent::Events(6),
        moment: Some(0),
    },
};

const COVERED_TWICE: &str = r#"
[[inputs]]
id = "w"
paths = ["/w/*.log", "/w/b*"]
file_identity = "path"
[[inputs]]
id = "v"
paths = ["/w/*.log"]
file_identity = "path"
[output]
hosts = ["h:5044"]
"#;

/// Two globs of one input cover the file that stays, and both inputs do; the others go.
const COVERED_AND_GONE: Case = Case {
    name: "covered once for each input, and gone",
    start: Start {
        settings: Some(COVERED_TWICE),
        files: &[
            ("/w/c.log", b"c\n", &[Later::Removed(3)]),
            ("/w/b.log", b"b\n", &[]),
            ("/w/a.log", b"a\n", &[Later::Removed(3)]),
        ],
        ..PLAIN
    },
    wanted: Wanted {
        status: 0,
        rows: Some(
            r#"file "filestream::v::path::/w/b.log" 0 2 "/w/b.log"
file "filestream::w::path::/w/b.log" 0 2 "/w/b.log"
"#,
        ),
        printed: r#"passed "/w/a.log" gone
passed "/w/c.log" gone
shipped 2 dropped 0
status 0 done
"#,
        sent: Sent::Events(2),
        moment: Some(0),
    },
};

/// It has no row, and the others are shipped.
const UNOPENED: Case = Case {
    name: "the second of three files cannot be opened",
    start: Start {
        files: &[
            ("/w/c.log", b"d\n", &[]),
            ("/w/a.log", b"a\nb\n", &[]),
            ("/w/b.log", b"c\n", &[]),
        ],
        failing: &[(Object::Folder, 2)],
        ..PLAIN
    },
    wanted: Wanted {
        status: 6,
        rows: Some(
            r#"file "filestream::w::path::/w/a.log" 0 4 "/w/a.log"
file "filestream::w::path::/w/c.log" 0 2 "/w/c.log"
"#,
        ),
        printed: "status 6 folder fault\n",
        sent: Sent::Events(3),
        moment: Some(0),
    },
};

/// The bell rings before the first round.
const UNOPENED_AND_STOPPED: Case = Case {
    name: "a file cannot be opened, and then the run is stopped",
    start: Start {
        quiet: 0,
        failing: &[(Object::Folder, 1)],
        ..PLAIN
    },
    wanted: Wanted {
        status: 6,
        rows: Some(""),
        printed: "status 6 folder fault\n",
        sent: Sent::Events(0),
        moment: Some(0),
    },
};

/// The second file is another than the listed one, and has no numbers.
const UNNUMBERED_FILE: Start = Start {
    files: &[
        ("/w/a.log", b"a\nb\n", &[]),
        ("/w/b.log", b"c\n", &[Later::Removed(1)]),
        ("/w/b", b"d\n", &[Later::Renamed(1, "/w/b.log")]),
    ],
    numbers: &[(7, 1), (8, 1)],
    ..NATIVE
};

const UNNUMBERED: Case = Case {
    name: "a file without numbers takes the path of a listed one",
    start: UNNUMBERED_FILE,
    wanted: Wanted {
        status: 11,
        rows: Some("file \"filestream::w::native::7-1\" 0 0 \"/w/a.log\"\n"),
        printed: "status 11 no native numbers \"/w/b.log\"\n",
        sent: Sent::Events(0),
        moment: Some(0),
    },
};

/// The first is not opened, and that goes first.
const UNOPENED_AND_UNNUMBERED: Case = Case {
    name: "a file cannot be opened, and then one has no numbers",
    start: Start {
        failing: &[(Object::Folder, 1)],
        ..UNNUMBERED_FILE
    },
    wanted: Wanted {
        status: 6,
        rows: Some(""),
        printed: "status 6 folder fault\n",
        sent: Sent::Events(0),
        moment: Some(0),
    },
};

/// The first read of a file fails, and the others are shipped.
const UNREAD: Case = Case {
    name: "one of three files cannot be read",
    start: Start {
        files: &[
            ("/w/b.log", b"b\n", &[]),
            ("/w/a.log", b"a\nb\n", &[]),
            ("/w/c.log", b"c\nd\n", &[]),
        ],
        failing: &[(Object::Tail, 1)],
        ..PLAIN
    },
    wanted: Wanted {
        status: 6,
        rows: Some(
            r#"file "filestream::w::path::/w/a.log" 0 0 "/w/a.log"
file "filestream::w::path::/w/b.log" 0 2 "/w/b.log"
file "filestream::w::path::/w/c.log" 0 4 "/w/c.log"
"#,
        ),
        printed: "status 6 folder fault\n",
        sent: Sent::Events(3),
        moment: None,
    },
};

/// A later look fails, and what was reported of the file before is shipped, too.
const READ_IN_PART: Case = Case {
    name: "one of two files cannot be read on",
    start: Start {
        files: &[
            ("/w/b.log", b"b\n", &[]),
            ("/w/a.log", b"a\nb\n", &[Later::Grows(3, b"c\n")]),
        ],
        failing: &[(Object::Tail, 2)],
        ..PLAIN
    },
    wanted: Wanted {
        status: 6,
        rows: Some(
            r#"file "filestream::w::path::/w/a.log" 0 4 "/w/a.log"
file "filestream::w::path::/w/b.log" 0 2 "/w/b.log"
"#,
        ),
        printed: "status 6 folder fault\n",
        sent: Sent::Events(3),
        moment: None,
    },
};

/// The bell rings after the round in which a read failed.
const UNREAD_AND_STOPPED: Case = Case {
    name: "a file cannot be read, and then the run is stopped",
    start: Start {
        quiet: 1,
        failing: &[(Object::Tail, 0)],
        ..PLAIN
    },
    wanted: Wanted {
        status: 6,
        rows: Some("file \"filestream::w::path::/w/a.log\" 0 0 \"/w/a.log\"\n"),
        printed: "status 6 folder fault\n",
        sent: Sent::Events(0),
        moment: Some(0),
    },
};

const LINES: &[u8] = b"0\n1\n2\n3\n4\n5\n6\n7\n8\n9\n0\n1\n2\n3\n4\n5\n6\n7\n8\n9\n";

/// The queue has room for fewer events than there are, and each window for one.
const CREW: Case = Case {
    name: "two workers and four lanes over a small queue",
    start: Start {
        output: r#"
workers = 2
bulk_max_size = 1
pipelining = 3
[queue]
events = 32
[harvest]
lanes = 4
"#,
        files: &[
            ("/w/a.log", LINES, &[]),
            ("/w/b.log", LINES, &[]),
            ("/w/c.log", LINES, &[]),
            ("/w/d.log", LINES, &[]),
            ("/w/e.log", LINES, &[]),
            ("/w/f.log", b"", &[]),
        ],
        ..PLAIN
    },
    wanted: Wanted {
        status: 0,
        rows: Some(
            r#"file "filestream::w::path::/w/a.log" 0 40 "/w/a.log"
file "filestream::w::path::/w/b.log" 0 40 "/w/b.log"
file "filestream::w::path::/w/c.log" 0 40 "/w/c.log"
file "filestream::w::path::/w/d.log" 0 40 "/w/d.log"
file "filestream::w::path::/w/e.log" 0 40 "/w/e.log"
file "filestream::w::path::/w/f.log" 0 0 "/w/f.log"
"#,
        ),
        printed: "shipped 100 dropped 0\nstatus 0 done\n",
        sent: Sent::Events(100),
        moment: None,
    },
};

const CASES: &[Case] = &[
    TWO_INPUTS_WITH_THREE_FILES,
    COVERED_AND_GONE,
    UNOPENED,
    UNOPENED_AND_STOPPED,
    UNNUMBERED,
    UNOPENED_AND_UNNUMBERED,
    UNREAD,
    READ_IN_PART,
    UNREAD_AND_STOPPED,
    CREW,
];

/// Six files of up to five lines.
const SIX_FILES: Start = Start {
    files: &[
        ("/w/a.log", b"a1\na2\na3\na4\n", &[]),
        ("/w/b.log", b"b1\n", &[]),
        ("/w/c.log", b"c1\nc2\nc3\n", &[]),
        ("/w/d.log", b"d1\nd2\nd3\nd4\nd5\n", &[]),
        ("/w/e.log", b"e1\ne2\n", &[]),
        ("/w/f.log", b"f1\nf2\nf3\n", &[]),
    ],
    ..PLAIN
};

const OF_SIX_FILES: Wanted = Wanted {
    status: 0,
    rows: Some(
        r#"file "filestream::w::path::/w/a.log" 0 12 "/w/a.log"
file "filestream::w::path::/w/b.log" 0 3 "/w/b.log"
file "filestream::w::path::/w/c.log" 0 9 "/w/c.log"
file "filestream::w::path::/w/d.log" 0 15 "/w/d.log"
file "filestream::w::path::/w/e.log" 0 6 "/w/e.log"
file "filestream::w::path::/w/f.log" 0 9 "/w/f.log"
"#,
    ),
    printed: "shipped 18 dropped 0\nstatus 0 done\n",
    sent: Sent::Messages(&[
        "a1", "a2", "a3", "a4", "b1", "c1", "c2", "c3", "d1", "d2", "d3", "d4", "d5", "e1", "e2",
        "f1", "f2", "f3",
    ]),
    moment: None,
};

#[test]
fn each_event_once(rt: HostRuntime) -> Result<(), Fail> {
    for lanes in [1, 2, 8] {
        for workers in [1, 2, 16] {
            let output = format!(in rt.alloc(); "workers = {workers}\n[harvest]\nlanes = {lanes}")?;
            let start = Start {
                output: output.as_str(),
                ..SIX_FILES
            };
            check(&rt, output.as_str(), start, OF_SIX_FILES)?;
        }
    }
    Ok(())
}

#[test]
fn files_are_shipped_by_all_lanes_and_workers(rt: HostRuntime) -> Result<(), Fail> {
    check_each(&rt, CASES)
}

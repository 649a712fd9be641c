//! Runs that are refused before they begin: nothing is listed, sent or stored.

use crate::tests::wanted::{Sent, Wanted, check};
use crate::tests::world::{ONCE, Object, PLAIN, Start};
use std::test::Fail;

/// What a run begins with, beside what a plain one has.
#[derive(Clone, Copy)]
enum Asked<'a> {
    Words(&'a [&'a str]),
    /// Lines of the settings' input.
    Input(&'a str),
    Settings(&'a str),
    All(Start<'a>),
}

fn start_of(asked: Asked) -> Start {
    match asked {
        Asked::Words(words) => Start { words, ..PLAIN },
        Asked::Input(input) => Start { input, ..PLAIN },
        Asked::Settings(settings) => Start {
            settings: Some(settings),
            ..PLAIN
        },
        Asked::All(start) => start,
    }
}

const USAGE: &str = "status 2 usage: beat_main -c FILE [--once] [--data DIR] [--generate N]\n";

const FOLLOW: &str = "status 13 unbuilt follow\n";

/// The arguments are those of no command, the settings have a fault and ask for what is not built, an
/// area has bytes, and it, the source and the folder fail.
const ALL_FAULTS: Start = Start {
    words: &["-c"],
    top: "paht = 1",
    input: "fingerprint.length = 63\nignore_older = '1m'",
    area: "{}",
    failing: &[(Object::Source, 0), (Object::Area, 0), (Object::Folder, 0)],
    ..PLAIN
};

/// What a run is refused for, its exit status and all that is printed.
const REFUSALS: &[(Asked, u8, &str)] = &[
    // usage_refusals
    (Asked::Words(&[]), 2, USAGE),
    (Asked::Words(&["--once"]), 2, USAGE),
    (Asked::Words(&["--once", "-c"]), 2, USAGE),
    (Asked::Words(&["-c", "f", "x"]), 2, USAGE),
    (Asked::Words(&["-c", "f", "-c", "g", "--once"]), 2, USAGE),
    (Asked::Words(&["-c", "f", "--generate", "0"]), 2, USAGE),
    (Asked::Words(&["-c", "f", "--once", "--twice"]), 2, USAGE),
    (Asked::Words(&["-c", "f", "--once", "-h"]), 2, USAGE),
    // what is not built
    (Asked::Words(&["--data", "d", "--config", "f"]), 13, FOLLOW),
    (
        Asked::Settings(
            "[[inputs]]\nid = 'w'\npaths = ['/w/*']\nclean_inactive = '71s'\n[output]\nhosts = ['h']\n",
        ),
        13,
        "status 13 unbuilt key inputs.0.clean_inactive\n",
    ),
    (
        Asked::Input("ignore_older = '1m'"),
        13,
        "status 13 unbuilt key inputs.0.ignore_older\n",
    ),
    (
        Asked::Input("ignore_older = '1m'\nclean_inactive = '71s'"),
        13,
        "status 13 unbuilt key inputs.0.clean_inactive\n",
    ),
    // settings_refusals
    (
        Asked::Input("fingerprint.length = 63"),
        3,
        "status 3 settings out of range inputs.0.fingerprint.length 63\n",
    ),
    (
        Asked::Input("include_lines = ['[']"),
        3,
        "status 3 settings bad pattern inputs.0.include_lines.0\n",
    ),
    (
        Asked::Settings("[[inputs]]\nid = 'w'\npaths = ['/w/[a']\n[output]\nhosts = ['h']\n"),
        3,
        "status 3 settings bad glob inputs.0.paths.0\n",
    ),
    (Asked::Settings("a ="), 3, "status 3 settings not toml\n"),
    (
        Asked::Input("ignore_older = '1m'\nclean_inactive = '70s'"),
        3,
        "status 3 settings clean too soon inputs.0\n",
    ),
    // of several faults the first is reported; each of these has those of the ones below it, too
    (Asked::All(ALL_FAULTS), 2, USAGE),
    (
        Asked::All(Start {
            words: &["-c", "f"],
            ..ALL_FAULTS
        }),
        13,
        FOLLOW,
    ),
    (
        Asked::All(Start {
            words: ONCE,
            ..ALL_FAULTS
        }),
        9,
        "status 9 source fault\n",
    ),
    (
        Asked::All(Start {
            words: ONCE,
            failing: &[(Object::Area, 0), (Object::Folder, 0)],
            ..ALL_FAULTS
        }),
        3,
        "status 3 settings unknown paht\n",
    ),
    (
        Asked::All(Start {
            words: ONCE,
            top: "",
            input: "ignore_older = '1m'",
            failing: &[(Object::Area, 0), (Object::Folder, 0)],
            ..ALL_FAULTS
        }),
        13,
        "status 13 unbuilt key inputs.0.ignore_older\n",
    ),
    (
        Asked::All(Start {
            area: "{}",
            failing: &[(Object::Area, 0), (Object::Folder, 0)],
            ..PLAIN
        }),
        5,
        "status 5 disk fault\n",
    ),
    (
        Asked::All(Start {
            area: "{}",
            failing: &[(Object::Folder, 0)],
            ..PLAIN
        }),
        4,
        "status 4 registry bad area A at 1\n",
    ),
];

#[test]
fn first_refusal_is_told(rt: HostRuntime) -> Result<(), Fail> {
    for (asked, status, printed) in REFUSALS {
        let wanted = Wanted {
            status: *status,
            rows: None,
            printed,
            sent: Sent::Events(0),
            moment: Some(0),
        };
        check(&rt, printed, start_of(*asked), wanted)?;
    }
    Ok(())
}

ghost use Rattle.std.specs.Prelude.{◌≤◌};
ghost use Rattle.wire_base.specs.declared.numbers.TheConstants.{MAX_MOMENT};

use crate::tests::harvesters::rules::{Group, KEY, LIMIT, begin, input, text};
use crate::tests::harvesters::tail::{Look, ScriptTail};
use crate::tests::harvesters::told::{open, write_turn};
use event_tree::IdentityRule;
use harvester::Harvester;
use std::alloc::Global;
use std::process::Abort;
use std::test::Fail;
use wire_base::{Epoch, Moment, NoMemory, Slot};

#[derive(Clone, Copy)]
enum Call {
    Turn,
    Stir,
    /// The file's path is `/b` from now on.
    Rename,
    Ending(bool),
}

/// The milliseconds of a call, the call, what it told, and how the file stands then: since when it is idle, up to where it was
/// reported, and whether it is to be forgotten at its end.
type Row = (u32, Call, &'static [u8], Option<u64>, u64, bool);

/// What a call reported.
fn called(
    alloc: Global,
    harvester: &mut Harvester<ScriptTail<'_>>,
    call: Call,
    now: u64,
) -> Result<Vec<u8>, NoMemory>
    requires { now ≤ MAX_MOMENT }
{
    let mut written = Vec::new(alloc);
    match call {
        Call::Turn => {
            if harvester.changed() {
                return Ok(written);
            }
            let turn = harvester.turn(alloc, Moment(now), false);
            write_turn(alloc, &turn, &mut written)?;
        }
        Call::Stir => harvester.stir(),
        Call::Rename => harvester.rename(text(alloc, "/b")?),
        Call::Ending(forget) => harvester.ending(forget),
    }
    Ok(written)
}

/// Whether the file is as the row says.
fn stands(harvester: &Harvester<ScriptTail<'_>>, row: &Row) -> bool {
    harvester.idle_since() == row.3.map(Moment)
        && harvester.told() == (Epoch(0), row.4)
        && harvester.forgets() == row.5
        && harvester.slot() == Slot(7)
}

/// Follows a file that stays as it is through the rows; how many looks there were.
fn follow<R: Abort>(
    rt: &R,
    alloc: Global,
    group: Group,
    file: &[u8],
    rows: &[Row],
) -> Result<usize, Fail> {
    let rule = input(alloc, IdentityRule::Path, group, LIMIT)?;
    let script = [Look::Holds(file)];
    let begin = begin(alloc, 7, KEY, 0)?;
    let mut harvester = open(alloc, &rule, begin, &script)?;
    for row in rows {
        let written = called(alloc, &mut harvester, row.1, u64::from(row.0))?;
        assert!(rt;
            written.as_slice() == row.2 && stands(&harvester, row),
            "at {}",
            row.0
        );
    }
    Ok(harvester.finish().looks())
}

/// An event of two lines, and a line that waits for a second one until the file ends.
const BETWEEN_TURNS: &[Row] = &[
    (1_000, Call::Turn, b"0-4 /a a\\nb;", None, 4, false),
    (1_000, Call::Rename, b"", None, 4, false),
    (2_000, Call::Turn, b"end;", None, 4, false),
    (2_000, Call::Ending(true), b"", None, 4, true),
    (3_000, Call::Turn, b"4-6 /b c;", None, 6, true),
    (4_000, Call::Turn, b"end;", Some(1_000), 6, true),
    (4_000, Call::Stir, b"", None, 6, true),
    (5_000, Call::Turn, b"end;", Some(1_000), 6, true),
    (5_000, Call::Ending(false), b"", Some(1_000), 6, false),
];

#[test]
fn calls_between_turns(rt: HostRuntime) -> Result<(), Fail> {
    let looks = follow(&rt, rt.alloc(), Group::Two, b"a\nb\nc\n", BETWEEN_TURNS)?;
    // Two looks in each of the first three turns, and none once the file has ended.
    assert!(rt; looks == 6);
    Ok(())
}

/// The event waits for 5,000 milliseconds after its last line.
const WAITING: &[Row] = &[
    (0, Call::Turn, b"more;", None, 0, false),
    (4_999, Call::Turn, b"end;", None, 0, false),
    (5_000, Call::Turn, b"0-9 /a [1\\n x\\n y;", None, 9, false),
    (5_000, Call::Turn, b"end;", Some(0), 9, false),
];

#[test]
fn multiline_timeout(rt: HostRuntime) -> Result<(), Fail> {
    follow(&rt, rt.alloc(), Group::Bracketed, b"[1\n x\n y\n", WAITING)?;
    Ok(())
}

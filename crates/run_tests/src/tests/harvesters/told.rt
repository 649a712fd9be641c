//! What the turns of a harvester give, as a text.
ghost use Rattle.harvester.specs.InRange.{IsReadable};
ghost use Rattle.wire_base.specs.Ranges.{IsBegin};

use crate::tests::harvesters::tail::{Look, ScriptTail};
use event_tree::InputRule;
use harvester::{Harvester, Turn};
use std::alloc::Global;
use std::test::Fail;
use wire_base::{Begin, Moment, NoMemory, Parcel};

/// The milliseconds between two turns.
const PAUSE: u64 = 1_000;

/// The string of the payload that has this many quotes at its end.
fn string_in(payload: &[u8], quotes: usize) -> &[u8] {
    match str::from_utf8(payload) {
        Ok(text) => match text.rsplit('"').nth(quotes) {
            Some(string) => string.as_bytes(),
            None => b"",
        },
        Err(_) => b"",
    }
}

/// Writes an event as its span, and its path and its message as the payload spells them.
fn write_parcel(alloc: Global, parcel: &Parcel, written: &mut Vec<u8>) -> Result<(), NoMemory> {
    let (start, end) = (parcel.span.start(), parcel.span.end());
    let span = format!(in alloc; "{start}-{end} ")?;
    written.extend_from_slice(span.as_bytes())?;
    written.extend_from_slice(string_in(parcel.payload.bytes(), 7))?;
    written.push(b' ')?;
    written.extend_from_slice(string_in(parcel.payload.bytes(), 1))?;
    written.push(b';')?;
    Ok(())
}

/// Writes a turn.
pub fn write_turn(alloc: Global, turn: &Turn, written: &mut Vec<u8>) -> Result<(), NoMemory> {
    let rest = match turn {
        Turn::Issued(parcel) => return write_parcel(alloc, parcel, written),
        Turn::Passed(span, rule) => {
            format!(in alloc; "{}-{} rule {};", span.start(), span.end(), rule.0)?
        }
        Turn::NewLife(epoch) => format!(in alloc; "life {};", epoch.0)?,
        Turn::More => String::from_str(alloc, "more;")?,
        Turn::AtEnd => String::from_str(alloc, "end;")?,
        Turn::Changed => String::from_str(alloc, "changed;")?,
        Turn::EpochsOut => String::from_str(alloc, "out;")?,
        Turn::ReadFault => String::from_str(alloc, "fault;")?,
        Turn::NoMemory => return Err(NoMemory),
    };
    written.extend_from_slice(rest.as_bytes())?;
    Ok(())
}

/// Opens the file at moment 0.
pub fn open<'a>(
    alloc: Global,
    rule: &InputRule,
    begin: Begin,
    script: &'a [Look<'a>],
) -> Result<Harvester<ScriptTail<'a>>, Fail>
    requires readable { IsReadable rule.now }
    requires begin { IsBegin begin }
{
    let tail = ScriptTail::new(script);
    match Harvester::open(alloc, rule, &[], begin, tail, Moment(0)) {
        Ok(harvester) => Ok(harvester),
        Err(_) => Err(Fail::new("no memory for a harvester")),
    }
}

/// So many turns, unless the file has changed. The first is made at moment 1,000, and each other a second later.
fn turned(
    alloc: Global,
    harvester: &mut Harvester<ScriptTail<'_>>,
    turns: u32,
    last: bool,
) -> Result<Vec<u8>, NoMemory> {
    let mut written = Vec::new(alloc);
    for number in 0..turns {
        if harvester.changed() {
            written.extend_from_slice(b"no more;")?;
            break;
        }
        let now = PAUSE * (u64::from(number) + 1);
        let turn = harvester.turn(alloc, Moment(now), last);
        write_turn(alloc, &turn, &mut written)?;
    }
    Ok(written)
}

/// What so many turns of a file give.
pub fn told(
    alloc: Global,
    rule: &InputRule,
    begin: Begin,
    script: &[Look<'_>],
    turns: u32,
    last: bool,
) -> Result<Vec<u8>, Fail>
    requires readable { IsReadable rule.now }
    requires begin { IsBegin begin }
{
    let mut harvester = open(alloc, rule, begin, script)?;
    let written = turned(alloc, &mut harvester, turns, last);
    let _tail = harvester.finish();
    Ok(written?)
}

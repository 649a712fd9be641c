ghost use Rattle.std.specs.Prelude.{◌≤◌, OnErr};
ghost use Rattle.std.specs.List.{flat_map};
ghost use Rattle.outside.specs.Counts.{Rose};
ghost use Rattle.report.specs.Part.{part_bytes};
ghost use Rattle.report.specs.Writing.{WritesAll};

use crate::escape::write_quoted;
use crate::write::write_all;
use itoa::Buffer;
use outside::{Failed, Sink};
use wire_base::Text;

/// One part of a line.
#[derive(Clone, Copy, Debug)]
pub(crate) enum Part<'a> {
    /// Bytes that are written as they are.
    Plain(&'a [u8]),
    /// A JSON text.
    Quoted(&'a Text),
    /// A number in decimal.
    Number(u64),
    /// A number in decimal with a minus if it is negative.
    Signed(i64),
}

/// Writes the parts one after another.
pub(crate) fn write_parts<S: Sink>(out: &mut S, parts: &[Part<'_>]) -> Result<(), Failed>
    ensures told { WritesAll (S.written out.old) (flat_map part_bytes parts.now) result (S.written out.new) }
    ensures faults_never_fall { S.faults out.old ≤ S.faults out.new }
    ensures failed_only_where_faults_rose { OnErr result (Rose (S.faults out.old) (S.faults out.new)) }
{
    for part in parts {
        write_part(out, part)?;
    }
    Ok(())
}

fn write_part<S: Sink>(out: &mut S, part: &Part<'_>) -> Result<(), Failed>
    ensures told { WritesAll (S.written out.old) (part_bytes part.now) result (S.written out.new) }
    ensures faults_never_fall { S.faults out.old ≤ S.faults out.new }
    ensures failed_only_where_faults_rose { OnErr result (Rose (S.faults out.old) (S.faults out.new)) }
{
    match part {
        Part::Plain(bytes) => write_all(out, bytes),
        Part::Quoted(text) => write_quoted(out, text),
        Part::Number(number) => write_all(out, Buffer::new().format(*number).as_bytes()),
        Part::Signed(number) => write_all(out, Buffer::new().format(*number).as_bytes()),
    }
}

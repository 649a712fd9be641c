ghost use Rattle.std.specs.Prelude.{◌≡◌, ◌≤◌, ◌<◌, IsTrue, length, IfSome, OnErr};
ghost use Rattle.std.specs.List.{flat_map, position};
ghost use Rattle.outside.specs.Counts.{Rose};
ghost use Rattle.event_json.specs.Json.{escape, hexadecimal_digit, quoted};
ghost use Rattle.report.specs.Escape.{is_escaped};
ghost use Rattle.report.specs.Writing.{WritesAll};

use crate::write::write_all;
use outside::{Failed, Sink};
use wire_base::Text;

/// Writes a JSON text (RFC 8259). Takes no memory.
pub(crate) fn write_quoted<S: Sink>(out: &mut S, text: &Text) -> Result<(), Failed>
    ensures told { WritesAll (S.written out.old) (quoted text.now) result (S.written out.new) }
    ensures faults_never_fall { S.faults out.old ≤ S.faults out.new }
    ensures failed_only_where_faults_rose { OnErr result (Rose (S.faults out.old) (S.faults out.new)) }
{
    write_all(out, b"\"")?;
    write_escaped(out, text.bytes())?;
    write_all(out, b"\"")
}

fn write_escaped<S: Sink>(out: &mut S, bytes: &[u8]) -> Result<(), Failed>
    ensures told { WritesAll (S.written out.old) (flat_map escape bytes.now) result (S.written out.new) }
    ensures faults_never_fall { S.faults out.old ≤ S.faults out.new }
    ensures failed_only_where_faults_rose { OnErr result (Rose (S.faults out.old) (S.faults out.new)) }
{
    let mut left = bytes;
    while let Some(at) = first_escaped(left) {
        let (plain, rest) = left.split_at(at);
        write_all(out, plain)?;
        write_escape(out, rest[0])?;
        left = &rest[1..];
    }
    write_all(out, left)
}

fn first_escaped(bytes: &[u8]) -> Option<usize>
    ensures first { result ≡ position is_escaped bytes.now }
    ensures within { IfSome result (λ at. at < length bytes.now) }
{
    bytes.iter().position(|byte| is_escaped(*byte))
}

fn is_escaped(byte: u8) -> bool
    ensures { result ≡ is_escaped byte }
{
    byte == b'"' || byte == b'\\' || byte < 0x20
}

fn write_escape<S: Sink>(out: &mut S, byte: u8) -> Result<(), Failed>
    requires { IsTrue (is_escaped byte) }
    ensures told { WritesAll (S.written out.old) (escape byte) result (S.written out.new) }
    ensures faults_never_fall { S.faults out.old ≤ S.faults out.new }
    ensures failed_only_where_faults_rose { OnErr result (Rose (S.faults out.old) (S.faults out.new)) }
{
    match byte {
        b'"' => write_all(out, b"\\\""),
        b'\\' => write_all(out, b"\\\\"),
        0x08 => write_all(out, b"\\b"),
        0x09 => write_all(out, b"\\t"),
        0x0A => write_all(out, b"\\n"),
        0x0C => write_all(out, b"\\f"),
        0x0D => write_all(out, b"\\r"),
        _ => {
            let (high, low) = (hexadecimal_digit(byte / 16), hexadecimal_digit(byte % 16));
            write_all(out, &[b'\\', b'u', b'0', b'0', high, low])
        }
    }
}

fn hexadecimal_digit(number: u8) -> u8
    requires { number < 16 }
    ensures { result ≡ hexadecimal_digit number }
{
    if number < 10 {
        b'0' + number
    } else {
        b'a' + (number - 10)
    }
}

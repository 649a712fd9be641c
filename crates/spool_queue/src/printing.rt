ghost use Rattle.std.specs.Prelude.{◌≤◌, OnErr, OnOk};
ghost use Rattle.outside.specs.Counts.{Rose};
ghost use Rattle.spool_queue.specs.Printing.{HasTaken, sent_text, spooled_text};

use itoa::Buffer;
use outside::{Failed, Sink};

/// Writes all of the bytes. Takes no memory.
fn write_all<S: Sink>(out: &mut S, bytes: &[u8]) -> Result<(), Failed>
    ensures written { OnOk result (HasTaken (S.written out.old) bytes.now (S.written out.new)) }
    ensures faults_never_fall { S.faults out.old ≤ S.faults out.new }
    ensures failed_only_where_faults_rose { OnErr result (Rose (S.faults out.old) (S.faults
        out.new)) }
{
    let mut left = bytes;
    'pieces: while !left.is_empty() {
        let count = out.write(left)?;
        left = &left[count..];
    }
    Ok(())
}

/// Prints how many lines were put.
pub(crate) fn print_spooled<S: Sink>(out: &mut S, lines: u64) -> Result<(), Failed>
    ensures written { OnOk result (HasTaken (S.written out.old) (spooled_text lines)
        (S.written out.new)) }
    ensures faults_never_fall { S.faults out.old ≤ S.faults out.new }
    ensures failed_only_where_faults_rose { OnErr result (Rose (S.faults out.old) (S.faults
        out.new)) }
{
    write_all(out, b"spooled ")?;
    write_all(out, Buffer::new().format(lines).as_bytes())?;
    write_all(out, b"\n")
}

/// Prints how many payloads were settled and how many are left.
pub(crate) fn print_sent<S: Sink>(out: &mut S, sent: u64, left: u64) -> Result<(), Failed>
    ensures written { OnOk result (HasTaken (S.written out.old) (sent_text sent left)
        (S.written out.new)) }
    ensures faults_never_fall { S.faults out.old ≤ S.faults out.new }
    ensures failed_only_where_faults_rose { OnErr result (Rose (S.faults out.old) (S.faults
        out.new)) }
{
    write_all(out, b"sent ")?;
    write_all(out, Buffer::new().format(sent).as_bytes())?;
    write_all(out, b" left ")?;
    write_all(out, Buffer::new().format(left).as_bytes())?;
    write_all(out, b"\n")
}

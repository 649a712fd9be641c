ghost use Rattle.std.specs.Prelude.{◌≤◌, OnErr};
ghost use Rattle.outside.specs.Counts.{Rose};
ghost use Rattle.report.specs.Writing.{WritesAll};

use outside::{Failed, Sink};

/// Writes all of the bytes, or a front of them if the sink fails. Takes no memory.
pub fn write_all<S: Sink>(out: &mut S, bytes: &[u8]) -> Result<(), Failed>
    ensures told { WritesAll (S.written out.old) bytes.now result (S.written out.new) }
    ensures faults_never_fall { S.faults out.old ≤ S.faults out.new }
    ensures failed_only_where_faults_rose { OnErr result (Rose (S.faults out.old) (S.faults out.new)) }
{
    let mut left = bytes;
    while !left.is_empty() {
        let count = out.write(left)?;
        left = &left[count..];
    }
    Ok(())
}

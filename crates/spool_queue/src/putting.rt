ghost use Rattle.std.specs.Prelude.{◌≡◌, ◌≢◌, [], ◌∷◌, Err, IfErr, OnOk};
ghost use Rattle.outside.specs.Counts.{Rose};
ghost use Rattle.spool_queue.specs.PutSoFar.{PutsAll, PutsLines, StopsIn};
ghost use Rattle.spool_queue.specs.Standing.{IsClosed};

use crate::stop::Stop;
use crate::{Spool, SpoolError};
use outside::{Disk, Source};
use std::alloc::Global;
use std::sync::Wait;

/// So many bytes are read at once at most.
const PIECE_BYTES: usize = 65_536;

/// Puts each line of a source that has a line feed, without it, in order.
pub(crate) fn put_lines<X: Wait, R: Source, D: Disk>(
    rt: &X,
    alloc: Global,
    source: &mut R,
    spool: &mut Spool,
    disk: &mut D,
) -> Result<(), Stop>
    requires open { ¬ (IsClosed spool.old) }
    ensures puts { PutsAll D.Disk disk.old disk.new spool.old spool.new (R.left source.old) result }
    ensures never_unreachable { result ≢ Err Stop.Unreachable }
    ensures source_fault_only_where_faults_rose { result ≡ Err Stop.Source →
        Rose (R.faults source.old) (R.faults source.new) }
{
    let mut line = Vec::new(alloc);
    let mut piece = [0u8; PIECE_BYTES];
    for _ in rt.forever() {
        match source.read(&mut piece) {
            Ok(0) => return Ok(()),
            Ok(count) => put_piece(alloc, spool, disk, &mut line, &piece[..count])?,
            Err(_) => return Err(Stop::Source),
        }
    }
    unreachable!()
}

/// Puts the lines that a piece ends; `line` is what was read of the line that is not whole.
fn put_piece<D: Disk>(
    alloc: Global,
    spool: &mut Spool,
    disk: &mut D,
    line: &mut Vec<u8>,
    piece: &[u8],
) -> Result<(), SpoolError>
    ensures puts { OnOk result (PutsLines D.Disk disk.old disk.new spool.old spool.new
        line.old.items piece.now line.new.items) }
    ensures stops { IfErr result (StopsIn D.Disk disk.old disk.new spool.old spool.new
        line.old.items piece.now) }
{
    'bytes: for byte in piece {
        put_byte(alloc, spool, disk, line, *byte)?;
    }
    Ok(())
}

/// Takes the next byte of a line: puts the line if the byte ends it.
fn put_byte<D: Disk>(
    alloc: Global,
    spool: &mut Spool,
    disk: &mut D,
    line: &mut Vec<u8>,
    byte: u8,
) -> Result<(), SpoolError>
    ensures puts { OnOk result (PutsLines D.Disk disk.old disk.new spool.old spool.new
        line.old.items (byte ∷ []) line.new.items) }
    ensures stops { IfErr result (StopsIn D.Disk disk.old disk.new spool.old spool.new
        line.old.items (byte ∷ [])) }
{
    if byte == b'\n' {
        spool.put(alloc, disk, line)?;
        line.clear();
    } else {
        line.push(byte)?;
    }
    Ok(())
}

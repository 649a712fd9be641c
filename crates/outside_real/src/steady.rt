ghost use Rattle.std.specs.Prelude.{◌+◌, ◌<◌, ◌≤◌, length, IfOk};
ghost use Rattle.wire_base.specs.Ranges.{IsPlace};

use std::fs::File;
use std::io;
use std::io::{ErrorKind, Read, Write};
use std::os::unix::fs::FileExt;
use wire_base::MAX_PLACE;

/// Reads once, and again when a signal cut the call short.
pub(crate) fn read_some(reader: &mut impl Read, into: &mut [u8]) -> io::Result<usize>
    ensures { IfOk result (λ count. count ≤ length into.old) }
{
    for _ in 0..u64::MAX {
        match reader.read(into) {
            Err(error) if error.kind() == ErrorKind::Interrupted => {}
            answer => return answer,
        }
    }
    Err(io::Error::from(ErrorKind::Interrupted))
}

/// Reads at a place; nothing is at `MAX_PLACE` or after it.
pub(crate) fn read_some_at(file: &File, at: u64, into: &mut [u8]) -> io::Result<usize>
    ensures within { IfOk result (λ count. count ≤ length into.old) }
    ensures in_range { IfOk result (λ count. 0 < count → IsPlace (at + count)) }
{
    let room = usize::try_from(MAX_PLACE.saturating_sub(at)).unwrap_or(usize::MAX);
    let room = room.min(into.len());
    if room == 0 {
        return Ok(0);
    }
    read_front_at(file, at, &mut into[..room])
}

fn read_front_at(file: &File, at: u64, into: &mut [u8]) -> io::Result<usize>
    ensures { IfOk result (λ count. count ≤ length into.old) }
{
    for _ in 0..u64::MAX {
        match file.read_at(into, at) {
            Err(error) if error.kind() == ErrorKind::Interrupted => {}
            answer => return answer,
        }
    }
    Err(io::Error::from(ErrorKind::Interrupted))
}

/// Writes a front of the piece; taking nothing of a nonempty piece is a failure.
pub(crate) fn write_some(writer: &mut impl Write, piece: &[u8]) -> io::Result<usize>
    ensures within { IfOk result (λ count. count ≤ length piece.now) }
    ensures some { IfOk result (λ count. 0 < length piece.now → 0 < count) }
{
    for _ in 0..u64::MAX {
        match writer.write(piece) {
            Ok(0) if !piece.is_empty() => return Err(io::Error::from(ErrorKind::WriteZero)),
            Err(error) if error.kind() == ErrorKind::Interrupted => {}
            answer => return answer,
        }
    }
    Err(io::Error::from(ErrorKind::Interrupted))
}

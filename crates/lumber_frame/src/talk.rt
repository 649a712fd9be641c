ghost use Rattle.std.specs.Prelude.{◌≡◌, ℕ, ◌+◌, ◌^◌, ◌<◌, List, length, IfOk};
ghost use Rattle.lumber_frame.specs.Talk.{out_bytes, in_bytes, out_before};

use std::alloc::Global;
use wire_base::{NoMemory, Piece};

pub fn out_of(alloc: Global, talk: &[Piece]) -> Result<Vec<u8>, NoMemory>
    ensures { IfOk result (λ bytes. bytes.items ≡ out_bytes talk.now) }
{
    let mut out = Vec::new(alloc);
    for piece in talk {
        if let Piece::Out(bytes) = piece {
            out.extend_from_slice(bytes.bytes())?;
        }
    }
    Ok(out)
}

pub fn in_of(alloc: Global, talk: &[Piece]) -> Result<Vec<u8>, NoMemory>
    ensures { IfOk result (λ bytes. bytes.items ≡ in_bytes talk.now) }
{
    let mut received = Vec::new(alloc);
    for piece in talk {
        if let Piece::In(bytes) = piece {
            received.extend_from_slice(bytes.bytes())?;
        }
    }
    Ok(received)
}

/// How many bytes were sent before the received byte at `place` came.
pub fn out_before(talk: &[Piece], place: usize) -> usize
    requires { length (out_bytes talk.now) < 2 ^ 64 }
    ensures { result ≡ out_before talk.now place }
{
    let mut out = 0;
    let mut left = place;
    for piece in talk {
        match piece {
            Piece::Out(bytes) => out += bytes.bytes().len(),
            Piece::In(bytes) => {
                if left < bytes.bytes().len() {
                    return out;
                }
                left -= bytes.bytes().len();
            }
        }
    }
    out
}

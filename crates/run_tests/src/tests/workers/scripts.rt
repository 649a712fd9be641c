//! Peers in memory, by what each of their links does.
use outside_mem::{MemPiece, MemTalk, MemWire};
use std::alloc::Global;
use wire_base::{Blob, NoMemory, Piece};

/// What the peer of one link does: it sends each of these bytes once so many windows came whole, and then closes or falls
/// silent.
#[derive(Clone, Copy)]
pub struct Script<'a> {
    pub pieces: &'a [(u64, &'a [u8])],
    pub closes: bool,
}

fn talk(alloc: Global, script: Script<'_>) -> Result<MemTalk, NoMemory> {
    let mut pieces = Vec::new(alloc);
    for (windows, bytes) in script.pieces {
        pieces.push(MemPiece {
            windows: *windows,
            bytes: Blob::from_bytes(alloc, bytes)?,
        })?;
    }
    Ok(MemTalk::Pieces {
        pieces,
        closes: script.closes,
    })
}

/// A wire whose links have these peers, in their order. After them each peer acknowledges every window.
pub fn scripted(alloc: Global, scripts: &[Script<'_>]) -> Result<MemWire, NoMemory> {
    let mut talks = Vec::new(alloc);
    for script in scripts {
        talks.push(talk(alloc, *script)?)?;
    }
    MemWire::new(alloc, talks)
}

/// What was sent first over the link that was finished last.
pub fn first_sent(wire: &MemWire) -> &[u8] {
    match wire.last_talk().first() {
        Some(Piece::Out(bytes)) => bytes.bytes(),
        _ => &[],
    }
}

/// How many bytes were sent over the link that was finished last.
pub fn bytes_sent(wire: &MemWire) -> u64 {
    let mut count = 0_u64;
    for piece in wire.last_talk() {
        if let Piece::Out(bytes) = piece {
            count = count.saturating_add(bytes.bytes().len() as u64);
        }
    }
    count
}

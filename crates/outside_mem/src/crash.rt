ghost use Rattle.std.specs.Prelude.{◌≡◌, ◌<◌, ◌≤◌, ◌+◌, ◌^◌, length, IfOk, OnOk, IfSome};
ghost use Rattle.outside.specs.DiskImages.{Torn};
ghost use Rattle.outside.specs.DiskReads.{written};
ghost use Rattle.outside_mem.specs.Torn.{patched};
ghost use Rattle.outside_mem.specs.Filled.{filled, filler_of, gap_byte, range_of};
ghost use Rattle.outside_mem.specs.declared.crash.Filler.{Filler};
ghost use Rattle.outside_mem.specs.declared.crash.Filler.TheVariants.{Kept};
ghost use Rattle.wire_base.specs.Ranges.{IsPlace};

use crate::change::{Change, Write};
use std::alloc::{AllocError, Global};
use wire_base::{MAX_PLACE, NoMemory};

/// What a crash puts into the ranges that were written since the last sync.
#[derive(Clone, Copy)]
pub(crate) enum Filler {
    /// The bytes that were there, and zeros past the old end.
    Kept,
    Byte(u8),
}

impl Filler {
    /// The filler of a pick; other picks than 1, 2 and 3 have none.
    pub(crate) fn of(pick: u64) -> Option<Filler>
        ensures { result ≡ filler_of pick }
    {
        match pick {
            1 => Some(Filler::Kept),
            2 => Some(Filler::Byte(b'7')),
            3 => Some(Filler::Byte(b'{')),
            _ => None,
        }
    }

    fn byte(self) -> u8
        ensures { result ≡ gap_byte self }
    {
        match self {
            Filler::Kept => 0,
            Filler::Byte(byte) => byte,
        }
    }
}

/// The changes of a disk made again one by one: the image that a crash leaves, and what a read gives.
#[derive(Drop)]
pub(crate) struct Replay {
    pub(crate) image: Vec<u8>,
    reads: Vec<u8>,
}

impl Replay {
    ghost use Rattle.outside_mem.specs.Images.{fresh};
    ghost use Rattle.outside_mem.specs.Replays.{StandsFor, Follows};

    pub(crate) fn new(alloc: Global, first: &[u8]) -> Result<Replay, AllocError>
        ensures { IfOk result (λ replay. (filler : Filler) → StandsFor filler (fresh first.now) replay) }
    {
        Ok(Replay {
            image: first.to_vec(alloc)?,
            reads: first.to_vec(alloc)?,
        })
    }

    /// Makes one change again, with a crash after it that leaves `filler` in its range.
    pub(crate) fn step(
        &mut self,
        alloc: Global,
        change: &Change,
        filler: Filler,
    ) -> Result<(), AllocError>
        ensures { OnOk result (Follows filler self.old self.new change.now) }
    {
        match change {
            Change::Wrote(write) => {
                let reads = rewritten(alloc, &self.reads, write)?;
                self.image = torn(alloc, &self.image, write.at, write.bytes.len(), filler)?;
                self.reads = reads;
                Ok(())
            }
            Change::WriteFailed { at, len } => {
                self.image = torn(alloc, &self.image, *at, *len, filler)?;
                Ok(())
            }
            Change::CutTo { len } => {
                self.reads.truncate(*len as usize);
                Ok(())
            }
            Change::Synced => {
                self.image = self.reads.to_vec(alloc)?;
                Ok(())
            }
        }
    }
}

/// The contents after a write that was made.
fn rewritten(alloc: Global, contents: &[u8], write: &Write) -> Result<Vec<u8>, AllocError>
    ensures { IfOk result (λ next. next.items ≡ written contents.now write.now.at write.now.bytes.items) }
{
    if write.bytes.is_empty() {
        return contents.to_vec(alloc);
    }
    patched(alloc, contents, write.at, 0, &write.bytes)
}

/// The contents after a torn write of `len` bytes at `at`.
fn torn(
    alloc: Global,
    contents: &[u8],
    at: u64,
    len: usize,
    filler: Filler,
) -> Result<Vec<u8>, AllocError>
    ensures torn { IfOk result (λ next. Torn at len contents.now next.items) }
    ensures filled { IfOk result (λ next. next.items ≡ filled filler contents.now at len) }
{
    if len == 0 {
        return contents.to_vec(alloc);
    }
    let range = match filler {
        Filler::Kept => kept(alloc, contents, at, len)?,
        Filler::Byte(byte) => vec![in alloc; byte; len]?,
    };
    patched(alloc, contents, at, filler.byte(), &range)
}

/// The `len` bytes from `at` on, with zeros past the end.
fn kept(alloc: Global, contents: &[u8], at: u64, len: usize) -> Result<Vec<u8>, AllocError>
    ensures { IfOk result (λ range. range.items ≡ range_of Kept contents.now at len) }
{
    let start = (at as usize).min(contents.len());
    let count = len.min(contents.len() - start);
    let mut range = contents[start..start + count].to_vec(alloc)?;
    let zeros = vec![in alloc; 0; len - count]?;
    range.extend_from_slice(&zeros)?;
    Ok(range)
}

/// The contents with at least one byte put over them, and `filler` in a gap before these; an end past
/// `MAX_PLACE` is out of memory.
pub(crate) fn patched(
    alloc: Global,
    contents: &[u8],
    at: u64,
    filler: u8,
    bytes: &[u8],
) -> Result<Vec<u8>, AllocError>
    ensures patched { IfOk result (λ next. next.items ≡ patched contents.now at filler bytes.now) }
    ensures in_range { OnOk result (IsPlace (at + length bytes.now)) }
{
    let end = at.checked_add(bytes.len() as u64).ok_or(AllocError)?;
    if end > MAX_PLACE {
        return Err(AllocError);
    }
    let start = (at as usize).min(contents.len());
    let mut next = contents[..start].to_vec(alloc)?;
    let gap = vec![in alloc; filler; at as usize - start]?;
    next.extend_from_slice(&gap)?;
    next.extend_from_slice(bytes)?;
    next.extend_from_slice(&contents[(end as usize).min(contents.len())..])?;
    Ok(next)
}

ghost use Rattle.std.specs.Prelude.{OnOk, OnErr};

use std::alloc::Global;
use wire_base::{Blob, NoMemory, Piece};

/// What a link in memory reports.
#[derive(Drop)]
pub(crate) struct LinkHistory {
    pub(crate) pieces: Vec<Piece>,
    /// Nothing had come at some time after the last piece that was sent.
    pub(crate) idled: bool,
    pub(crate) faults: u64,
    pub(crate) idles: u64,
}

impl LinkHistory {
    ghost use Rattle.outside_mem.specs.LinkHistories.{IsFresh, Stays, Sends, Receives, Faults, Idles};

    pub(crate) fn new(alloc: Global) -> LinkHistory
        ensures { IsFresh result }
    {
        LinkHistory {
            pieces: Vec::new(alloc),
            idled: false,
            faults: 0,
            idles: 0,
        }
    }

    /// Adds bytes that were sent.
    pub(crate) fn send(&mut self, alloc: Global, bytes: &[u8]) -> Result<(), NoMemory>
        ensures ok { OnOk result (Sends self.old bytes.now self.new) }
        ensures err { OnErr result (Stays self.old self.new) }
    {
        let blob = Blob::from_bytes(alloc, bytes)?;
        self.pieces.push(Piece::Out(blob))?;
        self.idled = false;
        Ok(())
    }

    /// Adds bytes that were received.
    pub(crate) fn receive(&mut self, alloc: Global, bytes: &[u8]) -> Result<(), NoMemory>
        ensures ok { OnOk result (Receives self.old bytes.now self.new) }
        ensures err { OnErr result (Stays self.old self.new) }
    {
        let blob = Blob::from_bytes(alloc, bytes)?;
        self.pieces.push(Piece::In(blob))?;
        Ok(())
    }

    pub(crate) fn fault(&mut self)
        ensures { Faults self.old self.new }
    {
        self.faults = self.faults.saturating_add(1);
    }

    /// Notes that nothing had come.
    pub(crate) fn idle(&mut self)
        ensures { Idles self.old self.new }
    {
        self.idles = self.idles.saturating_add(1);
        self.idled = true;
    }
}

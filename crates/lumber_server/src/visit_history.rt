ghost use Rattle.std.specs.Prelude.{OnOk, OnErr};

use std::alloc::Global;
use wire_base::{Blob, NoMemory, Piece};

/// What is known of a link in memory.
#[derive(Debug, Drop)]
pub(crate) struct VisitHistory {
    pub(crate) pieces: Vec<Piece>,
    /// Nothing had come at some time after the last piece that was sent.
    pub(crate) idled: bool,
    pub(crate) faults: u64,
    pub(crate) idles: u64,
    pub(crate) failed_sends: u64,
}

impl VisitHistory {
    ghost use Rattle.lumber_server.specs.VisitHistories.{FailsOnce, FaultsOnce, IdlesOnce, IsFresh, ReceivesBytes, SendsBytes, Stays};

    pub(crate) fn new(alloc: Global) -> VisitHistory
        ensures { IsFresh result }
    {
        VisitHistory {
            pieces: Vec::new(alloc),
            idled: false,
            faults: 0,
            idles: 0,
            failed_sends: 0,
        }
    }

    /// Adds bytes that were sent.
    pub(crate) fn send(&mut self, alloc: Global, bytes: &[u8]) -> Result<(), NoMemory>
        ensures ok { OnOk result (SendsBytes self.old bytes.now self.new) }
        ensures err { OnErr result (Stays self.old self.new) }
    {
        let blob = Blob::from_bytes(alloc, bytes)?;
        self.pieces.push(Piece::Out(blob))?;
        self.idled = false;
        Ok(())
    }

    /// Adds bytes that were received.
    pub(crate) fn receive(&mut self, alloc: Global, bytes: &[u8]) -> Result<(), NoMemory>
        ensures ok { OnOk result (ReceivesBytes self.old bytes.now self.new) }
        ensures err { OnErr result (Stays self.old self.new) }
    {
        let blob = Blob::from_bytes(alloc, bytes)?;
        self.pieces.push(Piece::In(blob))?;
        Ok(())
    }

    pub(crate) fn fault(&mut self)
        ensures { FaultsOnce self.old self.new }
    {
        self.faults = self.faults.saturating_add(1);
    }

    /// Counts a send that failed.
    pub(crate) fn fail_send(&mut self)
        ensures { FailsOnce self.old self.new }
    {
        self.faults = self.faults.saturating_add(1);
        self.failed_sends = self.failed_sends.saturating_add(1);
    }

    /// Notes that nothing had come.
    pub(crate) fn idle(&mut self)
        ensures { IdlesOnce self.old self.new }
    {
        self.idles = self.idles.saturating_add(1);
        self.idled = true;
    }
}

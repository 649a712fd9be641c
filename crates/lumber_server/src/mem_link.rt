ghost use Rattle.std.specs.Prelude.{◌≡◌, ◌<◌, ◌≤◌, Some, IfOk, IfSome, OnErr, OnOk, length, take};

use crate::visit_chain::{VisitNode, spare_node};
use crate::visit_history::VisitHistory;
use outside::{Failed, Link, Recv};
use std::alloc::Global;
use wire_base::{Blob, NoMemory};

/// What a peer in memory sends, and how it ends.
#[derive(Debug, Drop)]
pub struct MemVisit {
    /// What is received, piece by piece.
    pub pieces: Vec<Blob>,
    /// Whether the peer closes the connection after its last piece; else nothing comes any more.
    pub closes: bool,
    /// The number of the send that fails, counted from 0.
    pub failing_send: Option<u64>,
}

/// A connection to a peer in memory, all of it known. Only `MemPort::finish` releases it.
#[derive(Debug)]
pub struct VisitLink {
    alloc: Global,
    /// The pieces to come, the next one last.
    pieces: Vec<Blob>,
    /// How many bytes of the next piece were received.
    given: usize,
    closes: bool,
    failing_send: Option<u64>,
    sends: u64,
    pub(crate) history: VisitHistory,
    node: Box<VisitNode>,
}

/// What a port takes over of a link.
pub(crate) struct VisitEnd {
    pub(crate) history: VisitHistory,
    pub(crate) node: Box<VisitNode>,
}

impl VisitLink {
    ghost use Rattle.lumber_server.specs.VisitHistories.{IsFresh};

    /// A link to the peer of this visit.
    pub(crate) fn new(alloc: Global, visit: MemVisit) -> Result<VisitLink, NoMemory>
        ensures { IfOk result (λ link. IsFresh link.history) }
    {
        let node = spare_node(alloc)?;
        let MemVisit {
            mut pieces,
            closes,
            failing_send,
        } = visit;
        pieces.reverse();
        Ok(VisitLink {
            alloc,
            pieces,
            given: 0,
            closes,
            failing_send,
            sends: 0,
            history: VisitHistory::new(alloc),
            node,
        })
    }

    /// The rest of a link that is finished.
    pub(crate) fn into_end(self) -> VisitEnd
        ensures { result.history ≡ self.history }
    {
        let VisitLink {
            alloc: _,
            pieces: _pieces,
            given: _,
            closes: _,
            failing_send: _,
            sends: _,
            history,
            node,
        } = self;
        VisitEnd { history, node }
    }

    /// Whether the next send fails.
    fn next_send_fails(&mut self) -> bool
        ensures { self.new.history ≡ self.old.history }
    {
        let number = self.sends;
        self.sends = self.sends.saturating_add(1);
        self.failing_send == Some(number)
    }

    /// Copies bytes of the next piece into the front of `into`; how many, 0 if no piece is left.
    fn give(&mut self, into: &mut [u8]) -> usize
        ensures within { result ≤ length into.old }
        ensures history { self.new.history ≡ self.old.history }
    {
        let Some(piece) = self.pieces.last() else {
            return 0;
        };
        let left = &piece.bytes()[self.given.min(piece.bytes().len())..];
        let count = left.len().min(into.len());
        into[..count].copy_from_slice(&left[..count]);
        let whole = count == left.len();
        if whole {
            let _ = self.pieces.pop();
            self.given = 0;
        } else {
            self.given = self.given.saturating_add(count);
        }
        count
    }
}

impl Link for VisitLink {
    ghost use Rattle.lumber_server.specs.VisitHistories.{talk_of};

    ghost told = { λ l. Some (talk_of l.history) };

    ghost faults = { λ l. l.history.faults };

    ghost idles = { λ l. l.history.idles };

    ghost failed_sends = { λ l. l.history.failed_sends };

    fn send(&mut self, piece: &[u8]) -> Result<usize, Failed> {
        if self.next_send_fails() {
            self.history.fail_send();
            return Err(Failed);
        }
        if piece.is_empty() {
            return Ok(0);
        }
        match self.history.send(self.alloc, piece) {
            Ok(()) => Ok(piece.len()),
            Err(_) => {
                self.history.fail_send();
                Err(Failed)
            }
        }
    }

    fn recv(&mut self, into: &mut [u8]) -> Recv {
        let count = self.give(into);
        if count > 0 {
            return match self.history.receive(self.alloc, &into[..count]) {
                Ok(()) => Recv::Got(count),
                Err(_) => {
                    self.history.fault();
                    Recv::Failed
                }
            };
        }
        if self.pieces.is_empty() && self.closes {
            self.history.fault();
            return Recv::Closed;
        }
        self.history.idle();
        Recv::NotYet
    }
}

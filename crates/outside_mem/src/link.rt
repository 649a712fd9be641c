ghost use Rattle.std.specs.Prelude.{◌≡◌, ◌≤◌, Some, IfOk, OnOk, OnErr};
ghost use Rattle.outside.specs.Counts.{Rose, added_counts, next_count};
ghost use Rattle.outside_mem.specs.LinkHistories.{talk_of, Faults};

use crate::failing::FailingCalls;
use crate::link_history::LinkHistory;
use crate::outcomes::{OutcomeNode, spare_node};
use crate::talk::{Answer, MemTalk};
use crate::windows::WindowReader;
use outside::{Failed, Link, Recv};
use std::alloc::Global;
use wire_base::NoMemory;

/// A connection to a peer in memory, all known. Only `MemWire::finish` closes it.
pub struct MemLink {
    alloc: Global,
    talk: MemTalk,
    windows: WindowReader,
    /// The counts of the whole windows that were sent.
    whole: Vec<u32>,
    /// How many bytes were received.
    received: usize,
    sends: FailingCalls,
    recvs: FailingCalls,
    history: LinkHistory,
    failed_sends: u64,
    starved: u64,
    /// How often it failed, or was closed, because a list or its talk asked for it.
    asked: u64,
    /// Where its outcome will be.
    node: Box<OutcomeNode>,
    ghost accounted: { history.faults ≡ added_counts starved asked },
}

/// What a wire takes over of a link.
pub(crate) struct LinkEnd {
    pub(crate) history: LinkHistory,
    pub(crate) starved: u64,
    pub(crate) asked: u64,
    pub(crate) node: Box<OutcomeNode>,
    ghost accounted: { history.faults ≡ added_counts starved asked },
}

impl MemLink {
    ghost use Rattle.outside_mem.specs.LinkHistories.{IsFresh, Stays, Sends};

    /// A link to a peer that answers by `All`.
    pub(crate) fn new(
        alloc: Global,
        sends: FailingCalls,
        recvs: FailingCalls,
    ) -> Result<MemLink, NoMemory>
        ensures fresh { IfOk result (λ link. IsFresh link.history) }
        ensures no_failed_send { IfOk result (λ link. link.failed_sends ≡ 0) }
    {
        Ok(MemLink {
            alloc,
            talk: MemTalk::All,
            windows: WindowReader::new(),
            whole: Vec::new(alloc),
            received: 0,
            sends,
            recvs,
            history: LinkHistory::new(alloc),
            failed_sends: 0,
            starved: 0,
            asked: 0,
            node: spare_node(alloc)?,
        })
    }

    /// The same link to a peer that answers by this talk.
    pub(crate) fn with_talk(mut self, talk: MemTalk) -> MemLink
        ensures history { result.history ≡ self.history }
        ensures failed_sends { result.failed_sends ≡ self.failed_sends }
    {
        self.talk = talk;
        self
    }

    /// What is left of a link that is finished.
    pub(crate) fn into_end(self) -> LinkEnd
        ensures history { result.history ≡ self.history }
        ensures starved { result.starved ≡ self.starved }
        ensures asked { result.asked ≡ self.asked }
    {
        let MemLink {
            alloc: _,
            talk: _talk,
            windows: _,
            whole: _whole,
            received: _,
            sends: _sends,
            recvs: _recvs,
            history,
            failed_sends: _,
            starved,
            asked,
            node,
        } = self;
        LinkEnd {
            history,
            starved,
            asked,
            node,
        }
    }

    fn try_send(&mut self, piece: &[u8]) -> Result<(), NoMemory>
        ensures ok { OnOk result (Sends self.old.history piece.now self.new.history) }
        ensures err { OnErr result (Stays self.old.history self.new.history) }
        ensures failed_sends { self.new.failed_sends ≡ self.old.failed_sends }
        ensures starved { self.new.starved ≡ self.old.starved }
        ensures asked { self.new.asked ≡ self.old.asked }
    {
        let mut windows = self.windows;
        let whole = windows.read(self.alloc, piece)?;
        let known = self.whole.len();
        self.whole.extend_from_slice(&whole)?;
        match self.history.send(self.alloc, piece) {
            Ok(()) => {
                self.windows = windows;
                Ok(())
            }
            Err(error) => {
                self.whole.truncate(known);
                Err(error)
            }
        }
    }

    fn count_failed_send(&mut self)
        ensures history { self.new.history ≡ self.old.history }
        ensures no_less { self.old.failed_sends ≤ self.new.failed_sends }
        ensures rose { Rose self.old.failed_sends self.new.failed_sends }
    {
        self.failed_sends = self.failed_sends.saturating_add(1);
    }

    /// Fails, since a list or the talk asks for it.
    fn fail(&mut self)
        ensures history { Faults self.old.history self.new.history }
        ensures failed_sends { self.new.failed_sends ≡ self.old.failed_sends }
        ensures starved { self.new.starved ≡ self.old.starved }
        ensures asked { self.new.asked ≡ next_count self.old.asked }
    {
        self.history.fault();
        self.asked = self.asked.saturating_add(1);
    }

    /// Fails as out of memory.
    fn starve(&mut self)
        ensures history { Faults self.old.history self.new.history }
        ensures failed_sends { self.new.failed_sends ≡ self.old.failed_sends }
        ensures starved { self.new.starved ≡ next_count self.old.starved }
        ensures asked { self.new.asked ≡ self.old.asked }
    {
        self.history.fault();
        self.starved = self.starved.saturating_add(1);
    }
}

impl Link for MemLink {
    ghost told = { λ l. Some (talk_of l.history) };

    ghost faults = { λ l. l.history.faults };

    ghost idles = { λ l. l.history.idles };

    ghost failed_sends = { λ l. l.failed_sends };

    fn send(&mut self, piece: &[u8]) -> Result<usize, Failed> {
        if self.sends.next_fails() {
            self.fail();
            self.count_failed_send();
            return Err(Failed);
        }
        if piece.is_empty() {
            return Ok(0);
        }
        match self.try_send(piece) {
            Ok(()) => Ok(piece.len()),
            Err(_) => {
                self.starve();
                self.count_failed_send();
                Err(Failed)
            }
        }
    }

    fn recv(&mut self, into: &mut [u8]) -> Recv {
        if self.recvs.next_fails() {
            self.fail();
            return Recv::Failed;
        }
        match self.talk.give(&self.whole, self.received, into) {
            Answer::Bytes(count) => match self.history.receive(self.alloc, &into[..count]) {
                Ok(()) => {
                    self.received = self.received.saturating_add(count);
                    Recv::Got(count)
                }
                Err(_) => {
                    self.starve();
                    Recv::Failed
                }
            },
            Answer::Closed => {
                self.fail();
                Recv::Closed
            }
            Answer::Failed => {
                self.fail();
                Recv::Failed
            }
            Answer::NotYet => {
                self.history.idle();
                Recv::NotYet
            }
        }
    }
}

ghost use Rattle.std.specs.Prelude.{◌≡◌, Some, [], IfOk};

use crate::mem_link::{MemVisit, VisitEnd, VisitLink};
use crate::port::{Accept, Port};
use crate::visit_chain::FinishedVisits;
use std::alloc::Global;
use wire_base::{NoMemory, Piece};

/// Peers in memory that come one after the other, all of it known.
#[derive(Debug, Drop)]
pub struct MemPort {
    alloc: Global,
    /// The visits to come, the next one last.
    visits: Vec<MemVisit>,
    /// The number of the accept that fails, counted from 0.
    failing_accept: Option<u64>,
    accepts: u64,
    faults: u64,
    idles: u64,
    finished: FinishedVisits,
}

impl MemPort {
    /// The accept number i that succeeds, from 0, gives visit i; past the last visit no peer comes. The accept of the given
    /// number fails.
    pub fn new(
        alloc: Global,
        mut visits: Vec<MemVisit>,
        failing_accept: Option<u64>,
    ) -> Result<MemPort, NoMemory>
        ensures finished { IfOk result (λ port. ⟦<MemPort as Port>⟧.finished port ≡ Some []) }
        ensures faults { IfOk result (λ port. ⟦<MemPort as Port>⟧.faults port ≡ 0) }
        ensures idles { IfOk result (λ port. ⟦<MemPort as Port>⟧.idles port ≡ 0) }
    {
        visits.reverse();
        Ok(MemPort {
            alloc,
            visits,
            failing_accept,
            accepts: 0,
            faults: 0,
            idles: 0,
            finished: FinishedVisits::new(),
        })
    }

    /// What was sent and received over the link that was finished last; nothing if none was.
    pub fn last_talk(&self) -> &[Piece] {
        self.finished.last_talk()
    }
}

impl Port for MemPort {
    ghost use Rattle.lumber_server.specs.VisitChains.{told_chain};

    type Link = VisitLink;

    ghost finished = { λ p. Some (told_chain p.finished.last) };

    ghost faults = { λ p. p.faults };

    ghost idles = { λ p. p.idles };

    fn accept(&mut self) -> Accept<VisitLink> {
        let number = self.accepts;
        self.accepts = self.accepts.saturating_add(1);
        if self.failing_accept == Some(number) {
            self.faults = self.faults.saturating_add(1);
            return Accept::Failed;
        }
        let Some(visit) = self.visits.pop() else {
            self.idles = self.idles.saturating_add(1);
            return Accept::NotYet;
        };
        match VisitLink::new(self.alloc, visit) {
            Ok(link) => Accept::Got(link),
            Err(_) => {
                self.faults = self.faults.saturating_add(1);
                Accept::Failed
            }
        }
    }

    fn finish(&mut self, link: VisitLink) {
        let VisitEnd { history, node } = link.into_end();
        self.finished.finish(node, history);
    }
}

ghost use Rattle.std.specs.Prelude.{◌≡◌, ◌∷◌, ◌++◌, []};

use crate::visit_history::VisitHistory;
use std::alloc::Global;
use std::mem;
use wire_base::{NoMemory, Piece};

/// The links that a port finished. Adding to it takes no memory.
#[derive(Debug, Drop)]
pub(crate) struct FinishedVisits {
    last: VisitChain,
}

/// The links that were finished, the last one first.
#[cycle(visit)]
#[derive(Debug)]
enum VisitChain {
    Start,
    After(Box<VisitNode>),
}

/// A link that was finished, with those before it.
#[cycle(visit)]
#[derive(Debug, Drop)]
pub(crate) struct VisitNode {
    before: VisitChain,
    history: VisitHistory,
}

// A loop, so that a long chain does not run out of stack.
impl Drop for VisitChain {
    fn drop(mut self) {
        loop {
            match self {
                VisitChain::Start => return,
                VisitChain::After(node) => {
                    let VisitNode { before, .. } = Box::into_inner(node);
                    self = before;
                }
            }
        }
    }
}

/// Room for one link that is finished.
pub(crate) fn spare_node(alloc: Global) -> Result<Box<VisitNode>, NoMemory> {
    Ok(Box::new(
        alloc,
        VisitNode {
            before: VisitChain::Start,
            history: VisitHistory::new(alloc),
        },
    )?)
}

impl FinishedVisits {
    ghost use Rattle.lumber_server.specs.VisitChains.{told_chain};
    ghost use Rattle.lumber_server.specs.VisitHistories.{finished_of};

    pub(crate) fn new() -> FinishedVisits
        ensures { told_chain result.last ≡ [] }
    {
        FinishedVisits {
            last: VisitChain::Start,
        }
    }

    /// Adds a link that was finished.
    pub(crate) fn finish(&mut self, mut node: Box<VisitNode>, history: VisitHistory)
        ensures { told_chain self.new.last ≡ told_chain self.old.last ++ finished_of history ∷ [] }
    {
        node.before = mem::replace(&mut self.last, VisitChain::Start);
        node.history = history;
        self.last = VisitChain::After(node);
    }

    /// The talk of the link that was finished last; none if no link was.
    pub(crate) fn last_talk(&self) -> &[Piece] {
        match &self.last {
            VisitChain::Start => &[],
            VisitChain::After(node) => &node.history.pieces,
        }
    }
}

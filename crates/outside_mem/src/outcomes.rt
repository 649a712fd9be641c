ghost use Rattle.std.specs.Prelude.{◌≡◌, ◌∷◌, ◌++◌, []};

use crate::link_history::LinkHistory;
use std::alloc::Global;
use std::mem;
use wire_base::{NoMemory, Piece};

/// What became of the connections of a wire. Adding to it takes no memory.
#[derive(Drop)]
pub(crate) struct Outcomes {
    last: OutcomeChain,
    /// The connections that failed since the last link was finished.
    pub(crate) refused: u64,
}

/// The links that were finished, the last one first.
#[cycle(outcome)]
enum OutcomeChain {
    Start,
    After(Box<OutcomeNode>),
}

/// A link that was finished, with what came before it.
#[cycle(outcome)]
#[derive(Drop)]
pub(crate) struct OutcomeNode {
    before: OutcomeChain,
    /// The connections that failed between the two links.
    refused: u64,
    history: LinkHistory,
}

// A loop, so that a long chain does not run out of stack.
impl Drop for OutcomeChain {
    fn drop(mut self) {
        loop {
            match self {
                OutcomeChain::Start => return,
                OutcomeChain::After(node) => {
                    let OutcomeNode { before, .. } = Box::into_inner(node);
                    self = before;
                }
            }
        }
    }
}

/// Room for the outcome of one link.
pub(crate) fn spare_node(alloc: Global) -> Result<Box<OutcomeNode>, NoMemory> {
    Ok(Box::new(
        alloc,
        OutcomeNode {
            before: OutcomeChain::Start,
            refused: 0,
            history: LinkHistory::new(alloc),
        },
    )?)
}

impl Outcomes {
    ghost use Rattle.outside.specs.Wires.{Refused, Finished};
    ghost use Rattle.outside_mem.specs.Outcomes.{told, last_talk, Refuses};
    ghost use Rattle.outside_mem.specs.LinkHistories.{talk_of};

    pub(crate) fn new() -> Outcomes
        ensures none { told result ≡ [] }
        ensures none_refused { result.refused ≡ 0 }
    {
        Outcomes {
            last: OutcomeChain::Start,
            refused: 0,
        }
    }

    /// The talk of the link that was finished last; none if no link was.
    pub(crate) fn last_talk(&self) -> &[Piece]
        ensures { result.now ≡ last_talk [] (told self.now) }
    {
        match &self.last {
            OutcomeChain::Start => &[],
            OutcomeChain::After(node) => &node.history.pieces,
        }
    }

    /// Adds a connection that failed, as long as these can be counted.
    pub(crate) fn refuse(&mut self)
        ensures { Refuses self.old self.new }
    {
        self.refused = self.refused.saturating_add(1);
    }

    /// Adds a link that was finished.
    pub(crate) fn finish(&mut self, mut node: Box<OutcomeNode>, history: LinkHistory)
        ensures told { told self.new ≡ told self.old ++ Finished (talk_of history) history.faults history.idles ∷ [] }
        ensures none_refused { self.new.refused ≡ 0 }
    {
        node.before = mem::replace(&mut self.last, OutcomeChain::Start);
        node.refused = self.refused;
        node.history = history;
        self.last = OutcomeChain::After(node);
        self.refused = 0;
    }
}

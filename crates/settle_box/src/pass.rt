ghost use Rattle.std.specs.Prelude.{◌≡◌, ◌-◌, ◌^◌, min};
ghost use Rattle.settle_box.specs.Poster.{senders_of};
ghost use Rattle.settle_box.specs.Senders.{posts_of};

use crate::rule::Hand;
use crossbeam_queue::Pass;
use std::marker::Model;
use wire_base::Note;

/// The right of one thread to post, with what was posted by it and by those that were joined into it.
#[derive(Drop)]
pub struct PostPass {
    pub(crate) pass: Pass<Note, Hand>,
    pub(crate) count: u64,
}

impl Model for PostPass {
    ghost use Rattle.settle_box.specs.Poster.{Poster};
    ghost use Rattle.settle_box.specs.Hand.{IsPostingPass, poster_of};

    ghost Value = { Poster };

    ghost view = { λ p. poster_of p.pass };

    ghost invariant = { λ p. IsPostingPass p.pass p.count };
}

impl PostPass {
    /// How many notes were posted by this pass and by those that were joined into it. The count
    /// saturates at 2^64 - 1.
    pub fn count(&self) -> u64
        ensures { result ≡ min (posts_of (senders_of self.now)) (2 ^ 64 - 1) }
    {
        self.count
    }
}

/// The right of the one thread that collects, with what was collected by it. It has no bytes.
#[derive(Drop)]
pub struct CollectPass {
    pub(crate) pass: Pass<Note, Hand>,
}

impl Model for CollectPass {
    ghost use Rattle.settle_box.specs.Collector.{Collector};
    ghost use Rattle.settle_box.specs.Hand.{IsCollectingPass, collector_of};

    ghost Value = { Collector };

    ghost view = { λ p. collector_of p.pass };

    ghost invariant = { λ p. IsCollectingPass p.pass };
}

ghost use Rattle.std.specs.Prelude.{◌≡◌, ℕ, List, [], ◌∷◌, IfSome, IfNone};
ghost use Rattle.wire_base.specs.Ranges.{IsNote};
ghost use Rattle.settle_box.specs.Notes.{IsPostable};
ghost use Rattle.settle_box.specs.Senders.{sent};

use crate::rule::{Drains, Hand, Ring};
use crossbeam_queue::Pass;
use std::marker::Model;
use std::sync::Wait;
use wire_base::Note;

/// What a closed box held, in the order of entry.
#[derive(Drop)]
pub struct Left {
    pub(crate) ring: Ring,
    pub(crate) pass: Pass<Note, Hand>,
    /// Taken ahead: only as it takes a note does a pass learn exactly what follows it.
    pub(crate) next: Option<Note>,
}

impl Model for Left {
    ghost use Rattle.std.specs.Prelude.{List};
    ghost use Rattle.crossbeam_queue.specs.Passes.{IsPassOf};
    ghost use Rattle.settle_box.specs.declared.sender.Sent.{Sent};
    ghost use Rattle.settle_box.specs.Left.{ArePostable, KnowsAhead, left_over};

    ghost Value = { List Sent };

    ghost view = { λ l. left_over l.next l.pass };

    ghost invariant = { λ l. IsPassOf l.ring l.pass × KnowsAhead l.next l.pass ×
        ArePostable (left_over l.next l.pass) };
}

impl Left {
    /// The first note that is left. `None` exactly if nothing is left. Takes no memory.
    pub fn next<R: Wait>(&mut self, rt: &R) -> Option<Note>
        ensures first { IfSome result (λ note. (from : List ℕ) × (self.old ≡ sent from note ∷ self.new)) }
        ensures kind { IfSome result (λ note. IsPostable note) }
        ensures range { IfSome result (λ note. IsNote note) }
        ensures none_where_nothing_is_left { IfNone result ((self.old ≡ []) × (self.new ≡ [])) }
    {
        let first = self.next.take()?;
        self.next = self.ring.pop_as::<Drains, R>(rt, &mut self.pass);
        Some(first)
    }
}

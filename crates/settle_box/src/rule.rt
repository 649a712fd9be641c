//! The rule of the box, and what each step reports. These types are for the proofs only.
use crate::{Sender, Sent};
use crossbeam_queue::RuledArrayQueue;
use crossbeam_queue::protocol::{Join, Lesson, Outcome, Protocol, Split};
use std::collections::LinkedList;
use wire_base::Note;

/// What a pass knows: its shares of the right to post and of the right to collect, its senders with
/// what they posted, what was collected by it, and of a closed box exactly what is left.
pub struct Hand {
    pub posts: LinkedList<u64>,
    pub collects: LinkedList<u64>,
    pub senders: LinkedList<Sender>,
    pub got: LinkedList<Sent>,
    pub rest: Option<LinkedList<Sent>>,
}

/// Each sender's notes are collected in the order in which they were posted, and none is lost.
pub struct KeepingOrder;

impl Protocol<Note, Hand> for KeepingOrder {
    ghost use Rattle.std.specs.Prelude.{[], ◌∷◌, None};
    ghost use Rattle.settle_box.specs.Hand.{hand};
    ghost use Rattle.settle_box.specs.Rule.{IsOrderly};
    ghost use Rattle.settle_box.specs.Senders.{sender};

    ghost holds = { IsOrderly };

    ghost first = { hand (0 ∷ []) (0 ∷ []) (sender [] 0 [] ∷ []) [] None };
}

pub type Ring = RuledArrayQueue<Note, Hand, KeepingOrder>;

/// Half of the right to post goes to the new pass, which gets a name of its own.
pub struct NewName;

impl Split<Hand> for NewName {
    ghost use Rattle.std.specs.Prelude.{[], ◌∷◌, None};
    ghost use Rattle.pass_sums.specs.Share.{kept_half, cut_half};
    ghost use Rattle.settle_box.specs.Hand.{hand, first_of, others_of};
    ghost use Rattle.settle_box.specs.Senders.{split_once, child_of};

    ghost left = { λ v. hand (kept_half v.posts) v.collects (split_once (first_of v.senders) ∷ others_of v.senders) v.got None };

    ghost right = { λ v. hand (cut_half v.posts) [] (child_of (first_of v.senders) ∷ []) [] None };
}

/// What concerns collecting goes to the new pass.
pub struct Sides;

impl Split<Hand> for Sides {
    ghost use Rattle.std.specs.Prelude.{[], None};
    ghost use Rattle.settle_box.specs.Hand.{hand};

    ghost left = { λ v. hand v.posts [] v.senders [] None };

    ghost right = { λ v. hand [] v.collects [] v.got None };
}

/// All goes to the new pass, or comes from the joined one.
pub struct Everything;

impl Split<Hand> for Everything {
    ghost use Rattle.std.specs.Prelude.{[], None};
    ghost use Rattle.settle_box.specs.Hand.{hand};

    ghost left = { λ v. hand [] [] [] [] None };

    ghost right = { λ v. hand v.posts v.collects v.senders v.got None };
}

impl Join<Hand> for Everything {
    ghost use Rattle.std.specs.Prelude.{[], ◌++◌, None};
    ghost use Rattle.settle_box.specs.Hand.{hand};

    ghost both = { λ v w. hand (v.posts ++ w.posts) (v.collects ++ w.collects) (v.senders ++ w.senders) (v.got ++ w.got) None };

    ghost spent = { hand [] [] [] [] None };
}

/// A post.
pub struct Posts;

impl Outcome<Note, Hand> for Posts {
    ghost use Rattle.settle_box.specs.Steps.{PostsBehind};

    ghost then = { PostsBehind };
}

impl Lesson<Note, Hand> for Posts {
    ghost use Rattle.settle_box.specs.Rule.{IsAllowed};

    ghost fact = { IsAllowed };
}

/// A collect.
pub struct Collects;

impl Outcome<Note, Hand> for Collects {
    ghost use Rattle.settle_box.specs.Steps.{CollectsFirst};

    ghost then = { CollectsFirst };
}

impl Lesson<Note, Hand> for Collects {
    ghost use Rattle.settle_box.specs.Rule.{IsAllowed};

    ghost fact = { IsAllowed };
}

/// What the only pass learns of the box.
pub struct Total;

impl Lesson<Note, Hand> for Total {
    ghost use Rattle.settle_box.specs.Rule.{HoldsInOrder};

    ghost fact = { HoldsInOrder };
}

/// The first collect of a closed box.
pub struct Ends;

impl Outcome<Note, Hand> for Ends {
    ghost use Rattle.settle_box.specs.Steps.{EndsAt};

    ghost then = { EndsAt };
}

impl Lesson<Note, Hand> for Ends {
    ghost use Rattle.settle_box.specs.Rule.{HoldsInOrder};

    ghost fact = { HoldsInOrder };
}

/// A later collect of a closed box.
pub struct Drains;

impl Outcome<Note, Hand> for Drains {
    ghost use Rattle.settle_box.specs.Steps.{DrainsNext};

    ghost then = { DrainsNext };
}

impl Lesson<Note, Hand> for Drains {
    ghost use Rattle.settle_box.specs.Steps.{HoldsBehind};

    ghost fact = { HoldsBehind };
}

//! The rule of the queue, and what each step reports. These types are for the proofs only.
use crate::Entry;
use crossbeam_queue::RuledArrayQueue;
use crossbeam_queue::protocol::{Join, Lesson, Outcome, Protocol, Split};
use std::collections::LinkedList;
use wire_base::Parcel;

/// What a pass knows: its shares of the right to put and of the right to take, what was put and
/// what was taken by it, and of a closed queue exactly what is left.
pub struct Hand {
    pub puts: LinkedList<u64>,
    pub takes: LinkedList<u64>,
    pub put: LinkedList<Entry>,
    pub taken: LinkedList<Entry>,
    pub rest: Option<LinkedList<Parcel>>,
}

/// Nothing is lost, nothing comes twice, and parcels leave in the order of their entry.
pub struct Conserving;

impl Protocol<Parcel, Hand> for Conserving {
    ghost use Rattle.std.specs.Prelude.{[], ◌∷◌, None};
    ghost use Rattle.mem_queue.specs.Hand.{hand};
    ghost use Rattle.mem_queue.specs.Rule.{IsConserving};

    ghost holds = { IsConserving };

    ghost first = { hand (0 ∷ []) (0 ∷ []) [] [] None };
}

pub type Ring = RuledArrayQueue<Parcel, Hand, Conserving>;

/// Half of each right goes to the new pass.
pub struct Halves;

impl Split<Hand> for Halves {
    ghost use Rattle.std.specs.Prelude.{[], None};
    ghost use Rattle.pass_sums.specs.Share.{kept_half, cut_half};
    ghost use Rattle.mem_queue.specs.Hand.{hand};

    ghost left = { λ v. hand (kept_half v.puts) (kept_half v.takes) v.put v.taken None };

    ghost right = { λ v. hand (cut_half v.puts) (cut_half v.takes) [] [] None };
}

/// What concerns taking goes to the new pass.
pub struct Sides;

impl Split<Hand> for Sides {
    ghost use Rattle.std.specs.Prelude.{[], None};
    ghost use Rattle.mem_queue.specs.Hand.{hand};

    ghost left = { λ v. hand v.puts [] v.put [] None };

    ghost right = { λ v. hand [] v.takes [] v.taken None };
}

/// All goes to the new pass, or comes from the joined one.
pub struct Everything;

impl Split<Hand> for Everything {
    ghost use Rattle.std.specs.Prelude.{[], None};
    ghost use Rattle.mem_queue.specs.Hand.{hand};

    ghost left = { λ v. hand [] [] [] [] None };

    ghost right = { λ v. hand v.puts v.takes v.put v.taken None };
}

impl Join<Hand> for Everything {
    ghost use Rattle.std.specs.Prelude.{[], ◌++◌, None};
    ghost use Rattle.mem_queue.specs.Hand.{hand};

    ghost both = { λ v w. hand (v.puts ++ w.puts) (v.takes ++ w.takes) (v.put ++ w.put) (v.taken ++ w.taken) None };

    ghost spent = { hand [] [] [] [] None };
}

/// A put.
pub struct Puts;

impl Outcome<Parcel, Hand> for Puts {
    ghost use Rattle.mem_queue.specs.Steps.{PutsBehind};

    ghost then = { PutsBehind };
}

impl Lesson<Parcel, Hand> for Puts {
    ghost use Rattle.mem_queue.specs.Rule.{IsAllowed};

    ghost fact = { IsAllowed };
}

/// A take.
pub struct Takes;

impl Outcome<Parcel, Hand> for Takes {
    ghost use Rattle.mem_queue.specs.Steps.{TakesFirst};

    ghost then = { TakesFirst };
}

impl Lesson<Parcel, Hand> for Takes {
    ghost use Rattle.mem_queue.specs.Rule.{IsAllowed};

    ghost fact = { IsAllowed };
}

/// What the only pass learns of the queue.
pub struct Total;

impl Lesson<Parcel, Hand> for Total {
    ghost use Rattle.mem_queue.specs.Conserved.{IsConserved};

    ghost fact = { λ v items. IsConserved v.put v.taken items };
}

/// The first take of a closed queue.
pub struct Ends;

impl Outcome<Parcel, Hand> for Ends {
    ghost use Rattle.mem_queue.specs.Steps.{EndsAt};

    ghost then = { EndsAt };
}

impl Lesson<Parcel, Hand> for Ends {
    ghost use Rattle.mem_queue.specs.Conserved.{IsConserved};

    ghost fact = { λ v items. IsConserved v.put v.taken items };
}

/// A later take of a closed queue.
pub struct Drains;

impl Outcome<Parcel, Hand> for Drains {
    ghost use Rattle.mem_queue.specs.Steps.{DrainsNext};

    ghost then = { DrainsNext };
}

impl Lesson<Parcel, Hand> for Drains {
    ghost use Rattle.std.specs.Prelude.{◌≡◌, Some};

    ghost fact = { λ v items. v.rest ≡ Some items };
}

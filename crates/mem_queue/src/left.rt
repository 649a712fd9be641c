ghost use Rattle.std.specs.Prelude.{◌≡◌, [], ◌∷◌, IfSome, IfNone, MatchOption};
ghost use Rattle.wire_base.specs.Ranges.{IsParcel};

use crate::rule::{Drains, Hand, Ring};
use crossbeam_queue::Pass;
use std::marker::Model;
use std::sync::Wait;
use wire_base::Parcel;

/// What a closed queue held, in the order of entry.
#[derive(Drop)]
pub struct Left {
    pub(crate) ring: Ring,
    pub(crate) pass: Pass<Parcel, Hand>,
    /// Taken ahead: only as it takes a parcel does a pass learn exactly what follows it.
    pub(crate) next: Option<Parcel>,
}

impl Model for Left {
    ghost use Rattle.std.specs.Prelude.{List, All};
    ghost use Rattle.crossbeam_queue.specs.Passes.{IsPassOf};
    ghost use Rattle.wire_base.specs.declared.parcel.Parcel.{Parcel};
    ghost use Rattle.wire_base.specs.Ranges.{IsParcel};
    ghost use Rattle.mem_queue.specs.Left.{KnowsBehind, left_over};

    ghost Value = { List Parcel };

    ghost view = { λ l. left_over l.next l.pass };

    ghost invariant = { λ l. IsPassOf l.ring l.pass × All IsParcel (left_over l.next l.pass) ×
        KnowsBehind l.next l.pass };
}

impl Left {
    /// The first parcel that is left. `None` exactly if nothing is left. Takes no memory.
    pub fn next<R: Wait>(&mut self, rt: &R) -> Option<Parcel>
        ensures first { IfSome result (λ parcel. self.old ≡ parcel ∷ self.new) }
        ensures range { IfSome result (λ parcel. IsParcel parcel) }
        ensures none_where_nothing_is_left { IfNone result ((self.old ≡ []) × (self.new ≡ [])) }
    {
        let first = self.next.take()?;
        self.next = self.ring.pop_as::<Drains, R>(rt, &mut self.pass);
        Some(first)
    }
}

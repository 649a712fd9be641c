ghost use Rattle.std.specs.Prelude.{◌≡◌, ◌<◌, ℕ, List, [], ◌∷◌, ◌++◌, IfOk, IfSome, IfErr, IfNone};
ghost use Rattle.pass_sums.specs.Share.{IsWhole, kept_half, cut_half};
ghost use Rattle.wire_base.specs.declared.parcel.Parcel.{Parcel as ParcelOf};
ghost use Rattle.wire_base.specs.Ranges.{IsParcel};
ghost use Rattle.mem_queue.specs.Conserved.{IsConserved};
ghost use Rattle.mem_queue.specs.Entries.{entry, AllBefore};
ghost use Rattle.mem_queue.specs.Known.{known};
ghost use Rattle.mem_queue.specs.Rule.{WasFull, WasEmpty};

use crate::rule::{Ends, Everything, Halves, Puts, Ring, Sides, Takes, Total};
use crate::{Left, PutPass, TakePass};
use std::alloc::Global;
use std::marker::Model;
use std::sync::Wait;
use wire_base::{NoMemory, Parcel};

/// A bounded queue of parcels, in the order of their entry.
#[derive(Drop)]
pub struct EventQueue {
    ring: Ring,
}

impl Model for EventQueue {
    ghost use Rattle.crossbeam_queue.specs.Passes.{ruled_capacity};
    ghost use Rattle.mem_queue.specs.BoundedQueue.{BoundedQueue};

    ghost Value = { BoundedQueue };

    ghost view = { λ q. record { id = q.ring.table.shared.table_id; capacity = ruled_capacity q.ring } };
}

impl EventQueue {
    /// An empty queue for at most `capacity` parcels, with the pass that may put and the pass that
    /// may take. All memory of the queue is taken here.
    pub fn new(alloc: Global, capacity: u32) -> Result<(EventQueue, PutPass, TakePass), NoMemory>
        requires { 0 < capacity }
        ensures capacity { IfOk result (λ made. made.0.capacity ≡ capacity) }
        ensures its_passes { IfOk result (λ made. (made.1.queue ≡ made.0.id) × (made.2.queue ≡ made.0.id)) }
        ensures the_only_two { IfOk result (λ made. IsWhole made.1.share × IsWhole made.2.share) }
        ensures nothing_yet { IfOk result (λ made. (made.1.entries ≡ []) × (made.2.entries ≡ [])) }
    {
        let (ring, mut pass) = Ring::ruled(alloc, capacity as usize)?;
        let other = ring.another::<Sides>(&mut pass);
        Ok((
            EventQueue { ring },
            PutPass { pass },
            TakePass { pass: other },
        ))
    }

    /// Puts the parcel after all others. It comes back only if the queue was full at a step of
    /// this call.
    pub fn put<R: Wait>(&self, rt: &R, pass: &mut PutPass, parcel: Parcel) -> Result<(), Parcel>
        requires of_this_queue { pass.old.queue ≡ self.now.id }
        requires range { IsParcel parcel }
        ensures put_last { IfOk result (λ _. (number : ℕ) × AllBefore number pass.old.entries ×
            (pass.new ≡ known pass.old.queue pass.old.share (pass.old.entries ++ entry number parcel ∷ []))) }
        ensures refused { IfErr result (λ back. (back ≡ parcel) × (pass.new ≡ pass.old)) }
        ensures refused_only_where_full { IfErr result (λ _. WasFull self.now.capacity pass.old) }
    {
        self.ring.push_as::<Puts, R>(rt, &mut pass.pass, parcel)
    }

    /// Takes the first parcel. `None` only if the queue was empty at a step of this call.
    pub fn take<R: Wait>(&self, rt: &R, pass: &mut TakePass) -> Option<Parcel>
        requires { pass.old.queue ≡ self.now.id }
        ensures taken_first { IfSome result (λ parcel. (number : ℕ) × AllBefore number pass.old.entries ×
            (pass.new ≡ known pass.old.queue pass.old.share (pass.old.entries ++ entry number parcel ∷ []))) }
        ensures range { IfSome result (λ parcel. IsParcel parcel) }
        ensures nothing_taken { IfNone result (pass.new ≡ pass.old) }
        ensures nothing_only_where_empty { IfNone result (WasEmpty pass.old) }
    {
        self.ring.pop_as::<Takes, R>(rt, &mut pass.pass)
    }

    /// A second pass that may put, with half of the first one's share. It has put nothing yet.
    pub fn split_put(&self, pass: &mut PutPass) -> PutPass
        requires { pass.old.queue ≡ self.now.id }
        ensures kept { pass.new ≡ known pass.old.queue (kept_half pass.old.share) pass.old.entries }
        ensures new { result ≡ known pass.old.queue (cut_half pass.old.share) [] }
    {
        PutPass {
            pass: self.ring.another::<Halves>(&mut pass.pass),
        }
    }

    /// A second pass that may take, with half of the first one's share. It has taken nothing yet.
    pub fn split_take(&self, pass: &mut TakePass) -> TakePass
        requires { pass.old.queue ≡ self.now.id }
        ensures kept { pass.new ≡ known pass.old.queue (kept_half pass.old.share) pass.old.entries }
        ensures new { result ≡ known pass.old.queue (cut_half pass.old.share) [] }
    {
        TakePass {
            pass: self.ring.another::<Halves>(&mut pass.pass),
        }
    }

    /// Joins two passes that may put, with what each of them put.
    pub fn join_put(&self, into: &mut PutPass, from: PutPass)
        requires of_this_queue { (into.old.queue ≡ self.now.id) × (from.queue ≡ self.now.id) }
        ensures { into.new ≡
            known into.old.queue (into.old.share ++ from.share) (into.old.entries ++ from.entries) }
    {
        self.ring.absorb::<Everything>(&mut into.pass, from.pass);
    }

    /// Joins two passes that may take, with what each of them took.
    pub fn join_take(&self, into: &mut TakePass, from: TakePass)
        requires of_this_queue { (into.old.queue ≡ self.now.id) × (from.queue ≡ self.now.id) }
        ensures { into.new ≡
            known into.old.queue (into.old.share ++ from.share) (into.old.entries ++ from.entries) }
    {
        self.ring.absorb::<Everything>(&mut into.pass, from.pass);
    }

    /// Compares what the only two passes know with what the queue holds at a step of this call:
    /// nothing was lost, and the queue holds the rest in the order of entry. Takes no memory.
    pub fn meet(&self, put: &mut PutPass, take: &mut TakePass)
        requires of_this_queue { (put.old.queue ≡ self.now.id) × (take.old.queue ≡ self.now.id) }
        requires the_only_two { IsWhole put.old.share × IsWhole take.old.share }
        ensures same { (put.new ≡ put.old) × (take.new ≡ take.old) }
        ensures conserved { (items : List ParcelOf) × IsConserved put.old.entries take.old.entries items }
    {
        let all_taken = self.ring.another::<Everything>(&mut take.pass);
        self.ring.absorb::<Everything>(&mut put.pass, all_taken);
        self.ring.learn_as::<Total>(&mut put.pass);
        take.pass = self.ring.another::<Sides>(&mut put.pass);
    }

    /// Closes the queue for good and hands out what is left. Takes no memory.
    pub fn close<R: Wait>(self, rt: &R, put: PutPass, take: TakePass) -> Left
        requires of_this_queue { (put.queue ≡ self.id) × (take.queue ≡ self.id) }
        requires the_only_two { IsWhole put.share × IsWhole take.share }
        ensures conserved { IsConserved put.entries take.entries result }
    {
        let mut pass = put.pass;
        self.ring.absorb::<Everything>(&mut pass, take.pass);
        let next = self.ring.pop_as::<Ends, R>(rt, &mut pass);
        Left {
            ring: self.ring,
            pass,
            next,
        }
    }
}

ghost use Rattle.std.specs.Prelude.{◌≡◌, ◌<◌, ℕ, List, [], ◌∷◌, ◌++◌, IfOk, IfSome, IfErr, IfNone};
ghost use Rattle.pass_sums.specs.Share.{IsWhole, kept_half, cut_half};
ghost use Rattle.wire_base.specs.Ranges.{IsNote};
ghost use Rattle.settle_box.specs.declared.sender.Sent.{Sent};
ghost use Rattle.settle_box.specs.Collector.{collector};
ghost use Rattle.settle_box.specs.InOrder.{IsInOrder};
ghost use Rattle.settle_box.specs.Notes.{IsPostable};
ghost use Rattle.settle_box.specs.Poster.{poster, senders_of};
ghost use Rattle.settle_box.specs.Rule.{WasFull, WasEmpty};
ghost use Rattle.settle_box.specs.Senders.{sender, sent, with_note, split_once, child_of};

use crate::rule::{Collects, Ends, Everything, NewName, Posts, Ring, Sides, Total};
use crate::{CollectPass, Left, PostPass};
use std::alloc::Global;
use std::marker::Model;
use std::sync::Wait;
use wire_base::{NoMemory, Note};

/// A bounded box of notes, which keeps the order of each sender's notes.
#[derive(Drop)]
pub struct SettleBox {
    ring: Ring,
}

impl Model for SettleBox {
    ghost use Rattle.crossbeam_queue.specs.Passes.{ruled_capacity};
    ghost use Rattle.settle_box.specs.BoundedBox.{BoundedBox};

    ghost Value = { BoundedBox };

    ghost view = { λ b. record { id = b.ring.table.shared.table_id; capacity = ruled_capacity b.ring } };
}

impl SettleBox {
    /// An empty box for at most `capacity` notes, with the first pass that may post, whose name is
    /// the empty one, and the pass that may collect. All memory of the box is taken here.
    pub fn new(alloc: Global, capacity: u32) -> Result<(SettleBox, PostPass, CollectPass), NoMemory>
        requires { 0 < capacity }
        ensures capacity { IfOk result (λ made. made.0.capacity ≡ capacity) }
        ensures its_passes { IfOk result (λ made. (made.1.desk ≡ made.0.id) × (made.2.desk ≡ made.0.id)) }
        ensures the_only_one_that_posts { IfOk result (λ made. IsWhole made.1.share) }
        ensures nothing_yet { IfOk result (λ made. (made.1.mine ≡ sender [] 0 []) × (made.1.joined ≡ []) ×
            (made.2.got ≡ [])) }
    {
        let (ring, mut pass) = Ring::ruled(alloc, capacity as usize)?;
        let other = ring.another::<Sides>(&mut pass);
        Ok((
            SettleBox { ring },
            PostPass { pass, count: 0 },
            CollectPass { pass: other },
        ))
    }

    /// Posts the note after all others. It comes back only if the box was full at a step of this
    /// call.
    pub fn post<R: Wait>(&self, rt: &R, pass: &mut PostPass, note: Note) -> Result<(), Note>
        requires of_this_box { pass.old.desk ≡ self.now.id }
        requires kind { IsPostable note }
        requires range { IsNote note }
        ensures posted_last { IfOk result (λ _. pass.new ≡
            poster pass.old.desk pass.old.share (with_note pass.old.mine note) pass.old.joined) }
        ensures refused { IfErr result (λ back. (back ≡ note) × (pass.new ≡ pass.old)) }
        ensures refused_only_where_full { IfErr result (λ _. WasFull self.now.capacity pass.old) }
    {
        match self.ring.push_as::<Posts, R>(rt, &mut pass.pass, note) {
            Ok(()) => {
                pass.count = pass.count.saturating_add(1);
                Ok(())
            }
            Err(back) => Err(back),
        }
    }

    /// Collects the first note. `None` only if the box was empty at a step of this call.
    pub fn collect<R: Wait>(&self, rt: &R, pass: &mut CollectPass) -> Option<Note>
        requires { pass.old.desk ≡ self.now.id }
        ensures collected_first { IfSome result (λ note. (from : List ℕ) ×
            (pass.new ≡ collector pass.old.desk (pass.old.got ++ sent from note ∷ []))) }
        ensures kind { IfSome result (λ note. IsPostable note) }
        ensures range { IfSome result (λ note. IsNote note) }
        ensures nothing_collected { IfNone result (pass.new ≡ pass.old) }
        ensures nothing_only_where_empty { IfNone result (WasEmpty pass.old) }
    {
        self.ring.pop_as::<Collects, R>(rt, &mut pass.pass)
    }

    /// A second pass that may post, with half of the first one's share and a name of its own. It has
    /// posted nothing yet.
    pub fn split_post(&self, pass: &mut PostPass) -> PostPass
        requires { pass.old.desk ≡ self.now.id }
        ensures kept { pass.new ≡
            poster pass.old.desk (kept_half pass.old.share) (split_once pass.old.mine) pass.old.joined }
        ensures new { result ≡ poster pass.old.desk (cut_half pass.old.share) (child_of pass.old.mine) [] }
    {
        PostPass {
            pass: self.ring.another::<NewName>(&mut pass.pass),
            count: 0,
        }
    }

    /// Joins two passes that may post. What was posted under either name is kept.
    pub fn join_post(&self, into: &mut PostPass, from: PostPass)
        requires of_this_box { (into.old.desk ≡ self.now.id) × (from.desk ≡ self.now.id) }
        ensures { into.new ≡
            poster into.old.desk (into.old.share ++ from.share) into.old.mine (into.old.joined ++ senders_of from) }
    {
        let count = from.count;
        self.ring.absorb::<Everything>(&mut into.pass, from.pass);
        into.count = into.count.saturating_add(count);
    }

    /// Compares what the only two passes know with what the box holds at a step of this call: of each
    /// sender, what was collected and then what the box holds is what was posted, in order. Takes no
    /// memory.
    pub fn meet(&self, post: &mut PostPass, collect: &mut CollectPass)
        requires of_this_box { (post.old.desk ≡ self.now.id) × (collect.old.desk ≡ self.now.id) }
        requires the_only_one_that_posts { IsWhole post.old.share }
        ensures same { (post.new ≡ post.old) × (collect.new ≡ collect.old) }
        ensures in_order { (held : List Sent) × IsInOrder (senders_of post.old) collect.old.got held }
    {
        let all_collected = self.ring.another::<Everything>(&mut collect.pass);
        self.ring
            .absorb::<Everything>(&mut post.pass, all_collected);
        self.ring.learn_as::<Total>(&mut post.pass);
        collect.pass = self.ring.another::<Sides>(&mut post.pass);
    }

    /// Closes the box for good and hands out what is left. Takes no memory.
    pub fn close<R: Wait>(self, rt: &R, post: PostPass, collect: CollectPass) -> Left
        requires of_this_box { (post.desk ≡ self.id) × (collect.desk ≡ self.id) }
        requires the_only_one_that_posts { IsWhole post.share }
        ensures in_order { IsInOrder (senders_of post) collect.got result }
    {
        let mut pass = post.pass;
        self.ring.absorb::<Everything>(&mut pass, collect.pass);
        let next = self.ring.pop_as::<Ends, R>(rt, &mut pass);
        Left {
            ring: self.ring,
            pass,
            next,
        }
    }
}

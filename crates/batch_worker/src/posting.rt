ghost use Rattle.std.specs.Prelude.{◌≡◌, ◌<◌, ◌↔◌, [], true, false, None, length, IsSome, IsTrue};
ghost use Rattle.std.specs.Bool.{OnFalse, OnTrue};
ghost use Rattle.batch_worker.specs.Held.{note_of, owed_by};
ghost use Rattle.batch_worker.specs.Keeping.{SameMoments, WorkerGoes};
ghost use Rattle.batch_worker.specs.Seen.{Seen};
ghost use Rattle.batch_worker.specs.Steps.{FoundFull, PostsOf, SettlesOne, with_noted};

use crate::worker::Worker;
use outside::Link;
use settle_box::SettleBox;
use std::mem;
use std::sync::Wait;
use wire_base::{Cause, Note};

impl<L: Link> Worker<L> {
    /// Posts what was acknowledged and is not posted yet, in order. Whether none of it is left; some
    /// is left only if the box was full.
    pub fn hand_on<R: Wait>(&mut self, rt: &R, desk: &SettleBox) -> bool
        requires of_this_box { PostsOf desk.now.id self.old.post }
        ensures goes { (s : Seen) → WorkerGoes L.told s s self.old self.new }
        ensures moments { SameMoments self.old self.new }
        ensures link { self.new.link ≡ self.old.link }
        ensures failures { self.new.failures ≡ self.old.failures }
        ensures all_posted { IsTrue result ↔ (owed_by self.new ≡ []) }
        ensures left_only_where_full { OnFalse result (FoundFull desk.now.capacity self.new.post) }
    {
        if !self.post_refused(rt, desk) {
            return false;
        }
        while self.settle_next() {
            if !self.post_refused(rt, desk) {
                return false;
            }
        }
        true
    }

    /// Whether something that was acknowledged is not posted yet.
    pub fn owes(&self) -> bool
        ensures some { OnTrue result (0 < length (owed_by self.now)) }
        ensures none { OnFalse result ((self.now.refused ≡ None) × (self.now.window.acknowledged ≡ 0)) }
    {
        self.refused.is_some() || self.window.has_settled()
    }

    /// Posts the note that the box refused before, if there is one.
    fn post_refused<R: Wait>(&mut self, rt: &R, desk: &SettleBox) -> bool
        requires of_this_box { PostsOf desk.now.id self.old.post }
        ensures posted { OnTrue result (self.new ≡ record self.old {
          post = with_noted self.old.post self.old.refused;
          refused = None;
        }) }
        ensures kept { OnFalse result (self.new ≡ self.old) }
        ensures some { OnFalse result (IsSome self.new.refused) }
        ensures full { OnFalse result (FoundFull desk.now.capacity self.new.post) }
    {
        let Some(note) = mem::take(&mut self.refused) else {
            return true;
        };
        let Some(pass) = &mut self.post else {
            unreachable!()
        };
        match desk.post(rt, pass, note) {
            Ok(()) => true,
            Err(back) => {
                self.refused = Some(back);
                false
            }
        }
    }

    /// Owes the note of the next parcel that is acknowledged; whether there was one.
    fn settle_next(&mut self) -> bool
        requires { self.old.refused ≡ None }
        ensures settled { OnTrue result (SettlesOne self.old self.new) }
        ensures same { OnFalse result (self.new ≡ self.old) }
        ensures none_left { OnFalse result (self.new.window.acknowledged ≡ 0) }
    {
        let Some(parcel) = self.window.settled() else {
            return false;
        };
        self.refused = Some(Note::Settle {
            slot: parcel.slot,
            epoch: parcel.epoch,
            span: parcel.span,
            cause: Cause::Acked,
        });
        true
    }
}

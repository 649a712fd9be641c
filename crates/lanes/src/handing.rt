ghost use Rattle.std.specs.Prelude.{◌≡◌, ◌≢◌, ◌∷◌, []};
ghost use Rattle.std.specs.Bool.{OnFalse, OnTrue};
ghost use Rattle.batch_worker.specs.Keeping.{with_posted};
ghost use Rattle.batch_worker.specs.Steps.{FoundFull as FoundBoxFull, PostsOf};
ghost use Rattle.mem_queue.specs.declared.entry.Entry.{Entry};
ghost use Rattle.settle_box.specs.Notes.{IsPostable};
ghost use Rattle.wire_base.specs.Ranges.{IsNote, IsParcel};
ghost use Rattle.lanes.specs.Giving.{IsInRange};
ghost use Rattle.lanes.specs.Handing.{FoundQueueFull, HandsOn, PutsOf, WasRefused, after_posting, with_put};
ghost use Rattle.lanes.specs.Laning.{laning};

use crate::given::Given;
use crate::lane::Lane;
use mem_queue::EventQueue;
use outside::Tail;
use settle_box::SettleBox;
use std::mem;
use std::sync::Wait;
use wire_base::{Note, Parcel};

/// Where lanes hand on what they are given.
#[derive(Clone, Copy)]
pub struct Outlets<'a> {
    pub queue: &'a EventQueue,
    pub desk: &'a SettleBox,
}

impl<T: Tail> Lane<T> {
    /// Posts the note that the box refused, if one is held. Whether no note is left; one is left
    /// only if the box was full.
    pub fn hand_on<R: Wait>(&mut self, rt: &R, desk: &SettleBox) -> bool
        requires of_this_box { PostsOf desk.now.id self.old.post }
        requires in_range { IsInRange self.old.held }
        ensures posted { OnTrue result (laning self.new ≡ after_posting (laning self.old)) }
        ensures kept { OnFalse result (laning self.new ≡ laning self.old) }
        ensures left_only_where_full { OnFalse result
            (FoundBoxFull desk.now.capacity self.new.post) }
    {
        match mem::replace(&mut self.held, Given::Nothing) {
            Given::Note(note) => self.post(rt, desk, note),
            held => {
                self.held = held;
                true
            }
        }
    }

    /// Hands on what a turn gave, or what was held; whether it went through.
    pub(crate) fn hand<R: Wait>(&mut self, rt: &R, outlets: Outlets<'_>, given: Given) -> bool
        requires of_this_queue { PutsOf outlets.queue.now.id self.old.put }
        requires of_this_box { PostsOf outlets.desk.now.id self.old.post }
        requires none_held { self.old.held ≡ Given.Nothing }
        requires range { IsInRange given }
        ensures hands_on { HandsOn given (laning self.old) (laning self.new) }
        ensures through { OnTrue result (self.new.held ≡ Given.Nothing) }
        ensures held { OnFalse result (self.new.held ≡ given) }
        ensures something { OnFalse result (given ≢ Given.Nothing) }
        ensures refused { WasRefused outlets.entry.queue.now.capacity
            outlets.entry.desk.now.capacity self.new.held self.new.put self.new.post }
    {
        match given {
            Given::Parcel(parcel) => self.put(rt, outlets.queue, parcel),
            Given::Note(note) => self.post(rt, outlets.desk, note),
            Given::Nothing => true,
        }
    }

    fn put<R: Wait>(&mut self, rt: &R, queue: &EventQueue, parcel: Parcel) -> bool
        requires of_this_queue { PutsOf queue.now.id self.old.put }
        requires none_held { self.old.held ≡ Given.Nothing }
        requires range { IsParcel parcel }
        ensures put { OnTrue result ((entry : Entry) × (entry.parcel ≡ parcel) ×
            (laning self.new ≡
            record (laning self.old) { put = with_put self.old.put (entry ∷ []) })) }
        ensures held { OnFalse result (laning self.new ≡
            record (laning self.old) { held = Given.Parcel parcel }) }
        ensures full { OnFalse result (FoundQueueFull queue.now.capacity self.new.put) }
    {
        let Some(pass) = &mut self.put else {
            unreachable!()
        };
        match queue.put(rt, pass, parcel) {
            Ok(()) => true,
            Err(back) => {
                self.held = Given::Parcel(back);
                false
            }
        }
    }

    fn post<R: Wait>(&mut self, rt: &R, desk: &SettleBox, note: Note) -> bool
        requires of_this_box { PostsOf desk.now.id self.old.post }
        requires none_held { self.old.held ≡ Given.Nothing }
        requires kind { IsPostable note }
        requires range { IsNote note }
        ensures posted { OnTrue result (laning self.new ≡
            record (laning self.old) { post = with_posted self.old.post (note ∷ []) }) }
        ensures held { OnFalse result (laning self.new ≡
            record (laning self.old) { held = Given.Note note }) }
        ensures full { OnFalse result (FoundBoxFull desk.now.capacity self.new.post) }
    {
        let Some(pass) = &mut self.post else {
            unreachable!()
        };
        match desk.post(rt, pass, note) {
            Ok(()) => true,
            Err(back) => {
                self.held = Given::Note(back);
                false
            }
        }
    }
}

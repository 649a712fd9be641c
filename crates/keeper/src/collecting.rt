ghost use Rattle.std.specs.Prelude.{◌≡◌, ◌+◌, ◌≤◌, ◌∷◌, ◌++◌, suc, All, Contains, [], IfOk, IsSome, None, Some, OnErr, OnOk, count_by, length};
ghost use Rattle.std.specs.Bool.{OnFalse, OnTrue};
ghost use Rattle.outside.specs.Counts.{added_counts};
ghost use Rattle.settle_box.specs.Notes.{IsPostable};
ghost use Rattle.settle_box.specs.Rule.{WasEmpty};
ghost use Rattle.wire_base.specs.Ranges.{IsNote};
ghost use Rattle.keeper.specs.Collecting.{Gathers, is_dropped, is_shipped};
ghost use Rattle.keeper.specs.Storing.{IsStoredInFull, Stores};

use crate::{Keeper, MAX_COLLECTED};
use settle_box::SettleBox;
use ship_core::orderly_by_one_more;
use std::alloc::Global;
use std::mem;
use std::sync::Wait;
use wire_base::{Cause, NoMemory, Note};

impl Keeper {
    /// Whether all that was noted is stored, and nothing is held.
    pub fn is_stored_in_full(&self) -> bool
        ensures all { OnTrue result (IsStoredInFull self.now) }
        ensures not_all { OnFalse result (¬ IsStoredInFull self.now) }
    {
        !self.pending && self.held.is_none()
    }

    /// Notes what is held, and then what the box gives, and answers how many notes were collected. After
    /// a refusal a note is held.
    pub(crate) fn collect<R: Wait>(
        &mut self,
        rt: &R,
        alloc: Global,
        desk: &SettleBox,
    ) -> Result<u32, NoMemory>
        requires of_this_box { self.old.pass.desk ≡ desk.now.id }
        ensures gathers { Gathers self.old self.new }
        ensures at_most { length self.new.pass.got ≤ length self.old.pass.got + 8_192 }
        ensures count { IfOk result (λ count.
            length self.new.pass.got ≡ length self.old.pass.got + count) }
        ensures none_held { OnOk result (self.new.held ≡ None) }
        ensures nothing { IfOk result (λ count. count ≡ 0 → self.old.held ≡ None →
            self.new ≡ self.old) }
        ensures empty { IfOk result (λ count. count ≡ 0 → self.old.held ≡ None →
            WasEmpty self.old.pass) }
    {
        self.note_held(alloc)?;
        let mut count = 0;
        'notes: while count < MAX_COLLECTED {
            if !self.collect_one(rt, alloc, desk)? {
                return Ok(count);
            }
            count += 1;
        }
        Ok(count)
    }

    /// Collects a note and notes it; whether there was one.
    fn collect_one<R: Wait>(
        &mut self,
        rt: &R,
        alloc: Global,
        desk: &SettleBox,
    ) -> Result<bool, NoMemory>
        requires of_this_box { self.old.pass.desk ≡ desk.now.id }
        requires none_held { self.old.held ≡ None }
        ensures gathers { Gathers self.old self.new }
        ensures one { IfOk result (λ more.
            OnTrue more (length self.new.pass.got ≡ suc (length self.old.pass.got))) }
        ensures at_most_one { length self.new.pass.got ≤ suc (length self.old.pass.got) }
        ensures none { IfOk result (λ more. OnFalse more (self.new ≡ self.old)) }
        ensures empty { IfOk result (λ more. OnFalse more (WasEmpty self.old.pass)) }
        ensures none_held { OnOk result (self.new.held ≡ None) }
    {
        let Some(note) = desk.collect(rt, &mut self.pass) else {
            return Ok(false);
        };
        self.count(&note);
        self.note(alloc, note)?;
        Ok(true)
    }

    /// Notes what is held, if there is something.
    fn note_held(&mut self, alloc: Global) -> Result<(), NoMemory>
        ensures gathers { Gathers self.old self.new }
        ensures pass_stays { self.new.pass ≡ self.old.pass }
        ensures none_held { OnOk result (self.new.held ≡ None) }
        ensures nothing { self.old.held ≡ None → self.new ≡ self.old }
    {
        match mem::take(&mut self.held) {
            None => Ok(()),
            Some(note) => self.note(alloc, note),
        }
    }

    /// Notes one thing more, or holds it.
    fn note(&mut self, alloc: Global, note: Note) -> Result<(), NoMemory>
        requires kind { IsPostable note }
        requires range { IsNote note }
        requires none_held { self.old.held ≡ None }
        ensures noted { OnOk result
            (self.new.tracked.notes ≡ self.old.tracked.notes ++ note ∷ []) }
        ensures opening_stays { self.new.tracked.opening ≡ self.old.tracked.opening }
        ensures committed_stays { self.new.tracked.committed ≡ self.old.tracked.committed }
        ensures gone_stays { All (Contains self.new.tracked.gone) self.old.tracked.gone }
        ensures others_stay { OnOk result (self.new ≡ record self.old { tracked = self.new.tracked }) }
        ensures held { OnErr result (self.new ≡ record self.old { held = Some note }) }
    {
        orderly_by_one_more();
        match self.tracker.note(alloc, note) {
            Ok(()) => {
                self.pending = true;
                Ok(())
            }
            Err(back) => {
                self.held = Some(back);
                Err(NoMemory)
            }
        }
    }

    /// Counts a note that was collected.
    fn count(&mut self, note: &Note)
        ensures { self.new ≡ record self.old {
          shipped = added_counts self.old.shipped (count_by is_shipped (note.now ∷ []));
          dropped = added_counts self.old.dropped (count_by is_dropped (note.now ∷ []));
          collected = added_counts self.old.collected 1;
        } }
    {
        let (shipped, dropped) = settled_by(note);
        self.shipped = self.shipped.saturating_add(shipped);
        self.dropped = self.dropped.saturating_add(dropped);
        self.collected = self.collected.saturating_add(1);
    }

    /// What it has stored. It computes nothing.
    pub(crate) fn tell_stored(&self)
        ensures { Stores self.now.tracked self.now.store }
    {
        let _ = &self.pending;
    }
}

/// Whether a note settles what a peer acknowledged, and whether what a rule dropped: 1 or 0 each.
fn settled_by(note: &Note) -> (u64, u64)
    ensures shipped { result.0 ≡ count_by is_shipped (note.now ∷ []) }
    ensures dropped { result.1 ≡ count_by is_dropped (note.now ∷ []) }
{
    match note {
        Note::Settle { cause, .. } => match cause {
            Cause::Acked => (1, 0),
            Cause::Dropped(_) => (0, 1),
        },
        _ => (0, 0),
    }
}

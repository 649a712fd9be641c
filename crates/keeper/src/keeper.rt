ghost use Rattle.std.specs.Prelude.{◌≡◌, ◌⊎◌, ◌+◌, ◌<◌, ◌≤◌, ◌∷◌, ◌++◌, ℕ, [], false, All, Contains, IfErr, IfNone, IfOk, IfSome, IsSome, List, OnErr, OnOk, OnSome, None, Some, length};
ghost use Rattle.std.specs.Borrow.{sem};
ghost use Rattle.outside.specs.Counts.{Rose};
ghost use Rattle.registry_store.specs.Settled.{AreSettled};
ghost use Rattle.registry_store.specs.Standing.{chosen_by};
ghost use Rattle.settle_box.specs.Rule.{WasEmpty};
ghost use Rattle.ship_core.specs.Orderly.{AreOrderly, IsBegun};
ghost use Rattle.ship_core.specs.RowOver.{place_over};
ghost use Rattle.ship_core.specs.Rows.{IsInOrder};
ghost use Rattle.wire_base.specs.Ranges.{IsNote, IsPlace};
ghost use Rattle.keeper.specs.Answers.{IfDiskFault, IfEmpty, IfKept, IfNotKept};
ghost use Rattle.keeper.specs.Collecting.{Collects};
ghost use Rattle.keeper.specs.FewKeys.{HasRoomFor};
ghost use Rattle.keeper.specs.Keeping.{begun_with};
ghost use Rattle.keeper.specs.Lending.{LendsPass};
ghost use Rattle.keeper.specs.Storing.{Commits, IsStoredInFull, Stores};

use crate::KeeperTurn;
use ack_tracker::Tracker;
use outside::Disk;
use registry_store::{Store, StoreError};
use settle_box::{CollectPass, SettleBox};
use ship_core::{Rows, orderly_by_one_more};
use std::alloc::Global;
use std::marker::Model;
use std::sync::Wait;
use wire_base::{Epoch, Note, Slot};

/// How many notes a turn collects at most.
pub const MAX_COLLECTED: u32 = 8_192;

/// The one that notes what is reported and collected, and is the only one to write the registry.
#[derive(Drop)]
pub struct Keeper {
    pub(crate) tracker: Tracker,
    pub(crate) store: Store,
    pub(crate) pass: CollectPass,
    /// A note that was collected, and that memory refused.
    pub(crate) held: Option<Note>,
    /// Whether something was noted since the last commit.
    pub(crate) pending: bool,
    pub(crate) shipped: u64,
    pub(crate) dropped: u64,
    pub(crate) collected: u64,
}

impl Model for Keeper {
    ghost use Rattle.keeper.specs.Keeping.{Keeping};
    ghost use Rattle.keeper.specs.Sound.{IsSound};

    ghost Value = { Keeping };

    ghost view = { λ k. record {
      tracked = k.tracker;
      store = k.store;
      pass = k.pass;
      held = k.held;
      shipped = k.shipped;
      dropped = k.dropped;
      collected = k.collected;
    } };

    ghost invariant = { λ k. IsSound k.tracker k.store k.held k.pending };
}

impl Keeper {
    /// A keeper over the rows of a store, which is open. `Err` means out of memory.
    pub fn new(
        alloc: Global,
        store: Store,
        pass: CollectPass,
    ) -> Result<Keeper, (Store, CollectPass)>
        requires open { store.closed ≡ false }
        ensures begun { IfOk result (λ keeper. keeper ≡ begun_with store pass) }
        ensures given_back { IfErr result (λ back. (back.0 ≡ store) × (back.1 ≡ pass)) }
    {
        are_in_order(store.rows());
        match Tracker::new(alloc, store.rows()) {
            Ok(tracker) => Ok(Keeper {
                tracker,
                store,
                pass,
                held: None,
                pending: false,
                shipped: 0,
                dropped: 0,
                collected: 0,
            }),
            Err(_) => Err((store, pass)),
        }
    }

    /// Releases the keeper, and gives back its store and its pass.
    pub fn end(self) -> (Store, CollectPass)
        ensures store { result.0 ≡ self.store }
        ensures pass { result.1 ≡ self.pass }
    {
        (self.store, self.pass)
    }

    /// Notes one thing more. `Err` means out of memory, and gives the note back.
    pub fn tell(&mut self, alloc: Global, note: Note) -> Result<(), Note>
        requires range { IsNote note }
        requires few { HasRoomFor self.old.store.rows self.old.tracked note }
        ensures told { OnOk result
            (self.new.tracked.notes ≡ self.old.tracked.notes ++ note ∷ []) }
        ensures opening_stays { self.new.tracked.opening ≡ self.old.tracked.opening }
        ensures committed_stays { self.new.tracked.committed ≡ self.old.tracked.committed }
        ensures gone_stays { All (Contains self.new.tracked.gone) self.old.tracked.gone }
        ensures others_stay { self.new ≡ record self.old { tracked = self.new.tracked } }
        ensures kept { OnErr result (self.new ≡ self.old) }
        ensures given_back { IfErr result (λ back. back ≡ note) }
    {
        orderly_by_one_more();
        self.tracker.note(alloc, note)?;
        self.pending = true;
        Ok(())
    }

    /// Collects at most 8,192 notes, notes them, and commits once what they and all that was reported
    /// before come to. A note that memory refused is held, and is noted first by the next turn.
    ///
    /// Once a commit has failed the store is closed, and there is no further turn.
    pub fn turn<R: Wait, D: Disk>(
        &mut self,
        rt: &R,
        alloc: Global,
        desk: &SettleBox,
        a: &mut D,
        b: &mut D,
    ) -> KeeperTurn
        requires of_this_box { self.old.pass.desk ≡ desk.now.id }
        requires open { self.old.store.closed ≡ false }

        // All that was collected is noted, but for a note that is held.
        ensures collected { Collects self.old self.new }
        ensures at_most { length self.new.pass.got ≤ length self.old.pass.got + 8_192 }
        ensures count { IfKept result (λ count.
            length self.new.pass.got ≡ length self.old.pass.got + count) }

        // After `Kept` the store has the rows over all notes.
        ensures stored { Stores self.new.tracked self.new.store }
        ensures stored_in_full { IfKept result (λ _. IsStoredInFull self.new) }
        ensures committed_stays { IfNotKept result
            (self.new.tracked.committed ≡ self.old.tracked.committed) }
        ensures kept_only_for_something { IfKept result (λ count.
            (0 < count) ⊎ (¬ IsStoredInFull self.old)) }
        ensures open_where_kept { IfKept result (λ _. self.new.store.closed ≡ false) }
        ensures store_kept_where_held { IsSome self.new.held → self.new.store ≡ self.old.store }
        ensures a_kept_where_held { IsSome self.new.held → a.new ≡ a.old }
        ensures b_kept_where_held { IsSome self.new.held → b.new ≡ b.old }

        ensures empty { IfEmpty result (WasEmpty self.old.pass) }
        ensures nothing_to_store { IfEmpty result (IsStoredInFull self.old) }
        ensures kept_where_empty { IfEmpty result (self.new ≡ self.old) }
        ensures a_kept_where_empty { IfEmpty result (a.new ≡ a.old) }
        ensures b_kept_where_empty { IfEmpty result (b.new ≡ b.old) }

        // At every moment of the turn the areas give the rows that were stored before it, after some
        // of the updates. If the store is open then, they are as the next turn wants them.
        ensures commits { AreSettled D.contents D.images a.old b.old (chosen_by self.old.store) →
            Commits D.contents D.images D.moment D.images_since self.old.store self.new.store
            self.old.tracked.opening self.old.tracked.committed self.new.tracked.notes
            a.old b.old a.new b.new }
        ensures settled { AreSettled D.contents D.images a.old b.old (chosen_by self.old.store) →
            self.new.store.closed ≡ false →
            AreSettled D.contents D.images a.new b.new (chosen_by self.new.store) }

        ensures disk_fault_only_where_faults_rose { IfDiskFault result
            (Rose (D.faults a.old) (D.faults a.new) ⊎ Rose (D.faults b.old) (D.faults b.new)) }
        ensures a_told { IsSome (D.contents a.old) → IsSome (D.contents a.new) }
        ensures b_told { IsSome (D.contents b.old) → IsSome (D.contents b.new) }
        ensures a_faults_never_fall { D.faults a.old ≤ D.faults a.new }
        ensures b_faults_never_fall { D.faults b.old ≤ D.faults b.new }
    {
        let nothing_before = self.is_stored_in_full();
        let collected = self.collect(rt, alloc, desk);
        self.tell_stored();
        let Ok(count) = collected else {
            return KeeperTurn::NoMemory;
        };
        if count == 0 && nothing_before {
            return KeeperTurn::Empty;
        }
        match self.commit(alloc, a, b) {
            Ok(()) => KeeperTurn::Kept(count),
            Err(StoreError::DiskFault) => KeeperTurn::DiskFault,
            // The store is open, so it answers nothing else.
            Err(_) => KeeperTurn::NoMemory,
        }
    }

    /// Lends the pass by which it collects.
    pub fn collect_pass(&mut self) -> &mut CollectPass
        ensures lent { result.now ≡ self.entry.now.pass }
        ensures* lends { sem 𝓛 (LendsPass self.entry result) }
    {
        &mut self.pass
    }

    /// The rows that are stored.
    pub fn rows(&self) -> &Rows
        ensures rows { result.now ≡ self.now.store.rows }
        ensures few { length result.now ≤ 65_536 }
    {
        self.store.rows()
    }

    /// How many notes were collected that settle what a peer acknowledged. The count saturates at
    /// 2^64 - 1.
    pub fn shipped(&self) -> u64
        ensures { result ≡ self.now.shipped }
    {
        self.shipped
    }

    /// How many notes were collected that settle what a rule dropped. The count saturates at
    /// 2^64 - 1.
    pub fn dropped(&self) -> u64
        ensures { result ≡ self.now.dropped }
    {
        self.dropped
    }

    /// How many notes were collected. The count saturates at 2^64 - 1.
    pub fn collected(&self) -> u64
        ensures { result ≡ self.now.collected }
    {
        self.collected
    }

    /// How far the slot's file is done: its epoch, and the place in bytes up to which all is settled.
    /// `None` exactly if the slot has no Begin or its row is gone. Takes no memory.
    pub fn offset(&self, slot: Slot) -> Option<(Epoch, u64)>
        ensures by_the_notes { AreOrderly self.now.tracked.notes →
            result ≡ place_over slot.0 self.now.tracked.notes }

        // For notes of any order, too:
        ensures none { IfNone result
            (IsBegun slot.0 self.now.tracked.notes → Contains self.now.tracked.gone slot.0) }
        ensures some { OnSome result (IsBegun slot.0 self.now.tracked.notes ×
            ¬ (Contains self.now.tracked.gone slot.0)) }
        ensures in_range { IfSome result (λ place. IsPlace place.1) }
    {
        self.tracker.offset(slot)
    }
}

/// Rows are in the order of their keys, one for each key.
fn are_in_order(rows: &Rows)
    ensures { IsInOrder rows.now }
{
    rows.get(&[]);
}

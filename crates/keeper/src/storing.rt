ghost use Rattle.std.specs.Prelude.{◌≡◌, ◌⊎◌, ◌≤◌, false, IsErrOf, IsSome, OnErr, OnOk};
ghost use Rattle.outside.specs.Counts.{Rose};
ghost use Rattle.registry_store.specs.Settled.{AreSettled};
ghost use Rattle.registry_store.specs.Standing.{chosen_by};
ghost use Rattle.keeper.specs.Storing.{Commits, Stores};

use crate::Keeper;
use outside::Disk;
use registry_store::StoreError;
use ship_core::{orderly_by_one_more, rows_by_key, update_by_key};
use std::alloc::Global;

impl Keeper {
    /// Commits what leads from the stored rows to those over all notes.
    pub(crate) fn commit<D: Disk>(
        &mut self,
        alloc: Global,
        a: &mut D,
        b: &mut D,
    ) -> Result<(), StoreError>
        requires open { self.old.store.closed ≡ false }
        ensures committed { OnOk result (self.new.tracked ≡
            record self.old.tracked { committed = self.old.tracked.notes }) }
        ensures nothing_committed { OnErr result (self.new.tracked ≡ self.old.tracked) }
        ensures others_stay { self.new ≡
            record self.old { tracked = self.new.tracked; store = self.new.store } }
        ensures stored { Stores self.new.tracked self.new.store }
        ensures open { OnOk result (self.new.store.closed ≡ false) }
        ensures commits { AreSettled D.contents D.images a.old b.old (chosen_by self.old.store) →
            Commits D.contents D.images D.moment D.images_since self.old.store self.new.store
            self.old.tracked.opening self.old.tracked.committed self.new.tracked.notes
            a.old b.old a.new b.new }
        ensures settled { AreSettled D.contents D.images a.old b.old (chosen_by self.old.store) →
            self.new.store.closed ≡ false →
            AreSettled D.contents D.images a.new b.new (chosen_by self.new.store) }
        ensures disk_fault_only_where_faults_rose { IsErrOf result StoreError.DiskFault →
            Rose (D.faults a.old) (D.faults a.new) ⊎ Rose (D.faults b.old) (D.faults b.new) }
        ensures a_told { IsSome (D.contents a.old) → IsSome (D.contents a.new) }
        ensures b_told { IsSome (D.contents b.old) → IsSome (D.contents b.new) }
        ensures a_faults_never_fall { D.faults a.old ≤ D.faults a.new }
        ensures b_faults_never_fall { D.faults b.old ≤ D.faults b.new }
    {
        rows_by_key();
        update_by_key();
        orderly_by_one_more();
        let ops = self.tracker.changes(alloc)?;
        self.store.commit(alloc, a, b, &ops)?;
        self.tracker.committed();
        self.pending = false;
        Ok(())
    }
}

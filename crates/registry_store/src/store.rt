ghost use Rattle.std.specs.Prelude.{◌≡◌, ◌≢◌, ◌⊎◌, ◌≤◌, ◌↔◌, ℕ, [], true, false, All, IfOk, IsErr, IsErrOf, IsSome, IsTrue, List, OnErr, OnOk, Some, length};
ghost use Rattle.outside.specs.Counts.{Rose};
ghost use Rattle.outside.specs.DiskImages.{LeavesOnly, Only};
ghost use Rattle.registry_log.specs.OnlyRead.{IsOnlyRead};
ghost use Rattle.registry_store.specs.Appending.{HoldsOpened, IsStartedWithSome};
ghost use Rattle.registry_store.specs.Choice.{Fresh, GivesRows, IsChoice, Refused};
ghost use Rattle.registry_store.specs.Committing.{AreAfterSome, AreFewThroughout, GivesSome, GoesOn};
ghost use Rattle.registry_store.specs.Settled.{AreAtRest, AreSettled};
ghost use Rattle.registry_store.specs.Sides.{of_area, other_area};
ghost use Rattle.registry_store.specs.Standing.{IsEmpty, IsOpenedBy, chosen_by, generation_after, start_after, written_area};
ghost use Rattle.ship_core.specs.Replay.{replay_on};
ghost use Rattle.wire_base.specs.Ranges.{IsOp};
ghost use Rattle.wire_base.specs.declared.limits.Which.{Which};
ghost use Rattle.wire_base.specs.declared.row.Row.{Row};

use crate::writing::{Used, write_anew, write_areas};
use crate::{Pick, StoreError, one_choice, pick};
use outside::Disk;
use registry_log::LogError;
use ship_core::Rows;
use std::alloc::Global;
use std::marker::Model;
use wire_base::{NoMemory, Op, Which};

/// The rows of the registry, and where they are on the disks: seen as the area that is used, its generation, its rows, the
/// places of its first gate after the checkpoint and of its last gate, and whether a commit has failed.
#[derive(Debug, Drop)]
pub struct Store {
    used: Used,
    rows: Rows,
    closed: bool,
}

impl Model for Store {
    ghost use Rattle.std.specs.Prelude.{◌<◌, ◌≤◌, length};
    ghost use Rattle.wire_base.specs.declared.numbers.TheConstants.{MAX_PLACE};
    ghost use Rattle.registry_store.specs.Standing.{Standing};

    ghost Value = { Standing };

    ghost view = { λ s. record { area = s.used.area; generation = s.used.generation; rows = s.rows; start = s.used.start; end = s.used.end; closed = s.closed } };

    ghost invariant = { λ s. (s.used.end < MAX_PLACE) × (length s.rows ≤ 65_536) };
}

impl Store {
    /// Opens the registry by the area that is chosen; if it is empty, area A is started with the generation 1 and no row.
    ///
    /// As it begins nothing is to be pending on the disks: they are as a restart finds them.
    pub fn open<D: Disk>(alloc: Global, a: &mut D, b: &mut D) -> Result<Store, StoreError>
        // The store has what the areas choose.
        ensures chosen { (first second : List ℕ) →
            D.contents a.old ≡ Some first → D.contents b.old ≡ Some second →
            IfOk result (λ store. IsOpenedBy first second store) }
        ensures bad { (first second : List ℕ) (area : Which) (at : ℕ) →
            D.contents a.old ≡ Some first → D.contents b.old ≡ Some second →
            IsErrOf result (StoreError.Bad area at) → IsChoice first second (Refused area at) }
        ensures open { IfOk result (λ store. store.closed ≡ false) }

        // And the areas are as a commit wants them.
        ensures settled { AreAtRest D.contents D.images a.old b.old →
            IfOk result (λ store. AreSettled D.contents D.images a.new b.new (chosen_by store)) }

        // At every moment of the call, each image of A gives with each image of B the rows that the areas gave before it.
        ensures each_moment { AreAtRest D.contents D.images a.old b.old →
            (first second : List ℕ) (rows : List Row) →
            D.contents a.old ≡ Some first → D.contents b.old ≡ Some second → GivesRows first second rows →
            LeavesOnly D.moment D.images_since a.old a.new
            (λ image. (other : List ℕ) → D.images b.old other → GivesRows image other rows) }
        ensures goes_on { AreAtRest D.contents D.images a.old b.old →
            IfOk result (λ store. GoesOn D.contents D.moment D.images_since store.generation store.rows []
            a.old b.old a.new b.new) }

        // Only area A is written, and only if the registry is empty.
        ensures a_only_read { (first second : List ℕ) →
            D.contents a.old ≡ Some first → D.contents b.old ≡ Some second → ¬ IsChoice first second Fresh →
            IsOnlyRead D.contents D.images D.moment D.images_since D.faults a.old a.new }
        ensures b_only_read { IsOnlyRead D.contents D.images D.moment D.images_since D.faults b.old b.new }

        ensures never_closed { result ≢ Err StoreError.Closed }
        ensures disk_fault_only_where_faults_rose { IsErrOf result StoreError.DiskFault →
            Rose (D.faults a.old) (D.faults a.new) ⊎ Rose (D.faults b.old) (D.faults b.new) }
        ensures a_told { IsSome (D.contents a.old) → IsSome (D.contents a.new) }
        ensures a_faults_never_fall { D.faults a.old ≤ D.faults a.new }
    {
        one_choice();
        match pick(alloc, a, b)? {
            Pick::Fresh => Ok(start_empty(alloc, a)?),
            Pick::Chosen {
                area,
                generation,
                rows,
                start,
                end,
            } => Ok(Store {
                used: Used {
                    area,
                    generation,
                    start,
                    end,
                },
                rows,
                closed: false,
            }),
        }
    }

    pub fn rows(&self) -> &Rows
        ensures rows { result.now ≡ self.now.rows }
        ensures few { length result.now ≤ 65_536 }
    {
        &self.rows
    }

    /// Commits operations, in their order. They are cut into records of at most 1,048,576 bytes; each is on the disk before
    /// it counts. An empty list calls no disk.
    ///
    /// After an error the store is closed; opened again, it has the rows after some of the operations, from the first one
    /// on, and all that was committed before.
    pub fn commit<D: Disk>(
        &mut self,
        alloc: Global,
        a: &mut D,
        b: &mut D,
        ops: &[Op],
    ) -> Result<(), StoreError>
        requires in_range { All IsOp ops.now }
        requires few { AreFewThroughout self.old.rows ops.now }

        ensures rows { OnOk result (self.new.rows ≡ replay_on self.old.rows ops.now) }
        ensures rows_after_an_error { OnErr result (AreAfterSome self.old.rows ops.now self.new.rows) }

        // If the areas are as `open` or an earlier commit left them, they are the same again.
        ensures settled { AreSettled D.contents D.images a.old b.old (chosen_by self.old) →
            OnOk result (AreSettled D.contents D.images a.new b.new (chosen_by self.new)) }

        // At every moment of the call, each image of the area that is written gives with each image of the other the rows
        // after some of the operations.
        ensures each_moment { AreSettled D.contents D.images a.old b.old (chosen_by self.old) →
            let written = written_area self.old ops.now in
            LeavesOnly D.moment D.images_since (of_area written a.old b.old) (of_area written a.new b.new)
            (λ image. (other : List ℕ) → D.images (of_area (other_area written) a.old b.old) other →
            GivesSome self.old.rows ops.now (of_area written image other) (of_area written other image)) }

        // And what either area may hold meanwhile.
        ensures goes_on { AreSettled D.contents D.images a.old b.old (chosen_by self.old) →
            GoesOn D.contents D.moment D.images_since self.old.generation self.old.rows ops.now
            a.old b.old a.new b.new }

        // What is left, also by an error, is opened with such rows.
        ensures left { AreSettled D.contents D.images a.old b.old (chosen_by self.old) →
            (first second : List ℕ) → D.contents a.new ≡ Some first → D.contents b.new ≡ Some second →
            GivesSome self.old.rows ops.now first second }

        // Only one area is written, and used then: the other one if a checkpoint is due.
        ensures other_area_kept { let other = other_area (written_area self.old ops.now) in
            of_area other a.new b.new ≡ of_area other a.old b.old }
        ensures area { OnOk result (self.new.area ≡ written_area self.old ops.now) }
        ensures generation { OnOk result (self.new.generation ≡ generation_after self.old ops.now) }
        ensures start { OnOk result (self.new.start ≡ start_after self.old ops.now) }

        ensures a_kept_without_operations { ops.now ≡ [] → a.new ≡ a.old }
        ensures b_kept_without_operations { ops.now ≡ [] → b.new ≡ b.old }
        ensures kept_without_operations { ops.now ≡ [] → self.new ≡ self.old }

        ensures closed { IsErrOf result StoreError.Closed ↔ IsTrue self.old.closed }
        ensures closed_by_an_error { IsTrue self.new.closed ↔ IsErr result }
        ensures a_kept_once_closed { IsTrue self.old.closed → a.new ≡ a.old }
        ensures b_kept_once_closed { IsTrue self.old.closed → b.new ≡ b.old }
        ensures kept_once_closed { IsTrue self.old.closed → self.new ≡ self.old }

        ensures never_bad { (area : Which) (at : ℕ) → result ≢ Err (StoreError.Bad area at) }
        ensures disk_fault_only_where_faults_rose { IsErrOf result StoreError.DiskFault →
            let written = written_area self.old ops.now in
            Rose (D.faults (of_area written a.old b.old)) (D.faults (of_area written a.new b.new)) }
        ensures a_told { IsSome (D.contents a.old) → IsSome (D.contents a.new) }
        ensures b_told { IsSome (D.contents b.old) → IsSome (D.contents b.new) }
        ensures a_faults_never_fall { D.faults a.old ≤ D.faults a.new }
        ensures b_faults_never_fall { D.faults b.old ≤ D.faults b.new }
    {
        if self.closed {
            return Err(StoreError::Closed);
        }
        if ops.is_empty() {
            return Ok(());
        }
        self.closed = true;
        self.used = write_areas(alloc, self.used, &self.rows, a, b, ops)?;
        apply_all(alloc, &mut self.rows, ops)?;
        self.closed = false;
        Ok(())
    }
}

/// Starts area A without a row.
fn start_empty<D: Disk>(alloc: Global, a: &mut D) -> Result<Store, LogError>
    ensures store { IfOk result IsEmpty }
    ensures holds { IsSome (D.contents a.old) → IfOk result (λ store. HoldsOpened D.contents D.images a.new 1 [] store.end) }
    ensures each_moment { (before : List ℕ) → D.contents a.old ≡ Some before → Only (D.contents a.old) (D.images a.old) → LeavesOnly D.moment D.images_since a.old a.new (IsStartedWithSome 1 [] [] before) }
    ensures told { IsSome (D.contents a.old) → IsSome (D.contents a.new) }
    ensures disk_fault_only_where_faults_rose { IsErrOf result LogError.DiskFault →
        Rose (D.faults a.old) (D.faults a.new) }
    ensures faults_never_fall { D.faults a.old ≤ D.faults a.new }
{
    let rows = Rows::new(alloc);
    let (start, end) = write_anew(alloc, a, 1, &rows, &[])?;
    Ok(Store {
        used: Used {
            area: Which::A,
            generation: 1,
            start,
            end,
        },
        rows,
        closed: false,
    })
}

/// After a refusal the rows are those after some of the operations.
fn apply_all(alloc: Global, rows: &mut Rows, ops: &[Op]) -> Result<(), NoMemory>
    requires { All IsOp ops.now }
    ensures all { OnOk result (rows.new ≡ replay_on rows.old ops.now) }
    ensures some { OnErr result (AreAfterSome rows.old ops.now rows.new) }
{
    for op in ops {
        rows.apply(alloc, copy_of(alloc, op)?)?;
    }
    Ok(())
}

fn copy_of(alloc: Global, op: &Op) -> Result<Op, NoMemory>
    ensures { IfOk result (λ copy. copy ≡ op.now) }
{
    Ok(match op {
        Op::Set(row) => Op::Set(row.copy(alloc)?),
        Op::Remove(key) => Op::Remove(key.copy(alloc)?),
    })
}

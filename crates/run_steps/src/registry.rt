ghost use Rattle.std.specs.Prelude.{◌≡◌, ◌⊎◌, ◌≤◌, ℕ, [], false, IfErr, IfOk, IsErrOf, IsSome, List, MatchResult, OnErr, Some};
ghost use Rattle.outside.specs.Counts.{Rose};
ghost use Rattle.registry_log.specs.OnlyRead.{IsOnlyRead};
ghost use Rattle.registry_store.specs.Choice.{GivesRows};
ghost use Rattle.registry_store.specs.Settled.{AreAtRest, AreSettled};
ghost use Rattle.registry_store.specs.Standing.{chosen_by};
ghost use Rattle.rounds.specs.WordsOf.{disks_of};
ghost use Rattle.wire_base.specs.declared.limits.Which.{Which};
ghost use Rattle.wire_base.specs.declared.row.Row.{Row};
ghost use Rattle.run_steps.specs.Areas.{GiveTheRows, HaveHeldFronts};
ghost use Rattle.run_steps.specs.Registry.{AreRefusedAt, RefusesAreas};

use crate::laws::disk_images_are_counted;
use crate::registry_error::RegistryError;
use outside::Disk;
use registry_store::{Store, one_choice};
use std::alloc::Global;

/// Opens the registry by the area that is chosen; if it is empty, area A is started without a row.
///
/// As it begins nothing is to be pending on the disks: they are as a restart finds them.
pub fn open_registry<D: Disk>(alloc: Global, a: &mut D, b: &mut D) -> Result<Store, RegistryError>
    // The store is open, with the rows that the areas give.
    ensures open { IfOk result (λ store. store.closed ≡ false) }
    ensures gives { IfOk result (λ store.
        GiveTheRows (disks_of D.Disk) a.old b.old store.rows) }

    // And the areas are as a commit needs them.
    ensures settled { AreAtRest D.contents D.images a.old b.old →
        IfOk result (λ store. AreSettled D.contents D.images a.new b.new (chosen_by store)) }

    // Areas that gave rows gave them at each moment since then, whatever is answered.
    ensures held { (first second : List ℕ) (rows : List Row) →
        AreAtRest D.contents D.images a.old b.old →
        D.contents a.old ≡ Some first → D.contents b.old ≡ Some second →
        GivesRows first second rows →
        HaveHeldFronts (disks_of D.Disk) rows [] a.old b.old a.new b.new }

    // Areas that are refused are only read.
    ensures refused { (first second : List ℕ) →
        D.contents a.old ≡ Some first → D.contents b.old ≡ Some second →
        IfErr result (RefusesAreas first second) }
    ensures refused_so { (first second : List ℕ) (area : Which) (at : ℕ) →
        D.contents a.old ≡ Some first → D.contents b.old ≡ Some second →
        AreRefusedAt first second area at →
        MatchResult result (λ _. ⊥) (RefusesAreas first second) }
    ensures a_only_read { (first second : List ℕ) (area : Which) (at : ℕ) →
        D.contents a.old ≡ Some first → D.contents b.old ≡ Some second →
        AreRefusedAt first second area at →
        IsOnlyRead D.contents D.images D.moment D.images_since D.faults a.old a.new }
    ensures b_only_read { IsOnlyRead D.contents D.images D.moment D.images_since D.faults
        b.old b.new }

    ensures disk_fault_only_where_faults_rose { IsErrOf result RegistryError.DiskFault →
        Rose (D.faults a.old) (D.faults a.new) ⊎ Rose (D.faults b.old) (D.faults b.new) }
    ensures a_told { IsSome (D.contents a.old) → IsSome (D.contents a.new) }
    ensures a_faults_never_fall { D.faults a.old ≤ D.faults a.new }
{
    disk_images_are_counted::<D>();
    one_choice();
    match Store::open(alloc, a, b) {
        Ok(store) => Ok(store),
        Err(error) => Err(error.into()),
    }
}

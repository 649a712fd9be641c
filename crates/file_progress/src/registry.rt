ghost use Rattle.std.specs.Prelude.{◌≡◌, ◌⊎◌, ℕ, IfErr, IfOk, IsErrOf, List, Some};
ghost use Rattle.file_progress.specs.OnlyReads.{IsOnlyReadBy};
ghost use Rattle.file_progress.specs.Registry.{GivesRegistry, IsRefusedAs, IsRegistryEnd, StandsForPicked};
ghost use Rattle.outside.specs.Counts.{Rose};

use outside::{Clock, Disk};
use registry_store::{Pick, PickError, pick};
use report::Status;
use ship_core::Rows;
use std::alloc::Global;

/// So often areas that choose nothing are read again before they are called bad.
const AGAIN: u32 = 3;

/// So long it waits before it reads them again, in milliseconds.
const PAUSE_MS: u64 = 100;

/// What the areas give.
#[derive(Drop)]
pub struct Registry {
    pub rows: Rows,
    /// That of the area that is used; `None` if the registry is empty.
    pub generation: Option<u64>,
}

/// The rows that the two areas give by the choice between them. While a run writes to an area it may be seen half, so areas
/// that choose nothing are read again.
pub(crate) fn read_registry<D: Disk, K: Clock>(
    alloc: Global,
    a: &mut D,
    b: &mut D,
    clock: &mut K,
) -> Result<Registry, Status>
    ensures given { (first second : List ℕ) →
        D.contents a.old ≡ Some first → D.contents b.old ≡ Some second →
        IfOk result (GivesRegistry first second) }
    ensures refused { (first second : List ℕ) →
        D.contents a.old ≡ Some first → D.contents b.old ≡ Some second →
        IfErr result (IsRefusedAs first second) }
    ensures a_only_read { IsOnlyReadBy D.Disk a.old a.new }
    ensures b_only_read { IsOnlyReadBy D.Disk b.old b.new }
    ensures disk_fault_only_where_faults_rose { IsErrOf result Status.DiskFault →
        Rose (D.faults a.old) (D.faults a.new) ⊎ Rose (D.faults b.old) (D.faults b.new) }
    ensures ends { IfErr result IsRegistryEnd }
    ensures moments_kept { K.moments clock.new ≡ K.moments clock.old }
{
    let mut again = AGAIN;
    'tries: while 0 < again {
        let picked = pick(alloc, a, b);
        if !is_bad(&picked) {
            return registry_of(alloc, picked);
        }
        clock.pause(PAUSE_MS);
        again -= 1;
    }
    registry_of(alloc, pick(alloc, a, b))
}

fn is_bad(picked: &Result<Pick, PickError>) -> bool {
    matches!(picked, Err(PickError::Bad { .. }))
}

fn registry_of(alloc: Global, picked: Result<Pick, PickError>) -> Result<Registry, Status>
    ensures { StandsForPicked picked result }
{
    match picked {
        Ok(Pick::Fresh) => Ok(Registry {
            rows: Rows::new(alloc),
            generation: None,
        }),
        Ok(
            Pick::Chosen {
                generation,
                rows,
                ..
            },
        ) => Ok(Registry {
            rows,
            generation: Some(generation),
        }),
        Err(PickError::Bad { area, at }) => Err(Status::RegistryBad { area, at }),
        Err(PickError::DiskFault) => Err(Status::DiskFault),
        Err(PickError::NoMemory) => Err(Status::NoMemory),
    }
}

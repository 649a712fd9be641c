ghost use Rattle.std.specs.Prelude.{◌≡◌, ◌≢◌, ◌⊎◌, ℕ, IfOk, IsErrOf, List, Some};
ghost use Rattle.wire_base.specs.declared.limits.Which.{Which};
ghost use Rattle.outside.specs.Counts.{Rose};
ghost use Rattle.registry_log.specs.Answer.{IsWithin, state_of};
ghost use Rattle.registry_log.specs.OnlyRead.{IsOnlyRead};
ghost use Rattle.registry_store.specs.Answer.{IsPickWithin, choice_of};
ghost use Rattle.registry_store.specs.Choice.{IsChoice, Refused, chosen_area, decided};
ghost use Rattle.registry_store.specs.Sides.{of_area};

use crate::{Pick, PickError};
use outside::Disk;
use registry_log::{Area, read_area};
use std::alloc::Global;
use wire_base::Which;

/// Reads both areas, whatever they hold, and chooses. Takes memory for the rows of both and one record.
pub fn pick<D: Disk>(alloc: Global, a: &mut D, b: &mut D) -> Result<Pick, PickError>
    ensures chosen { (first second : List ℕ) →
        D.contents a.old ≡ Some first → D.contents b.old ≡ Some second →
        IfOk result (λ picked. IsChoice first second (choice_of picked)) }
    ensures bad { (first second : List ℕ) (area : Which) (at : ℕ) →
        D.contents a.old ≡ Some first → D.contents b.old ≡ Some second →
        IsErrOf result (PickError.Bad area at) → IsChoice first second (Refused area at) }
    ensures in_range { IfOk result IsPickWithin }
    ensures a_only_read { IsOnlyRead D.contents D.images D.moment D.images_since D.faults a.old a.new }
    ensures b_only_read { IsOnlyRead D.contents D.images D.moment D.images_since D.faults b.old b.new }
    ensures disk_fault_only_where_faults_rose { IsErrOf result PickError.DiskFault →
        Rose (D.faults a.old) (D.faults a.new) ⊎ Rose (D.faults b.old) (D.faults b.new) }
{
    let first = read_area(alloc, a)?;
    let second = read_area(alloc, b)?;
    match deciding_area(&first, &second) {
        Which::A => answer_of(Which::A, first),
        Which::B => answer_of(Which::B, second),
    }
}

/// The area whose state decides by itself.
fn deciding_area(first: &Area, second: &Area) -> Which
    ensures { chosen_area (state_of first.now) (state_of second.now) ≡ decided result (of_area result (state_of first.now) (state_of second.now)) }
{
    match first {
        Area::Opened { generation, .. } => match second {
            Area::Opened {
                generation: other,
                ..
            } => {
                if generation < other {
                    Which::B
                } else {
                    Which::A
                }
            }
            _ => Which::A,
        },
        Area::Broken { .. } => match second {
            Area::Opened { .. } => Which::B,
            _ => Which::A,
        },
        Area::Blank => Which::B,
        Area::Closed => Which::B,
    }
}

/// What is chosen if this area decides.
fn answer_of(area: Which, read: Area) -> Result<Pick, PickError>
    requires { IsWithin read }
    ensures chosen { IfOk result (λ picked. decided area (state_of read) ≡ choice_of picked) }
    ensures bad { (other : Which) (at : ℕ) → IsErrOf result (PickError.Bad other at) → decided area (state_of read) ≡ Refused other at }
    ensures in_range { IfOk result IsPickWithin }
    ensures no_fault { result ≢ Err PickError.DiskFault }
{
    match read {
        Area::Opened {
            generation,
            rows,
            start,
            end,
        } => Ok(Pick::Chosen {
            area,
            generation,
            rows,
            start,
            end,
        }),
        Area::Broken { at } => Err(PickError::Bad { area, at }),
        Area::Closed => Err(PickError::Bad { area, at: 0 }),
        Area::Blank => Ok(Pick::Fresh),
    }
}

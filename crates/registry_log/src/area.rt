ghost use Rattle.std.specs.Prelude.{◌≡◌, ◌≢◌, ℕ, IfOk, IsErrOf, List, Some};
ghost use Rattle.outside.specs.Counts.{Rose};
ghost use Rattle.registry_log.specs.Answer.{IsWithin, state_of};
ghost use Rattle.registry_log.specs.Header.{HasHeader};
ghost use Rattle.registry_log.specs.OnlyRead.{IsOnlyRead};
ghost use Rattle.registry_log.specs.State.{IsState, IsUnclosed};
ghost use Rattle.registry_log.specs.Stretch.{IsStretchOf};

use crate::front::{Front, read_front};
use crate::records::{End, read_records};
use crate::stretch::Stretch;
use crate::{HEADER, LogError};
use outside::Disk;
use ship_core::Rows;
use std::alloc::Global;

/// What an area holds.
#[derive(Debug, Drop)]
pub enum Area {
    /// At most one byte.
    Blank,
    /// Its first gate is not open.
    Closed,
    /// A header and records up to a closed gate.
    Opened {
        generation: u64,
        rows: Rows,
        /// The place of the first gate.
        start: u64,
        /// The place of the last gate.
        end: u64,
    },
    /// The byte at this place is the first one that is absent or wrong: of the header, or the gate of the first record that
    /// is none.
    Broken {
        at: u64,
    },
}

/// Reads an area in blocks, whatever it holds. Takes memory for the rows and one record.
pub fn read_area<D: Disk>(alloc: Global, disk: &mut D) -> Result<Area, LogError>
    ensures state { (area : List ℕ) → D.contents disk.old ≡ Some area →
        IfOk result (λ read. IsState area (state_of read)) }
    ensures in_range { IfOk result IsWithin }
    ensures only_read { IsOnlyRead D.contents D.images D.moment D.images_since D.faults
        disk.old disk.new }
    ensures disk_fault_only_where_faults_rose { IsErrOf result LogError.DiskFault →
        Rose (D.faults disk.old) (D.faults disk.new) }
    ensures never_too_long { result ≢ Err LogError.RecordTooLong }
{
    let mut stretch = Stretch::new(alloc);
    stretch.fill(alloc, disk, HEADER)?;
    match read_front(stretch.unread()) {
        Front::Blank => Ok(Area::Blank),
        Front::Closed => Ok(Area::Closed),
        Front::Broken { at } => Ok(Area::Broken { at }),
        Front::Right { generation } => {
            stretch.pass(HEADER);
            read_opened(alloc, disk, &mut stretch, generation)
        }
    }
}

/// Reads an area from the end of its header on.
fn read_opened<D: Disk>(
    alloc: Global,
    disk: &mut D,
    stretch: &mut Stretch,
    generation: u64,
) -> Result<Area, LogError>
    ensures state { (area : List ℕ) → D.contents disk.old ≡ Some area → IsStretchOf area stretch.old → stretch.old.place ≡ HEADER → IsUnclosed area → HasHeader area generation → IfOk result (λ read. IsState area (state_of read)) }
    ensures in_range { IfOk result IsWithin }
    ensures only_read { IsOnlyRead D.contents D.images D.moment D.images_since D.faults
        disk.old disk.new }
    ensures disk_fault_only_where_faults_rose { IsErrOf result LogError.DiskFault →
        Rose (D.faults disk.old) (D.faults disk.new) }
    ensures never_too_long { result ≢ Err LogError.RecordTooLong }
{
    let mut rows = Rows::new(alloc);
    match read_records(alloc, disk, stretch, &mut rows)? {
        End::Closed { gate } => Ok(Area::Opened {
            generation,
            rows,
            start: HEADER as u64,
            end: gate,
        }),
        End::Broken { at } => Ok(Area::Broken { at }),
    }
}

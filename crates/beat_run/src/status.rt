ghost use Rattle.std.specs.Prelude.{◌≡◌, ◌⊎◌, length};
ghost use Rattle.run_steps.specs.Met.{IsMetOf, IsTelling};
ghost use Rattle.wire_base.specs.declared.limits.Full.{Full};
ghost use Rattle.beat_run.specs.Ended.{StandsForAsking, StandsForJoin, StandsForMet, StandsForRegistry, StandsForScan};
ghost use Rattle.beat_run.specs.Ends.{IsReportEnd, IsRunEnd};

use outside::FolderError;
use prospect::{Listed, ScanError};
use report::Status;
use restart_join::JoinError;
use run_steps::{Met, RegistryError};
use std::alloc::Global;
use wire_base::{Full, Text};

/// The status for what a run hit. A slot is a place in the list, and `attempts` is how often a worker may fail in a row.
/// If there is no memory for the path of a file it is `NoMemory`.
pub fn status_of(alloc: Global, met: Met, listed: &[Listed], attempts: u32) -> Status
    requires of_these { IsMetOf (length listed.now) met }
    ensures stands { StandsForMet listed.now attempts met result }
    ensures without_report { IsTelling met ⊎ IsRunEnd result }
    ensures with_report { IsTelling met → IsReportEnd result }
{
    match met {
        Met::Done => Status::Done,
        Met::Stopped => Status::Stopped,
        Met::NoMemory => Status::NoMemory,
        Met::DiskFault => Status::DiskFault,
        Met::FolderFault => Status::FolderFault,
        Met::Unreachable(worker) => Status::Unreachable {
            worker,
            failures: attempts,
        },
        Met::Epochs(slot) => too_many_epochs(alloc, &listed[slot.0 as usize].path),
        Met::NoNative(slot) => no_native(alloc, &listed[slot.0 as usize].path),
    }
}

fn too_many_epochs(alloc: Global, path: &Text) -> Status
    ensures { (result ≡ Status.NoMemory) ⊎ (result ≡ Status.TooMany Full.Epochs path.now) }
{
    match path.copy(alloc) {
        Ok(path) => Status::TooMany {
            what: Full::Epochs,
            path,
        },
        Err(_) => Status::NoMemory,
    }
}

fn no_native(alloc: Global, path: &Text) -> Status
    ensures { (result ≡ Status.NoMemory) ⊎ (result ≡ Status.NoNative path.now) }
{
    match path.copy(alloc) {
        Ok(path) => Status::NoNative { path },
        Err(_) => Status::NoMemory,
    }
}

/// The status of an opening of the registry that failed.
pub fn status_of_registry(error: RegistryError) -> Status
    ensures { StandsForRegistry error result }
{
    match error {
        RegistryError::Bad { area, at } => Status::RegistryBad { area, at },
        RegistryError::DiskFault => Status::DiskFault,
        RegistryError::NoMemory => Status::NoMemory,
    }
}

/// The status of a scan that failed.
pub fn status_of_scan(error: ScanError) -> Status
    ensures { StandsForScan error result }
{
    match error {
        ScanError::Failed => Status::FolderFault,
        ScanError::NoMemory => Status::NoMemory,
        ScanError::NoNative { path } => Status::NoNative { path },
    }
}

/// The status of files that could not all be asked for their keys.
pub fn status_of_asking(error: FolderError) -> Status
    ensures { StandsForAsking error result }
{
    match error {
        FolderError::Failed => Status::FolderFault,
        FolderError::NoMemory => Status::NoMemory,
    }
}

/// The status of files that could not all be started.
pub fn status_of_join(error: JoinError) -> Status
    ensures { StandsForJoin error result }
{
    match error {
        JoinError::TooMany { what, path } => Status::TooMany { what, path },
        JoinError::NoMemory => Status::NoMemory,
    }
}

use registry_store::StoreError;
use thiserror::Error;
use wire_base::Which;

/// Why the registry of a run was not opened.
#[derive(Clone, Copy, Debug, PartialEq, Eq, Error)]
pub enum RegistryError {
    /// No area is opened, and this one is broken at the place, or closed (area B, at 0).
    #[error("registry area {area:?} is bad at {at}")]
    Bad { area: Which, at: u64 },
    #[error("a disk failed")]
    DiskFault,
    #[error("out of memory")]
    NoMemory,
}

impl From<StoreError> for RegistryError {
    ghost use Rattle.run_steps.specs.RegistryErrors.{IsErrorOfStore};

    ghost from_gives = { IsErrorOfStore };

    /// An opening never finds the store closed.
    fn from(error: StoreError) -> Self {
        match error {
            StoreError::Bad { area, at } => RegistryError::Bad { area, at },
            StoreError::DiskFault => RegistryError::DiskFault,
            StoreError::Closed | StoreError::NoMemory => RegistryError::NoMemory,
        }
    }
}

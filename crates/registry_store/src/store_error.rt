use crate::PickError;
use registry_log::LogError;
use thiserror::Error;
use wire_base::{NoMemory, Which};

/// Why a store was not opened, or did not commit.
#[derive(Clone, Copy, Debug, PartialEq, Eq, Error)]
pub enum StoreError {
    /// No area is opened, and this one is broken at the place, or closed (at 0). Only from `Store::open`.
    #[error("registry area {area:?} is bad at {at}")]
    Bad { area: Which, at: u64 },
    #[error("a disk failed")]
    DiskFault,
    /// An earlier commit of this store failed.
    #[error("the store is closed")]
    Closed,
    #[error("out of memory")]
    NoMemory,
}

impl From<PickError> for StoreError {
    ghost use Rattle.std.specs.Prelude.{◌≡◌};
    ghost use Rattle.registry_store.specs.Answer.{store_error_of_pick};

    ghost from_gives = { λ picking e. e ≡ store_error_of_pick picking };

    fn from(error: PickError) -> Self {
        match error {
            PickError::Bad { area, at } => StoreError::Bad { area, at },
            PickError::DiskFault => StoreError::DiskFault,
            PickError::NoMemory => StoreError::NoMemory,
        }
    }
}

impl From<LogError> for StoreError {
    ghost use Rattle.std.specs.Prelude.{◌≡◌};
    ghost use Rattle.registry_store.specs.Answer.{store_error_of};

    ghost from_gives = { λ log e. e ≡ store_error_of log };

    /// The operations of a record always fit.
    fn from(error: LogError) -> Self {
        match error {
            LogError::DiskFault => StoreError::DiskFault,
            LogError::RecordTooLong | LogError::NoMemory => StoreError::NoMemory,
        }
    }
}

impl From<NoMemory> for StoreError {
    ghost use Rattle.std.specs.Prelude.{◌≡◌};
    ghost use Rattle.registry_store.specs.declared.store_error.StoreError.TheVariants.{NoMemory};

    ghost from_gives = { λ _ e. e ≡ NoMemory };

    fn from(_: NoMemory) -> Self {
        StoreError::NoMemory
    }
}

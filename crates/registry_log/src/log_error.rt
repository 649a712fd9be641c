use outside::Failed;
use std::alloc::{AllocError, AllocFailed};
use thiserror::Error;
use wire_base::NoMemory;

/// Why an area was not read or written.
#[derive(Clone, Copy, Debug, PartialEq, Eq, Error)]
pub enum LogError {
    #[error("the disk failed")]
    DiskFault,
    /// The body of a record would have more than `MAX_BODY` bytes.
    #[error("the body of a record is too long")]
    RecordTooLong,
    #[error("out of memory")]
    NoMemory,
}

impl From<Failed> for LogError {
    ghost use Rattle.std.specs.Prelude.{◌≡◌};
    ghost use Rattle.registry_log.specs.declared.log_error.LogError.TheVariants.{DiskFault};

    ghost from_gives = { λ _ e. e ≡ DiskFault };

    fn from(_: Failed) -> Self {
        LogError::DiskFault
    }
}

impl From<NoMemory> for LogError {
    ghost use Rattle.std.specs.Prelude.{◌≡◌};
    ghost use Rattle.registry_log.specs.declared.log_error.LogError.TheVariants.{NoMemory};

    ghost from_gives = { λ _ e. e ≡ NoMemory };

    fn from(_: NoMemory) -> Self {
        LogError::NoMemory
    }
}

impl From<AllocError> for LogError {
    ghost use Rattle.std.specs.Prelude.{◌≡◌};
    ghost use Rattle.registry_log.specs.declared.log_error.LogError.TheVariants.{NoMemory};

    ghost from_gives = { λ _ e. e ≡ NoMemory };

    fn from(_: AllocError) -> Self {
        LogError::NoMemory
    }
}

impl<T: Drop> From<AllocFailed<T>> for LogError {
    ghost use Rattle.std.specs.Prelude.{◌≡◌};
    ghost use Rattle.registry_log.specs.declared.log_error.LogError.TheVariants.{NoMemory};

    ghost from_gives = { λ _ e. e ≡ NoMemory };

    fn from(_: AllocFailed<T>) -> Self {
        LogError::NoMemory
    }
}

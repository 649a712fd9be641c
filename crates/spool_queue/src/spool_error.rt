ghost use Rattle.std.specs.Prelude.{◌≡◌};
ghost use Rattle.spool_queue.specs.declared.spool_error.SpoolError.TheVariants.{DiskFault, NoMemory};

use outside::Failed;
use std::alloc::{AllocError, AllocFailed};
use thiserror::Error;
use wire_base::NoMemory;

/// Why a call on a spool did nothing, or not all.
#[derive(Clone, Copy, Debug, PartialEq, Eq, Error)]
pub enum SpoolError {
    /// The bytes are no spool: at this place an open gate has no record that may follow, or a gate is absent.
    #[error("the spool is bad at {at}")]
    Bad { at: u64 },
    #[error("the disk failed")]
    DiskFault,
    /// The payload has more than `MAX_EVENT_BYTES` bytes.
    #[error("the payload is too long")]
    TooLong,
    /// With this payload the records that settle the events would not all fit into `MAX_SPOOL_BYTES`.
    #[error("the spool is full")]
    Full,
    /// The disk failed in an earlier call.
    #[error("the spool is closed")]
    Closed,
    #[error("out of memory")]
    NoMemory,
}

impl From<Failed> for SpoolError {
    ghost from_gives = { λ _ e. e ≡ DiskFault };

    fn from(_: Failed) -> Self {
        SpoolError::DiskFault
    }
}

impl From<NoMemory> for SpoolError {
    ghost from_gives = { λ _ e. e ≡ NoMemory };

    fn from(_: NoMemory) -> Self {
        SpoolError::NoMemory
    }
}

impl From<AllocError> for SpoolError {
    ghost from_gives = { λ _ e. e ≡ NoMemory };

    fn from(_: AllocError) -> Self {
        SpoolError::NoMemory
    }
}

impl<T: Drop> From<AllocFailed<T>> for SpoolError {
    ghost from_gives = { λ _ e. e ≡ NoMemory };

    fn from(_: AllocFailed<T>) -> Self {
        SpoolError::NoMemory
    }
}

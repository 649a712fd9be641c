use std::alloc::{AllocError, AllocFailed};
use thiserror::Error;
use wire_base::NoMemory;

/// Why bytes were not read as a body.
#[derive(Clone, Copy, Debug, PartialEq, Eq, Error)]
pub enum BodyError {
    /// The bytes are not the one spelling of a list of operations.
    #[error("the bytes are no body of a record")]
    NotABody,
    #[error("out of memory")]
    NoMemory,
}

impl From<NoMemory> for BodyError {
    ghost use Rattle.std.specs.Prelude.{◌≡◌};
    ghost use Rattle.registry_frame.specs.declared.body_error.BodyError.TheVariants.{NoMemory};

    ghost from_gives = { λ _ e. e ≡ NoMemory };

    fn from(_: NoMemory) -> Self {
        BodyError::NoMemory
    }
}

impl From<AllocError> for BodyError {
    ghost use Rattle.std.specs.Prelude.{◌≡◌};
    ghost use Rattle.registry_frame.specs.declared.body_error.BodyError.TheVariants.{NoMemory};

    ghost from_gives = { λ _ e. e ≡ NoMemory };

    fn from(_: AllocError) -> Self {
        BodyError::NoMemory
    }
}

impl<T: Drop> From<AllocFailed<T>> for BodyError {
    ghost use Rattle.std.specs.Prelude.{◌≡◌};
    ghost use Rattle.registry_frame.specs.declared.body_error.BodyError.TheVariants.{NoMemory};

    ghost from_gives = { λ _ e. e ≡ NoMemory };

    fn from(_: AllocFailed<T>) -> Self {
        BodyError::NoMemory
    }
}

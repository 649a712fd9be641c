use std::alloc::{AllocError, AllocFailed};
use thiserror::Error;
use wire_base::NoMemory;

/// Why a text is no field path.
#[derive(Clone, Copy, Debug, PartialEq, Eq, Error)]
pub enum PathError {
    /// The part that begins at byte `at` is empty; no earlier one is.
    #[error("a part of the field path is empty at byte {at}")]
    EmptyPart { at: usize },
    #[error("out of memory")]
    NoMemory,
}

/// Why nothing was put.
#[derive(Clone, Copy, Debug, PartialEq, Eq, Error)]
pub enum PutError {
    /// The holder of the path's part of this number, counted from 0, is no map.
    #[error("part {part} of the field path stands in something that is no map")]
    NotObject { part: usize },
    #[error("out of memory")]
    NoMemory,
}

/// Why nothing was renamed.
#[derive(Clone, Copy, Debug, PartialEq, Eq, Error)]
pub enum RenameError {
    /// Nothing is at the path that was to be renamed.
    #[error("the field is absent")]
    Absent,
    /// Something is at the new path.
    #[error("the new field is present")]
    Present,
    /// The holder of the new path's part of this number, counted from 0, is no map.
    #[error("part {part} of the new field path stands in something that is no map")]
    NotObject { part: usize },
    #[error("out of memory")]
    NoMemory,
}

impl From<AllocError> for PathError {
    ghost use Rattle.std.specs.Prelude.{◌≡◌};
    ghost use Rattle.event_tree.specs.declared.errors.PathError.TheVariants.{NoMemory};

    ghost from_gives = { λ _ e. e ≡ NoMemory };

    fn from(_: AllocError) -> Self {
        PathError::NoMemory
    }
}

impl<T: Drop> From<AllocFailed<T>> for PathError {
    ghost use Rattle.std.specs.Prelude.{◌≡◌};
    ghost use Rattle.event_tree.specs.declared.errors.PathError.TheVariants.{NoMemory};

    ghost from_gives = { λ _ e. e ≡ NoMemory };

    fn from(_: AllocFailed<T>) -> Self {
        PathError::NoMemory
    }
}

impl From<NoMemory> for PutError {
    ghost use Rattle.std.specs.Prelude.{◌≡◌};
    ghost use Rattle.event_tree.specs.declared.errors.PutError.TheVariants.{NoMemory};

    ghost from_gives = { λ _ e. e ≡ NoMemory };

    fn from(_: NoMemory) -> Self {
        PutError::NoMemory
    }
}

impl From<NoMemory> for RenameError {
    ghost use Rattle.std.specs.Prelude.{◌≡◌};
    ghost use Rattle.event_tree.specs.declared.errors.RenameError.TheVariants.{NoMemory};

    ghost from_gives = { λ _ e. e ≡ NoMemory };

    fn from(_: NoMemory) -> Self {
        RenameError::NoMemory
    }
}

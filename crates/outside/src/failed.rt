use std::alloc::{AllocError, AllocFailed};
use std::error::Error;
use std::fmt;
use wire_base::NoMemory;

/// A call on an object of the outside failed; its count of faults rose in that call.
#[derive(Clone, Copy, Debug, PartialEq, Eq)]
pub struct Failed;

impl fmt::Display for Failed {
    fn fmt<W: fmt::Write>(&self, f: &mut fmt::Formatter<W>) -> fmt::Result {
        f.write_str("the call failed")
    }
}

impl Error for Failed {}

/// Why a listing or an opening gave nothing.
#[derive(Clone, Copy, Debug, PartialEq, Eq)]
pub enum FolderError {
    /// The folder's count of faults rose in this call.
    Failed,
    NoMemory,
}

impl fmt::Display for FolderError {
    fn fmt<W: fmt::Write>(&self, f: &mut fmt::Formatter<W>) -> fmt::Result {
        f.write_str(match self {
            FolderError::Failed => "the folder failed",
            FolderError::NoMemory => "out of memory",
        })
    }
}

impl Error for FolderError {}

impl From<NoMemory> for FolderError {
    ghost use Rattle.std.specs.Prelude.{◌≡◌};
    ghost use Rattle.outside.specs.declared.failed.FolderError.TheVariants.{NoMemory};

    ghost from_gives = { λ _ e. e ≡ NoMemory };

    fn from(_: NoMemory) -> Self {
        FolderError::NoMemory
    }
}

impl From<AllocError> for FolderError {
    ghost use Rattle.std.specs.Prelude.{◌≡◌};
    ghost use Rattle.outside.specs.declared.failed.FolderError.TheVariants.{NoMemory};

    ghost from_gives = { λ _ e. e ≡ NoMemory };

    fn from(_: AllocError) -> Self {
        FolderError::NoMemory
    }
}

impl<T: Drop> From<AllocFailed<T>> for FolderError {
    ghost use Rattle.std.specs.Prelude.{◌≡◌};
    ghost use Rattle.outside.specs.declared.failed.FolderError.TheVariants.{NoMemory};

    ghost from_gives = { λ _ e. e ≡ NoMemory };

    fn from(_: AllocFailed<T>) -> Self {
        FolderError::NoMemory
    }
}

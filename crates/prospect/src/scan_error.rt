use outside::FolderError;
use std::alloc::{AllocError, AllocFailed};
use std::error::Error;
use std::fmt;
use wire_base::{NoMemory, Text};

/// Why a scan gave no files.
#[derive(Debug, Drop, PartialEq, Eq)]
pub enum ScanError {
    /// A listing failed; the folder's count of faults rose in it.
    Failed,
    NoMemory,
    /// An input knows its files by native numbers, and the listing gave none for this path.
    NoNative { path: Text },
}

impl fmt::Display for ScanError {
    fn fmt<W: fmt::Write>(&self, f: &mut fmt::Formatter<W>) -> fmt::Result {
        f.write_str(match self {
            ScanError::Failed => "a listing failed",
            ScanError::NoMemory => "out of memory",
            ScanError::NoNative { .. } => "a file has no inode and device",
        })
    }
}

impl Error for ScanError {}

impl From<FolderError> for ScanError {
    ghost use Rattle.prospect.specs.Scan.{IsErrorOf};

    ghost from_gives = { IsErrorOf };

    fn from(error: FolderError) -> Self {
        match error {
            FolderError::Failed => ScanError::Failed,
            FolderError::NoMemory => ScanError::NoMemory,
        }
    }
}

impl From<NoMemory> for ScanError {
    ghost use Rattle.std.specs.Prelude.{◌≡◌};
    ghost use Rattle.prospect.specs.declared.scan_error.ScanError.TheVariants.{NoMemory};

    ghost from_gives = { λ _ e. e ≡ NoMemory };

    fn from(_: NoMemory) -> Self {
        ScanError::NoMemory
    }
}

impl From<AllocError> for ScanError {
    ghost use Rattle.std.specs.Prelude.{◌≡◌};
    ghost use Rattle.prospect.specs.declared.scan_error.ScanError.TheVariants.{NoMemory};

    ghost from_gives = { λ _ e. e ≡ NoMemory };

    fn from(_: AllocError) -> Self {
        ScanError::NoMemory
    }
}

impl<T: Drop> From<AllocFailed<T>> for ScanError {
    ghost use Rattle.std.specs.Prelude.{◌≡◌};
    ghost use Rattle.prospect.specs.declared.scan_error.ScanError.TheVariants.{NoMemory};

    ghost from_gives = { λ _ e. e ≡ NoMemory };

    fn from(_: AllocFailed<T>) -> Self {
        ScanError::NoMemory
    }
}

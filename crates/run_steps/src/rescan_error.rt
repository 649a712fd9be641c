use prospect::ScanError;
use thiserror::Error;
use wire_base::{NoMemory, Text};

/// Why a scan after the first one is cut off.
#[derive(Debug, Drop, PartialEq, Eq, Error)]
pub enum RescanError {
    #[error("out of memory")]
    NoMemory,
    /// An input recognizes files by native numbers, and the listings showed this path without them.
    #[error("a file has no inode and device")]
    NoNative { path: Text },
}

impl From<NoMemory> for RescanError {
    ghost use Rattle.run_steps.specs.RescanErrors.{IsOutOfMemory};

    ghost from_gives = { λ _ error. IsOutOfMemory error };

    fn from(_: NoMemory) -> Self {
        RescanError::NoMemory
    }
}

/// Of listings past faults only missing numbers refuse the list.
impl From<ScanError> for RescanError {
    ghost use Rattle.run_steps.specs.RescanErrors.{IsCutOffBy};

    ghost from_gives = { λ error made. IsCutOffBy error made };

    fn from(error: ScanError) -> Self {
        match error {
            ScanError::NoNative { path } => RescanError::NoNative { path },
            ScanError::Failed | ScanError::NoMemory => RescanError::NoMemory,
        }
    }
}

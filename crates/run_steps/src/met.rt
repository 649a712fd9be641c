use crate::begin_error::BeginError;
use wire_base::Slot;

/// Why a run goes no further.
#[derive(Clone, Copy, Debug, PartialEq, Eq)]
pub enum Met {
    /// All was read, and each event is settled and stored.
    Done,
    /// The bell rang.
    Stopped,
    NoMemory,
    DiskFault,
    FolderFault,
    /// This worker failed as often in a row as it may.
    Unreachable(u32),
    /// The last epoch of this file is over.
    Epochs(Slot),
    /// The system reported no inode and device of this file as it was opened, and its input recognizes files by them.
    NoNative(Slot),
}

impl From<BeginError> for Met {
    ghost use Rattle.std.specs.Prelude.{◌≡◌};
    ghost use Rattle.run_steps.specs.BeginErrors.{met_of};

    ghost from_gives = { λ error met. met ≡ met_of error };

    fn from(error: BeginError) -> Self {
        match error {
            BeginError::NoMemory => Met::NoMemory,
            BeginError::FolderFault => Met::FolderFault,
            BeginError::NoNative(slot) => Met::NoNative(slot),
        }
    }
}

ghost use Rattle.std.specs.Prelude.{◌≡◌};
ghost use Rattle.run_steps.specs.BeginErrors.{ended_behind};

use thiserror::Error;
use wire_base::{NoMemory, Slot};

/// Why files could not all be begun.
#[derive(Clone, Copy, Debug, PartialEq, Eq, Error)]
pub enum BeginError {
    #[error("out of memory")]
    NoMemory,
    /// A file failed as it was opened or asked for its key, and then another had no native numbers.
    #[error("the folder failed")]
    FolderFault,
    /// The system reported no inode and device of this file as it was opened, and its input recognizes files by them.
    #[error("file {0:?} has no native numbers")]
    NoNative(Slot),
}

impl From<NoMemory> for BeginError {
    ghost use Rattle.std.specs.Prelude.{◌≡◌};
    ghost use Rattle.run_steps.specs.declared.begin_error.BeginError.TheVariants.{NoMemory};

    ghost from_gives = { λ _ error. error ≡ NoMemory };

    fn from(_: NoMemory) -> Self {
        BeginError::NoMemory
    }
}

/// Why files could not all be begun if this ended it: a fault, if some file failed before, unless memory is out.
pub(crate) fn ended_behind(faulty: bool, error: BeginError) -> BeginError
    ensures { result ≡ ended_behind faulty error }
{
    match error {
        BeginError::NoMemory => error,
        _ => {
            if faulty {
                BeginError::FolderFault
            } else {
                error
            }
        }
    }
}

use registry_log::LogError;
use thiserror::Error;
use wire_base::Which;

/// Why two areas choose nothing.
#[derive(Clone, Copy, Debug, PartialEq, Eq, Error)]
pub enum PickError {
    /// None is opened, and this one is broken at the place, or closed (at 0).
    #[error("registry area {area:?} is bad at {at}")]
    Bad { area: Which, at: u64 },
    #[error("a disk failed")]
    DiskFault,
    #[error("out of memory")]
    NoMemory,
}

impl From<LogError> for PickError {
    ghost use Rattle.std.specs.Prelude.{◌≡◌};
    ghost use Rattle.registry_store.specs.Answer.{pick_error_of};

    ghost from_gives = { λ log e. e ≡ pick_error_of log };

    /// Reading hits no record that is too long.
    fn from(error: LogError) -> Self {
        match error {
            LogError::DiskFault => PickError::DiskFault,
            LogError::RecordTooLong | LogError::NoMemory => PickError::NoMemory,
        }
    }
}

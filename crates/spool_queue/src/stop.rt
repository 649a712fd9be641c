ghost use Rattle.std.specs.Prelude.{◌≡◌};
ghost use Rattle.spool_queue.specs.declared.spool_error.SpoolError.TheVariants.{NoMemory};
ghost use Rattle.spool_queue.specs.declared.stop.Stop.TheVariants.{Spool};
ghost use Rattle.spool_queue.specs.Stopping.{status_after, status_for};

use crate::{SpoolError, SpoolStatus};
use wire_base::NoMemory;

/// Why a run ended before all was done.
#[derive(Clone, Copy, Drop)]
pub(crate) enum Stop {
    Source,
    Unreachable,
    Spool(SpoolError),
}

impl Stop {
    /// The status, if this many lines were put.
    pub(crate) fn status(self, lines: u64) -> SpoolStatus
        ensures { result ≡ status_for self lines }
    {
        match self {
            Stop::Source => SpoolStatus::SourceFault,
            Stop::Unreachable => SpoolStatus::Unreachable,
            Stop::Spool(SpoolError::Bad { at }) => SpoolStatus::SpoolBad { at },
            Stop::Spool(SpoolError::DiskFault) => SpoolStatus::DiskFault,
            Stop::Spool(SpoolError::Closed) => SpoolStatus::DiskFault,
            Stop::Spool(SpoolError::TooLong) => SpoolStatus::TooLong { line: lines },
            Stop::Spool(SpoolError::Full) => SpoolStatus::Full { line: lines },
            Stop::Spool(SpoolError::NoMemory) => SpoolStatus::NoMemory,
        }
    }
}

/// The status of a run, if this many lines were put.
pub(crate) fn status_of(answer: Result<(), Stop>, lines: u64) -> SpoolStatus
    ensures { result ≡ status_after answer lines }
{
    match answer {
        Ok(()) => SpoolStatus::Done,
        Err(stop) => stop.status(lines),
    }
}

impl From<SpoolError> for Stop {
    ghost from_gives = { λ error stop. stop ≡ Spool error };

    fn from(error: SpoolError) -> Self {
        Stop::Spool(error)
    }
}

impl From<NoMemory> for Stop {
    ghost from_gives = { λ _ stop. stop ≡ Spool NoMemory };

    fn from(_: NoMemory) -> Self {
        Stop::Spool(SpoolError::NoMemory)
    }
}

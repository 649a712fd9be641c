use std::alloc::{AllocError, AllocFailed};
use std::error::Error;
use std::fmt;
use wire_base::{Full, NoMemory, Text};

/// Why the files of a scan did not begin.
#[derive(Debug, Drop, PartialEq, Eq)]
pub enum JoinError {
    /// A count is at its limit and the file of this path needs one more.
    TooMany { what: Full, path: Text },
    NoMemory,
}

impl fmt::Display for JoinError {
    fn fmt<W: fmt::Write>(&self, f: &mut fmt::Formatter<W>) -> fmt::Result {
        f.write_str(match self {
            JoinError::TooMany { .. } => "there is no room for a file",
            JoinError::NoMemory => "out of memory",
        })
    }
}

impl Error for JoinError {}

impl From<NoMemory> for JoinError {
    ghost use Rattle.std.specs.Prelude.{◌≡◌};
    ghost use Rattle.restart_join.specs.declared.join_error.JoinError.TheVariants.{NoMemory};

    ghost from_gives = { λ _ e. e ≡ NoMemory };

    fn from(_: NoMemory) -> Self {
        JoinError::NoMemory
    }
}

impl From<AllocError> for JoinError {
    ghost use Rattle.std.specs.Prelude.{◌≡◌};
    ghost use Rattle.restart_join.specs.declared.join_error.JoinError.TheVariants.{NoMemory};

    ghost from_gives = { λ _ e. e ≡ NoMemory };

    fn from(_: AllocError) -> Self {
        JoinError::NoMemory
    }
}

impl<T: Drop> From<AllocFailed<T>> for JoinError {
    ghost use Rattle.std.specs.Prelude.{◌≡◌};
    ghost use Rattle.restart_join.specs.declared.join_error.JoinError.TheVariants.{NoMemory};

    ghost from_gives = { λ _ e. e ≡ NoMemory };

    fn from(_: AllocFailed<T>) -> Self {
        JoinError::NoMemory
    }
}

use std::alloc::{AllocError, AllocFailed};
use std::error::Error;
use std::fmt;
use wire_base::{Full, NoMemory, Text};

/// Why a scan was not compared.
#[derive(Debug, Drop, PartialEq, Eq)]
pub enum ProspectError {
    /// A count is at its limit and the file of this path needs one more.
    TooMany { what: Full, path: Text },
    NoMemory,
}

impl fmt::Display for ProspectError {
    fn fmt<W: fmt::Write>(&self, f: &mut fmt::Formatter<W>) -> fmt::Result {
        f.write_str(match self {
            ProspectError::TooMany { .. } => "there are too many files",
            ProspectError::NoMemory => "out of memory",
        })
    }
}

impl Error for ProspectError {}

impl From<NoMemory> for ProspectError {
    ghost use Rattle.std.specs.Prelude.{◌≡◌};
    ghost use Rattle.prospector_core.specs.declared.prospect_error.ProspectError.TheVariants.{NoMemory};

    ghost from_gives = { λ _ e. e ≡ NoMemory };

    fn from(_: NoMemory) -> Self {
        ProspectError::NoMemory
    }
}

impl From<AllocError> for ProspectError {
    ghost use Rattle.std.specs.Prelude.{◌≡◌};
    ghost use Rattle.prospector_core.specs.declared.prospect_error.ProspectError.TheVariants.{NoMemory};

    ghost from_gives = { λ _ e. e ≡ NoMemory };

    fn from(_: AllocError) -> Self {
        ProspectError::NoMemory
    }
}

impl<T: Drop> From<AllocFailed<T>> for ProspectError {
    ghost use Rattle.std.specs.Prelude.{◌≡◌};
    ghost use Rattle.prospector_core.specs.declared.prospect_error.ProspectError.TheVariants.{NoMemory};

    ghost from_gives = { λ _ e. e ≡ NoMemory };

    fn from(_: AllocFailed<T>) -> Self {
        ProspectError::NoMemory
    }
}

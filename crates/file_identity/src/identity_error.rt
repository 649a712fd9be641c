use outside::Failed;
use std::alloc::AllocError;
use std::error::Error;
use std::fmt;
use wire_base::NoMemory;

/// Why a file was not asked for its key.
#[derive(Clone, Copy, Debug, PartialEq, Eq)]
pub enum IdentityError {
    /// The key is of inode and device, and the system gave none.
    NoNative,
    /// The tail's count of faults rose in this call.
    ReadFault,
    NoMemory,
}

impl fmt::Display for IdentityError {
    fn fmt<W: fmt::Write>(&self, f: &mut fmt::Formatter<W>) -> fmt::Result {
        f.write_str(match self {
            IdentityError::NoNative => "the system told no inode and device",
            IdentityError::ReadFault => "the file could not be read",
            IdentityError::NoMemory => "out of memory",
        })
    }
}

impl Error for IdentityError {}

impl From<Failed> for IdentityError {
    ghost use Rattle.std.specs.Prelude.{◌≡◌};
    ghost use Rattle.file_identity.specs.declared.identity_error.IdentityError.TheVariants.{ReadFault};

    ghost from_gives = { λ _ e. e ≡ ReadFault };

    fn from(_: Failed) -> Self {
        IdentityError::ReadFault
    }
}

impl From<NoMemory> for IdentityError {
    ghost use Rattle.std.specs.Prelude.{◌≡◌};
    ghost use Rattle.file_identity.specs.declared.identity_error.IdentityError.TheVariants.{NoMemory};

    ghost from_gives = { λ _ e. e ≡ NoMemory };

    fn from(_: NoMemory) -> Self {
        IdentityError::NoMemory
    }
}

impl From<AllocError> for IdentityError {
    ghost use Rattle.std.specs.Prelude.{◌≡◌};
    ghost use Rattle.file_identity.specs.declared.identity_error.IdentityError.TheVariants.{NoMemory};

    ghost from_gives = { λ _ e. e ≡ NoMemory };

    fn from(_: AllocError) -> Self {
        IdentityError::NoMemory
    }
}

ghost use Rattle.std.specs.Prelude.{◌≡◌};
ghost use Rattle.report.specs.ExitStatus.{code_of};

use beat_config::SettingsError;
use std::alloc::AllocError;
use wire_base::{Full, NoMemory, Text, Which};

/// What is asked for and not built yet.
#[derive(Debug, Drop, PartialEq, Eq)]
pub enum Lack {
    /// A key of the settings, as its dotted path.
    Key(Text),
    /// A run that goes on at the end of the files.
    Follow,
}

/// How a run ended.
#[derive(Debug, Drop, PartialEq, Eq)]
pub enum Status {
    /// Each file was read to its end and each of its lines was acknowledged or dropped by a rule, or
    /// the file was not listed, or was gone.
    Done,
    /// The bell rang.
    Stopped,
    /// The arguments are not the command's.
    Usage,
    /// The settings are refused.
    Settings(SettingsError),
    /// An area is not one that can be started, and this is the place that shows it, in bytes.
    RegistryBad { area: Which, at: u64 },
    DiskFault,
    FolderFault,
    /// The last `failures` outcomes of this worker were failures. Workers are counted from 0.
    Unreachable { worker: u32, failures: u32 },
    OutFault,
    SourceFault,
    /// There was no room for the file of this path.
    TooMany { what: Full, path: Text },
    /// Files are distinguished by their native numbers, and the system gave none for the file of this path.
    NoNative { path: Text },
    NoMemory,
    Unbuilt { what: Lack },
}

impl Status {
    /// The exit status of the program.
    pub fn code(&self) -> u8
        ensures { result ≡ code_of self.now }
    {
        match self {
            Status::Done => 0,
            Status::Stopped => 1,
            Status::Usage => 2,
            Status::Settings(_) => 3,
            Status::RegistryBad { .. } => 4,
            Status::DiskFault => 5,
            Status::FolderFault => 6,
            Status::Unreachable { .. } => 7,
            Status::OutFault => 8,
            Status::SourceFault => 9,
            Status::TooMany { .. } => 10,
            Status::NoNative { .. } => 11,
            Status::NoMemory => 12,
            Status::Unbuilt { .. } => 13,
        }
    }
}

impl From<NoMemory> for Status {
    ghost use Rattle.std.specs.Prelude.{◌≡◌};
    ghost use Rattle.report.specs.declared.status.Status.TheVariants.{NoMemory};

    ghost from_gives = { λ _ status. status ≡ NoMemory };

    fn from(_: NoMemory) -> Self {
        Status::NoMemory
    }
}

impl From<AllocError> for Status {
    ghost use Rattle.std.specs.Prelude.{◌≡◌};
    ghost use Rattle.report.specs.declared.status.Status.TheVariants.{NoMemory};

    ghost from_gives = { λ _ status. status ≡ NoMemory };

    fn from(_: AllocError) -> Self {
        Status::NoMemory
    }
}

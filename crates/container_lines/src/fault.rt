ghost use Rattle.std.specs.Prelude.{◌≡◌};
ghost use Rattle.container_lines.specs.Ending.{faulty_status};

use crate::status::ContainerStatus;
use std::alloc::{AllocError, AllocFailed};
use wire_base::NoMemory;

/// Why a log was not read to its end.
#[derive(Clone, Copy, Debug, PartialEq, Eq)]
pub enum Fault {
    /// The source failed; its count of faults rose.
    Source,
    /// The sink failed; its count of faults rose.
    Out,
    NoMemory,
}

impl Fault {
    pub fn status(self) -> ContainerStatus
        ensures { result ≡ faulty_status self }
    {
        match self {
            Fault::Source => ContainerStatus::SourceFault,
            Fault::Out => ContainerStatus::OutFault,
            Fault::NoMemory => ContainerStatus::NoMemory,
        }
    }
}

impl From<NoMemory> for Fault {
    ghost use Rattle.std.specs.Prelude.{◌≡◌};
    ghost use Rattle.container_lines.specs.declared.fault.Fault.TheVariants.{NoMemory};

    ghost from_gives = { λ _ e. e ≡ NoMemory };

    fn from(_: NoMemory) -> Self {
        Fault::NoMemory
    }
}

impl From<AllocError> for Fault {
    ghost use Rattle.std.specs.Prelude.{◌≡◌};
    ghost use Rattle.container_lines.specs.declared.fault.Fault.TheVariants.{NoMemory};

    ghost from_gives = { λ _ e. e ≡ NoMemory };

    fn from(_: AllocError) -> Self {
        Fault::NoMemory
    }
}

impl<T: Drop> From<AllocFailed<T>> for Fault {
    ghost use Rattle.std.specs.Prelude.{◌≡◌};
    ghost use Rattle.container_lines.specs.declared.fault.Fault.TheVariants.{NoMemory};

    ghost from_gives = { λ _ e. e ≡ NoMemory };

    fn from(_: AllocFailed<T>) -> Self {
        Fault::NoMemory
    }
}

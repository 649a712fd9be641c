ghost use Rattle.std.specs.Prelude.{◌≡◌};
ghost use Rattle.lumber_answers.specs.Faults.{fault_of};
ghost use Rattle.lumber_answers.specs.declared.fault.WriteFault.TheVariants.{NoMemory, Out};

use outside::Failed;
use std::alloc::{AllocError, AllocFailed};
use wire_base::NoMemory;

/// Why a line was not laid.
#[derive(Clone, Copy, Debug, PartialEq, Eq)]
pub enum WriteFault {
    Out,
    NoMemory,
}

impl From<Failed> for WriteFault {
    ghost from_gives = { λ _ e. e ≡ Out };

    fn from(_: Failed) -> Self {
        WriteFault::Out
    }
}

impl From<AllocError> for WriteFault {
    ghost from_gives = { λ _ e. e ≡ NoMemory };

    fn from(_: AllocError) -> Self {
        WriteFault::NoMemory
    }
}

impl<T: Drop> From<AllocFailed<T>> for WriteFault {
    ghost from_gives = { λ _ e. e ≡ NoMemory };

    fn from(_: AllocFailed<T>) -> Self {
        WriteFault::NoMemory
    }
}

/// Why frames were not taken, or not handed on.
#[derive(Clone, Copy, Debug, PartialEq, Eq)]
pub enum Fault {
    Out,
    Send,
    NoMemory,
}

impl From<WriteFault> for Fault {
    ghost from_gives = { λ f e. e ≡ fault_of f };

    fn from(fault: WriteFault) -> Self {
        match fault {
            WriteFault::Out => Fault::Out,
            WriteFault::NoMemory => Fault::NoMemory,
        }
    }
}

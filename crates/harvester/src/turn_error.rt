use crate::Turn;
use outside::Failed;
use std::alloc::AllocError;
use wire_base::NoMemory;

/// Why a turn reported nothing.
#[derive(Clone, Copy, Debug, PartialEq, Eq)]
pub(crate) enum TurnError {
    ReadFault,
    NoMemory,
}

impl From<Failed> for TurnError {
    ghost use Rattle.std.specs.Prelude.{◌≡◌};
    ghost use Rattle.harvester.specs.declared.turn_error.TurnError.TheVariants.{ReadFault};

    ghost from_gives = { λ _ e. e ≡ ReadFault };

    fn from(_: Failed) -> Self {
        TurnError::ReadFault
    }
}

impl From<NoMemory> for TurnError {
    ghost use Rattle.std.specs.Prelude.{◌≡◌};
    ghost use Rattle.harvester.specs.declared.turn_error.TurnError.TheVariants.{NoMemory};

    ghost from_gives = { λ _ e. e ≡ NoMemory };

    fn from(_: NoMemory) -> Self {
        TurnError::NoMemory
    }
}

impl From<AllocError> for TurnError {
    ghost use Rattle.std.specs.Prelude.{◌≡◌};
    ghost use Rattle.harvester.specs.declared.turn_error.TurnError.TheVariants.{NoMemory};

    ghost from_gives = { λ _ e. e ≡ NoMemory };

    fn from(_: AllocError) -> Self {
        TurnError::NoMemory
    }
}

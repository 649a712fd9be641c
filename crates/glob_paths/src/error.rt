use std::alloc::AllocError;
use thiserror::Error;
use wire_base::NoMemory;

/// Why a text is no glob: the first fault from the left, where `at` is the place of a byte.
#[derive(Clone, Copy, Debug, PartialEq, Eq, Error)]
pub enum GlobError {
    #[error("the glob is empty")]
    Empty,
    #[error("the glob does not begin with a slash")]
    NotAbsolute,
    /// A part is empty, `.` or `..`.
    #[error("the part at byte {at} is empty, `.` or `..`")]
    BadPart { at: usize },
    /// A `[` without its `]`, or a backslash at the end of a part.
    #[error("what begins at byte {at} does not end")]
    Unclosed { at: usize },
    /// A class without an item, or a range whose first character is above its last.
    #[error("the class at byte {at} has no item, or a range that runs backwards")]
    BadRange { at: usize },
    /// A `**` that is no whole part, or a second one.
    #[error("the `**` at byte {at} is no whole part, or the second")]
    StarStar { at: usize },
    #[error("out of memory")]
    NoMemory,
}

impl From<AllocError> for GlobError {
    ghost use Rattle.std.specs.Prelude.{◌≡◌};
    ghost use Rattle.glob_paths.specs.declared.error.GlobError.TheVariants.{NoMemory};

    ghost from_gives = { λ _ e. e ≡ NoMemory };

    fn from(_: AllocError) -> Self {
        GlobError::NoMemory
    }
}

impl From<NoMemory> for GlobError {
    ghost use Rattle.std.specs.Prelude.{◌≡◌};
    ghost use Rattle.glob_paths.specs.declared.error.GlobError.TheVariants.{NoMemory};

    ghost from_gives = { λ _ e. e ≡ NoMemory };

    fn from(_: NoMemory) -> Self {
        GlobError::NoMemory
    }
}

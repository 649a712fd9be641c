use glob_paths::GlobError;
use thiserror::Error;
use wire_base::{NoMemory, Text};

/// Why a document gives no settings (this project's profile). A key is a dotted path, with numbers from 0
/// for the members of lists, as in `inputs.0.paths.1`.
#[derive(Debug, Drop, PartialEq, Eq, Error)]
pub enum SettingsError {
    /// There are more than 1,048,576 bytes.
    #[error("too long")]
    TooLong,
    /// The bytes are no TOML document, or nest too deep for one.
    #[error("not toml")]
    NotToml,
    /// There is no such key.
    #[error("unknown {}", .key.as_str())]
    Unknown { key: Text },
    /// The key is required, and absent.
    #[error("missing {}", .key.as_str())]
    Missing { key: Text },
    /// The value is of another kind. A floating-point number and a date always are.
    #[error("wrong kind {}", .key.as_str())]
    WrongKind { key: Text },
    /// The text is not of its form, or an id that an earlier input has.
    #[error("bad text {}", .key.as_str())]
    BadText { key: Text },
    /// A whole number, a duration in milliseconds, the length of a list or table, or the depth of a
    /// condition.
    #[error("out of range {} {value}", .key.as_str())]
    OutOfRange { key: Text, value: i64 },
    #[error("bad glob {}", .key.as_str())]
    BadGlob { key: Text, fault: GlobError },
    #[error("bad pattern {}", .key.as_str())]
    BadPattern { key: Text },
    /// `clean_inactive` of the input at the key is not 0, and at most `ignore_older` and
    /// `check_interval` together.
    #[error("clean too soon {}", .key.as_str())]
    CleanTooSoon { key: Text },
    #[error("out of memory")]
    NoMemory,
}

impl From<NoMemory> for SettingsError {
    ghost use Rattle.std.specs.Prelude.{◌≡◌};
    ghost use Rattle.beat_config.specs.declared.settings_error.SettingsError.TheVariants.{NoMemory};

    ghost from_gives = { λ _ e. e ≡ NoMemory };

    fn from(_: NoMemory) -> Self {
        SettingsError::NoMemory
    }
}

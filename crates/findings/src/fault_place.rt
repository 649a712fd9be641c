use crate::line::{line_of_fault, line_of_key};
use beat_config::SettingsError;
use std::alloc::{AllocError, Global};
use wire_base::Text;

/// Where the fault of the settings can be found, as `FILE:LINE` or `FILE:LINE: WHY`, and a line feed; nothing if that is
/// not known.
pub(crate) fn place_text(
    alloc: Global,
    file: &Text,
    settings: &[u8],
    fault: &SettingsError,
) -> Result<String, AllocError> {
    let file = file.as_str();
    match fault {
        SettingsError::NotToml => match line_of_fault(alloc, settings) {
            Some((line, why)) => format!(in alloc; "{file}:{line}: {why}\n"),
            None => Ok(String::new(alloc)),
        },
        SettingsError::BadGlob { key, fault } => {
            match line_of_key(alloc, settings, key.as_str()) {
                Some(line) => format!(in alloc; "{file}:{line}: {fault}\n"),
                None => Ok(String::new(alloc)),
            }
        }
        SettingsError::Unknown { key }
        | SettingsError::Missing { key }
        | SettingsError::WrongKind { key }
        | SettingsError::BadText { key }
        | SettingsError::OutOfRange { key, .. }
        | SettingsError::BadPattern { key }
        | SettingsError::CleanTooSoon { key } => {
            match line_of_key(alloc, settings, key.as_str()) {
                Some(line) => format!(in alloc; "{file}:{line}\n"),
                None => Ok(String::new(alloc)),
            }
        }
        SettingsError::TooLong | SettingsError::NoMemory => Ok(String::new(alloc)),
    }
}

ghost use Rattle.std.specs.Prelude.{◌≡◌, ◌⊎◌, IfOk, IfErr};
ghost use Rattle.beat_config.specs.Document.{AreSettingsOf, IsFirstFault};
ghost use Rattle.beat_config.specs.InRange.{AreInRange};

use crate::SettingsError;
use crate::document::settings_of;
use crate::nesting::nests_too_deep;
use event_tree::Settings;
use std::alloc::Global;
use std::str;

/// The most bytes of settings.
pub const MAX_SETTINGS: usize = 1_048_576;

/// The settings that bytes spell as one TOML document, or the first fault: by the kinds in the order of
/// `SettingsError`, and within one kind by the key path that is first in byte order. A document with more
/// than 80 levels of brackets and dotted keys at one place counts as none. Settings are within the ranges of
/// their table, and no two inputs have the same id. Patterns are not compiled. `NoMemory` may come in place of any
/// answer.
pub fn read_settings(alloc: Global, bytes: &[u8]) -> Result<Settings, SettingsError>
    ensures settings_of_the_document { IfOk result (AreSettingsOf bytes.now) }
    ensures in_range { IfOk result AreInRange }
    ensures first_fault { IfErr result (λ fault. (fault ≡ SettingsError.NoMemory) ⊎ IsFirstFault bytes.now fault) }
{
    if bytes.len() > MAX_SETTINGS {
        return Err(SettingsError::TooLong);
    }
    let Ok(text) = str::from_utf8(bytes) else {
        return Err(SettingsError::NotToml);
    };
    if nests_too_deep(bytes) {
        return Err(SettingsError::NotToml);
    }
    match toml::table_from_str(alloc, text) {
        Ok(document) => settings_of(alloc, &document),
        Err(fault) if fault.is_memory() => Err(SettingsError::NoMemory),
        Err(_) => Err(SettingsError::NotToml),
    }
}

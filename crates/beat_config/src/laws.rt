ghost use Rattle.std.specs.Prelude.{◌≡◌, ℕ, List};
ghost use Rattle.event_tree.specs.declared.settings.Settings.{Settings};
ghost use Rattle.beat_config.specs.declared.settings_error.SettingsError.{SettingsError};
ghost use Rattle.beat_config.specs.Document.{AreSettingsOf, IsFirstFault};

/// No bytes have both settings and a first fault, and none have two first faults. A law; it computes nothing.
pub fn settings_or_one_first_fault()
    ensures no_fault { (bytes : List ℕ) (settings : Settings) (fault : SettingsError) →
        AreSettingsOf bytes settings → IsFirstFault bytes fault → ⊥ }
    ensures one_fault { (bytes : List ℕ) (first second : SettingsError) →
        IsFirstFault bytes first → IsFirstFault bytes second → first ≡ second }
{}

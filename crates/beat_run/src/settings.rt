ghost use Rattle.std.specs.Prelude.{◌≡◌, take, IfOk, IfErr, IfSome, IsErrOf, MatchResult};
ghost use Rattle.beat_config.specs.Document.{IsFirstFault};
ghost use Rattle.beat_config.specs.InRange.{AreInRange};
ghost use Rattle.beat_run.specs.Ends.{IsSettingsEnd, RefusesSettings};
ghost use Rattle.beat_run.specs.Named.{IsNamed};

use beat_config::{MAX_SETTINGS, SettingsError, read_settings, settings_or_one_first_fault};
use event_tree::Settings;
use outside::Source;
use report::Status;
use source_bytes::{ReadError, read_up_to};
use std::alloc::Global;

/// At most this many bytes of the settings are read: one more than they may have.
pub const LIMIT: usize = MAX_SETTINGS + 1;

/// The settings of all the source's bytes.
pub fn read_source<R: Source>(alloc: Global, source: &mut R) -> Result<Settings, Status>
    ensures settings { IfOk result (IsNamed (R.left source.old)) }
    ensures in_range { IfOk result AreInRange }
    ensures fault_only { (fault : SettingsError) → IsErrOf result (Status.Settings fault) →
        IfSome (R.left source.old) (λ bytes. IsFirstFault (take LIMIT bytes) fault) }
    ensures fault_refused { (fault : SettingsError) → IfSome (R.left source.old) (λ bytes.
        IsFirstFault (take LIMIT bytes) fault →
        MatchResult result (λ _. ⊥) (RefusesSettings fault)) }
    ensures ends { IfErr result (IsSettingsEnd (R.faults source.old) (R.faults source.new)) }
{
    let bytes = match read_up_to(alloc, source, LIMIT) {
        Ok(bytes) => bytes,
        Err(ReadError::NoMemory) => return Err(Status::NoMemory),
        Err(ReadError::SourceFault) => return Err(Status::SourceFault),
    };
    settings_or_one_first_fault();
    let fault = match read_settings(alloc, &bytes) {
        Ok(settings) => return Ok(settings),
        Err(fault) => fault,
    };
    match fault {
        SettingsError::NoMemory => Err(Status::NoMemory),
        fault => Err(Status::Settings(fault)),
    }
}

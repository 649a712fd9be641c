ghost use Rattle.std.specs.Prelude.{◌≡◌, ◌≤◌, take, IfErr, IfOk, IfSome, IsErrOf};
ghost use Rattle.beat_config.specs.Document.{AreSettingsOf, IsFirstFault};
ghost use Rattle.beat_config.specs.InRange.{AreInRange};
ghost use Rattle.file_progress.specs.Causes.{IsSettingsEnd};

use beat_config::{MAX_SETTINGS, SettingsError, read_settings};
use event_tree::Settings;
use outside::Source;
use report::Status;
use source_bytes::{ReadError, read_up_to};
use std::alloc::Global;

/// So many bytes of the settings are read at most: one more than they may have.
pub const LIMIT: usize = MAX_SETTINGS + 1;

/// The settings of all the source's bytes.
pub(crate) fn read_source<R: Source>(alloc: Global, source: &mut R) -> Result<Settings, Status>
    ensures settings { IfOk result (λ settings. IfSome (R.left source.old) (λ bytes.
        AreSettingsOf (take LIMIT bytes) settings)) }
    ensures in_range { IfOk result AreInRange }
    ensures fault { (fault : SettingsError) → IsErrOf result (Status.Settings fault) →
        IfSome (R.left source.old) (λ bytes. IsFirstFault (take LIMIT bytes) fault) }
    ensures ends { IfErr result (IsSettingsEnd (R.faults source.old) (R.faults source.new)) }
{
    let bytes = match read_up_to(alloc, source, LIMIT) {
        Ok(bytes) => bytes,
        Err(ReadError::NoMemory) => return Err(Status::NoMemory),
        Err(ReadError::SourceFault) => return Err(Status::SourceFault),
    };
    let fault = match read_settings(alloc, &bytes) {
        Ok(settings) => return Ok(settings),
        Err(fault) => fault,
    };
    match fault {
        SettingsError::NoMemory => Err(Status::NoMemory),
        fault => Err(Status::Settings(fault)),
    }
}

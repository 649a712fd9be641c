ghost use Rattle.std.specs.Prelude.{◌≡◌, ◌≤◌, take, IfErr, IfOk, IfSome};
ghost use Rattle.findings.specs.Ends.{IsSourceEnd};

use beat_config::MAX_SETTINGS;
use outside::Source;
use report::Status;
use source_bytes::{ReadError, read_up_to};
use std::alloc::Global;

/// So many bytes of the settings are read at most: one more than they may have.
pub const LIMIT: usize = MAX_SETTINGS + 1;

/// The bytes of the settings.
pub(crate) fn read_source<R: Source>(alloc: Global, source: &mut R) -> Result<Vec<u8>, Status>
    ensures read { IfOk result (λ all. IfSome (R.left source.old) (λ bytes.
        all.items ≡ take LIMIT bytes)) }
    ensures ends { IfErr result (IsSourceEnd (R.faults source.old) (R.faults source.new)) }
{
    match read_up_to(alloc, source, LIMIT) {
        Ok(bytes) => Ok(bytes),
        Err(ReadError::NoMemory) => Err(Status::NoMemory),
        Err(ReadError::SourceFault) => Err(Status::SourceFault),
    }
}

ghost use Rattle.std.specs.Prelude.{◌≡◌, ◌≤◌, take, IfOk, IfSome, IsErrOf};
ghost use Rattle.outside.specs.Counts.{Rose};

use outside::Source;
use std::alloc::Global;

/// How many bytes are read at once at most.
const PIECE_BYTES: usize = 4_096;

/// Why not all bytes of a source were read.
pub enum ReadError {
    /// The source failed.
    SourceFault,
    /// There is no memory for its bytes.
    NoMemory,
}

/// The source's bytes until its end, or the first `limit` of them (bytes).
pub fn read_up_to<R: Source>(
    alloc: Global,
    source: &mut R,
    limit: usize,
) -> Result<Vec<u8>, ReadError>
    ensures read { IfOk result (λ all. IfSome (R.left source.old) (λ bytes.
        all.items ≡ take limit bytes)) }
    ensures faults_never_fall { R.faults source.old ≤ R.faults source.new }
    ensures fault_only_where_faults_rose { IsErrOf result ReadError.SourceFault →
        Rose (R.faults source.old) (R.faults source.new) }
{
    let mut all = Vec::new(alloc);
    let mut piece = [0u8; PIECE_BYTES];
    while all.len() < limit {
        let room = PIECE_BYTES.min(limit - all.len());
        match source.read(&mut piece[..room]) {
            Ok(0) => break,
            Ok(count) => match all.extend_from_slice(&piece[..count]) {
                Ok(()) => {}
                Err(_) => return Err(ReadError::NoMemory),
            },
            Err(_) => return Err(ReadError::SourceFault),
        }
    }
    Ok(all)
}

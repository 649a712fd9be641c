ghost use Rattle.std.specs.Prelude.{◌≡◌, ℕ, ◌+◌, ◌<◌, ◌≤◌, ◌++◌, IfOk, IfSome, IsErrOf, IsNone, IsSome, List, None, OnErr, OnOk, length, take};
ghost use Rattle.outside.specs.Counts.{Rose};
ghost use Rattle.outside.specs.Tails.{TellsRead};
ghost use Rattle.sha2.specs.Hashers.{Holds256};
ghost use Rattle.file_identity.specs.Reading.{FailedReading, IsPrinted};
ghost use Rattle.wire_base.specs.Ranges.{IsPlace};

use outside::{Failed, Tail};
use sha2::{Digest, Sha256};

/// The most bytes of one read.
const READ_SIZE: usize = 16_384;

/// What reading the bytes of a fingerprint gave.
#[derive(Debug, Drop)]
pub enum Printed {
    /// Their SHA-256.
    Whole([u8; 32]),
    /// A read at this place gave none before all came.
    Short(u64),
}

/// Reads this many bytes from the offset on, in pieces, and keeps none of them.
pub fn read_fingerprint<T: Tail>(tail: &mut T, offset: u64, length: u64) -> Result<Printed, Failed>
    requires some { 0 < length }
    requires in_range { IsPlace (offset + length) }
    ensures printed { IfOk result (λ printed. IsPrinted offset length (T.told tail.old) printed (T.told tail.new)) }
    ensures failed { OnErr result (IfSome (T.told tail.old) (λ told. FailedReading offset length told (T.told tail.new))) }
    ensures untold { IsNone (T.told tail.old) → IsNone (T.told tail.new) }
    ensures numbers_kept { T.numbers tail.new ≡ T.numbers tail.old }
    ensures faults_never_fall { T.faults tail.old ≤ T.faults tail.new }
    ensures failed_only_where_faults_rose { OnErr result (Rose (T.faults tail.old) (T.faults tail.new)) }
    ensures faults_told_only_by_failures { IsSome (T.told tail.old) → OnOk result (T.faults tail.new ≡ T.faults tail.old) }
{
    let mut hasher = Sha256::new();
    let mut buffer = [0u8; READ_SIZE];
    let mut done = 0;
    while done < length {
        let most = (length - done).min(READ_SIZE as u64) as usize;
        let count = feed(tail, offset + done, &mut buffer[..most], &mut hasher)?;
        if count == 0 {
            return Ok(Printed::Short(offset + done));
        }
        done += count as u64;
    }
    Ok(Printed::Whole(hasher.finalize()))
}

/// Reads into the piece, and gives the hasher what came.
fn feed<T: Tail>(
    tail: &mut T,
    at: u64,
    piece: &mut [u8],
    hasher: &mut Sha256,
) -> Result<usize, Failed>
    ensures within { IfOk result (λ count. count ≤ length piece.old) }
    ensures told { TellsRead (T.told tail.old) at piece.new result (T.told tail.new) }
    ensures fed { IfOk result (λ count. (m : List ℕ) → Holds256 hasher.old m → Holds256 hasher.new (m ++ take count piece.new)) }
    ensures numbers_kept { T.numbers tail.new ≡ T.numbers tail.old }
    ensures faults_never_fall { T.faults tail.old ≤ T.faults tail.new }
    ensures failed_only_where_faults_rose { OnErr result (Rose (T.faults tail.old) (T.faults tail.new)) }
    ensures faults_told_only_by_failures { IsSome (T.told tail.old) → OnOk result (T.faults tail.new ≡ T.faults tail.old) }
{
    let count = tail.read_at(at, piece)?;
    hasher.update(&piece[..count]);
    Ok(count)
}

ghost use Rattle.std.specs.Prelude.{◌≡◌, ◌≤◌, ◌+◌, ◌↔◌, ◌++◌, ℕ, All, IfOk, IfSome, IsTrue, List, MatchOption, drop, length};
ghost use Rattle.std.specs.Char.{IsAsciiDigit};
ghost use Rattle.wire_base.specs.Ranges.{IsOp};
ghost use Rattle.wire_base.specs.declared.row.Op.{Op};
ghost use Rattle.registry_log.specs.RecordReading.{IsHeadOf, IsRecord, head_bytes};
ghost use Rattle.registry_log.specs.Records.{padded};

use crate::MAX_BODY;
use crate::header::read_number;
use registry_frame::{BodyError, read_body};
use std::alloc::Global;
use wire_base::{NoMemory, Op};

/// The bytes of a record before its body: the gate, the body's length in seven digits, and a space.
pub(crate) const RECORD_HEAD: usize = 9;

/// What is at a gate.
#[derive(Clone, Copy, Drop)]
pub(crate) enum Head {
    /// The area ends here.
    Absent,
    Closed,
    /// The gate is open, and no length of a body follows.
    Broken,
    /// The gate is open, and a body of this length is to follow.
    Length(usize),
}

/// Reads what is at a gate from the bytes from the gate on, of which `RECORD_HEAD` are enough.
pub(crate) fn read_head(bytes: &[u8]) -> Head
    ensures { IsHeadOf result bytes.now }
{
    if bytes.is_empty() {
        return Head::Absent;
    }
    if bytes[0] != b'{' {
        return Head::Closed;
    }
    if bytes.len() < RECORD_HEAD {
        return Head::Broken;
    }
    if bytes[8] != b' ' {
        return Head::Broken;
    }
    match read_size(&bytes[1..8]) {
        Some(size) => Head::Length(size),
        None => Head::Broken,
    }
}

/// `None` exactly if these are not the seven digits of a body's length.
fn read_size(digits: &[u8]) -> Option<usize>
    requires { length digits.now ≡ 7 }
    ensures { MatchOption result ((size : ℕ) → size ≤ MAX_BODY → ¬ (digits.now ≡ padded 7 size)) (λ size. (size ≤ MAX_BODY) × (digits.now ≡ padded 7 size)) }
{
    if !are_digits(digits) {
        return None;
    }
    let Some(size) = read_number(digits) else {
        return None;
    };
    if size > MAX_BODY as u64 {
        return None;
    }
    Some(size as usize)
}

fn are_digits(bytes: &[u8]) -> bool
    ensures { IsTrue result ↔ All IsAsciiDigit bytes.now }
{
    bytes.iter().all(|byte| byte.is_ascii_digit())
}

/// The operations of the record whose head says this length of a body; `None` exactly if no record is there. All
/// bytes of the record are enough.
pub(crate) fn read_operations(
    alloc: Global,
    bytes: &[u8],
    size: usize,
) -> Result<Option<Vec<Op>>, NoMemory>
    requires size { size ≤ MAX_BODY }
    requires head { bytes.now ≡ head_bytes size ++ drop 9 bytes.now }
    ensures record { IfOk result (λ read. MatchOption read ((ops : List Op) (rest : List ℕ) → ¬ (IsRecord ops bytes.now rest)) (λ ops. IsRecord ops.items bytes.now (drop (size + 10) bytes.now))) }
    ensures in_range { IfOk result (λ read. IfSome read (λ ops. All IsOp ops.items)) }
{
    let end = RECORD_HEAD + size;
    if bytes.len() <= end {
        return Ok(None);
    }
    if bytes[end] != b'\n' {
        return Ok(None);
    }
    match read_body(alloc, &bytes[RECORD_HEAD..end]) {
        Ok(ops) => Ok(Some(ops)),
        Err(BodyError::NotABody) => Ok(None),
        Err(BodyError::NoMemory) => Err(NoMemory),
    }
}

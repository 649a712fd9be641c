ghost use Rattle.std.specs.Prelude.{◌≡◌, ◌≤◌, ◌^◌, ◌<◌, ◌+◌, ◌∷◌, ◌++◌, IfOk, codes, decimal, length, take};
ghost use Rattle.spool_queue.specs.Records.{record_of};

use itoa::{Buffer, write_digits};
use std::alloc::Global;
use wire_base::NoMemory;

/// The longest record of a settlement after its gate, with the next gate.
pub(crate) const SETTLEMENT_BYTES: usize = 34;

/// The record of an event after its gate, and a closed gate after it.
pub(crate) fn event_text(alloc: Global, payload: &[u8]) -> Result<Vec<u8>, NoMemory>
    ensures { IfOk result (λ text. 0x7B ∷ text.items ≡ record_of 0x65 payload.now ++ codes ".") }
{
    let size = payload.len();
    let mut text = format!(in alloc; "{size:010} e")?.into_bytes();
    text.extend_from_slice(payload)?;
    text.extend_from_slice(b"\n.")?;
    Ok(text)
}

/// Lays the record of a settlement after its gate, and a closed gate after it, and answers how long they are.
pub(crate) fn settlement_text(text: &mut [u8; SETTLEMENT_BYTES], settled: u64) -> usize
    ensures within { result ≤ 34 }
    ensures some { 14 < result }
    ensures text { 0x7B ∷ take result text.new ≡ record_of 0x73 (decimal settled) ++ codes "." }
{
    let mut buffer = Buffer::new();
    let digits = buffer.format(settled).as_bytes();
    let size = digits.len();
    let mut sizes = [b'0'; 10];
    write_digits(size as u64, &mut sizes, 10);
    text[..10].copy_from_slice(&sizes);
    text[10..12].copy_from_slice(b" s");
    text[12..12 + size].copy_from_slice(digits);
    text[12 + size..14 + size].copy_from_slice(b"\n.");
    14 + size
}

ghost use Rattle.std.specs.Prelude.{◌≡◌, IfOk, string_bytes};
ghost use Rattle.event_json.specs.Replaced.{text_of};

use std::alloc::Global;
use wire_base::NoMemory;

/// The bytes as text: U+FFFD stands for what is no UTF-8.
pub(crate) fn replaced(alloc: Global, bytes: &[u8]) -> Result<String, NoMemory>
    ensures { IfOk result (λ text. string_bytes text ≡ text_of bytes.now) }
{
    Ok(String::from_utf8_lossy(alloc, bytes)?)
}

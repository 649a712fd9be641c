ghost use Rattle.std.specs.Prelude.{◌≡◌, IfOk};
ghost use Rattle.beat_config.specs.Path.{key_path, member_path};

use std::alloc::Global;
use wire_base::{NoMemory, Text};

/// The path of a key below a path; the empty path is that of the document.
pub(crate) fn key_path(alloc: Global, path: &str, key: &str) -> Result<Text, NoMemory>
    ensures { IfOk result (λ text. text ≡ key_path path.now key.now) }
{
    let mut text = String::from_str(alloc, path)?;
    if !path.is_empty() {
        text.push('.')?;
    }
    text.push_str(key)?;
    Ok(Text::from_string(text))
}

/// The path of the member of a list, whose number is counted from 0.
pub(crate) fn member_path(alloc: Global, path: &str, number: usize) -> Result<Text, NoMemory>
    ensures { IfOk result (λ text. text ≡ member_path path.now number) }
{
    let mut digits = itoa::Buffer::new();
    key_path(alloc, path, digits.format(number))
}

ghost use Rattle.std.specs.Prelude.{◌≡◌, ◌<◌, ◌^◌, IfOk, SomeIff, string_bytes};
ghost use Rattle.glob_paths.specs.Root.{is_plain, leading_parts, other_parts, slashed, or_slash, depth_of_parts};
ghost use Rattle.wire_base.specs.Path.{parts_of};

use crate::cover::MAX_DEEP;
use crate::parts::first_part;
use std::alloc::{AllocError, Global};
use wire_base::Text;

/// The folder of the leading plain parts of a text, and the text of its other parts.
pub fn leading_folder(alloc: Global, text: &str) -> Result<(String, &str), AllocError>
    ensures folder { IfOk result (λ read. string_bytes read.0 ≡ slashed (leading_parts (parts_of text.now))) }
    ensures others { IfOk result (λ read. parts_of read.1.now ≡ other_parts (parts_of text.now)) }
{
    let mut folder = String::new(alloc);
    let mut rest = text;
    loop {
        let (part, more) = first_part(rest);
        let Some(behind) = more else {
            return Ok((folder, rest));
        };
        if !is_plain(part) {
            return Ok((folder, rest));
        }
        folder.push('/')?;
        folder.push_str(part)?;
        rest = behind;
    }
}

/// The folder itself, or `/` if it has no part.
pub fn root_text(folder: String) -> Result<Text, AllocError>
    ensures { IfOk result (λ root. root ≡ or_slash (string_bytes folder)) }
{
    let mut root = folder;
    if root.is_empty() {
        root.push('/')?;
    }
    Ok(Text::from_string(root))
}

/// How many parts of a path the parts of a text stand for at most, if that fits.
pub fn depth_of(text: &str) -> Option<u32>
    ensures { SomeIff result
        (depth_of_parts (parts_of text.now) < 2 ^ 32)
        (depth_of_parts (parts_of text.now)) }
{
    let mut depth: u32 = 0;
    let mut rest = text;
    loop {
        let (part, more) = first_part(rest);
        let most = if part == "**" { MAX_DEEP } else { 1 };
        let Some(deeper) = depth.checked_add(most) else {
            return None;
        };
        depth = deeper;
        let Some(behind) = more else {
            return Some(depth);
        };
        rest = behind;
    }
}

/// Whether no `*`, `?`, `[` or backslash is in the text.
fn is_plain(part: &str) -> bool
    ensures { result ≡ is_plain part.now }
{
    part.as_bytes().iter().all(|byte| *byte != b'*'
        && *byte != b'?'
        && *byte != b'['
        && *byte != b'\\')
}

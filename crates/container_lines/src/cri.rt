ghost use Rattle.std.specs.Prelude.{◌≡◌, option_map};
ghost use Rattle.container_lines.specs.Cri.{split_field, last_field, tag_partial, streamed_part, cri_part};
ghost use Rattle.container_lines.specs.Part.{part_with};

use crate::part::{Part, stream_named};
use memchr::memchr;

/// What a line with this content says by Kubernetes' CRI log format; `None` if it is not of the format.
pub fn cri_part<'a>(content: &'a [u8]) -> Option<Part<'a>>
    ensures { option_map (λ found. part_with found.stream found.partial found.text.now) result
        ≡ cri_part content.now }
{
    let Some((stamp, rest)) = split_field(content) else {
        return None;
    };
    if stamp.is_empty() {
        return None;
    }
    streamed_part(rest)
}

/// What is after the stamp.
fn streamed_part<'a>(bytes: &'a [u8]) -> Option<Part<'a>>
    ensures { option_map (λ found. part_with found.stream found.partial found.text.now) result
        ≡ streamed_part bytes.now }
{
    let Some((name, rest)) = split_field(bytes) else {
        return None;
    };
    let Some(stream) = stream_named(name) else {
        return None;
    };
    let (tag, text) = last_field(rest);
    let Some(partial) = tag_partial(tag) else {
        return None;
    };
    Some(Part {
        stream,
        partial,
        text,
    })
}

/// The bytes before the first space and those after it.
fn split_field<'a>(bytes: &'a [u8]) -> Option<(&'a [u8], &'a [u8])>
    ensures { option_map (λ fields. (fields.0.now, fields.1.now)) result ≡ split_field bytes.now }
{
    match memchr(b' ', bytes) {
        Some(at) => Some((&bytes[..at], &bytes[at + 1..])),
        None => None,
    }
}

/// The same, with all bytes and nothing after them if there is no space.
fn last_field<'a>(bytes: &'a [u8]) -> (&'a [u8], &'a [u8])
    ensures { (result.0.now, result.1.now) ≡ last_field bytes.now }
{
    match split_field(bytes) {
        Some(fields) => fields,
        None => (bytes, &[]),
    }
}

/// Whether a line with this tag is partial; `None` if this is no tag.
fn tag_partial(tag: &[u8]) -> Option<bool>
    ensures { result ≡ tag_partial tag.now }
{
    match tag {
        [b'P'] | [b'P', b':', ..] => Some(true),
        [b'F'] | [b'F', b':', ..] => Some(false),
        _ => None,
    }
}

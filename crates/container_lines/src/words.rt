ghost use Rattle.std.specs.Prelude.{◌≡◌};
ghost use Rattle.container_lines.specs.Asked.{asked_of, format_named, keep_named};

use crate::format::{Format, Keep};
use crate::part::stream_named;
use wire_base::Text;

/// What the arguments ask for.
#[derive(Clone, Copy, Debug, PartialEq, Eq)]
pub struct Asked {
    pub format: Format,
    pub keep: Keep,
}

/// What the arguments ask for; `None` exactly if they are not `--format F --stream S`.
pub fn read_words(words: &[Text]) -> Option<Asked>
    ensures { result ≡ asked_of words.now }
{
    let [first, format, second, stream] = words else {
        return None;
    };
    if first.as_str() != "--format" || second.as_str() != "--stream" {
        return None;
    }
    let Some(format) = format_named(format.bytes()) else {
        return None;
    };
    let Some(keep) = keep_named(stream.bytes()) else {
        return None;
    };
    Some(Asked { format, keep })
}

/// The format that this argument names.
fn format_named(name: &[u8]) -> Option<Format>
    ensures { result ≡ format_named name.now }
{
    if name == b"cri".as_slice() {
        Some(Format::Cri)
    } else if name == b"docker".as_slice() {
        Some(Format::Docker)
    } else {
        None
    }
}

/// The streams that this argument names.
fn keep_named(name: &[u8]) -> Option<Keep>
    ensures { result ≡ keep_named name.now }
{
    if name == b"all".as_slice() {
        return Some(Keep::All);
    }
    match stream_named(name) {
        Some(stream) => Some(Keep::Only(stream)),
        None => None,
    }
}

ghost use Rattle.std.specs.Prelude.{◌≡◌, IfOk, option_map};
ghost use Rattle.serde_json.specs.View.{view};
ghost use Rattle.container_lines.specs.Docker.{object_part, text_at, value_of};
ghost use Rattle.container_lines.specs.Part.{part_with};

use crate::part::{Part, stream_named};
use serde_json::Value;
use std::alloc::Global;
use wire_base::NoMemory;

/// The value of a line's content; `None` if it is no JSON text.
pub fn json_value(alloc: Global, content: &[u8]) -> Result<Option<Value>, NoMemory>
    ensures { IfOk result (λ found. option_map view found ≡ value_of content.now) }
{
    match Value::from_slice(alloc, content) {
        Ok(value) => Ok(Some(value)),
        Err(error) if error.is_memory() => Err(NoMemory),
        Err(_) => Ok(None),
    }
}

/// What a line with this value says by Docker's json-file driver; `None` if it is not of the format.
pub fn object_part<'a>(value: &'a Value) -> Option<Part<'a>>
    ensures { option_map (λ found. part_with found.stream found.partial found.text.now) result
        ≡ object_part (view value.now) }
{
    let Some(log) = text_at(value, "log") else {
        return None;
    };
    let Some(name) = text_at(value, "stream") else {
        return None;
    };
    let Some(stream) = stream_named(name) else {
        return None;
    };
    if text_at(value, "time").is_none() {
        return None;
    }
    Some(match log {
        [text @ .., b'\n'] => Part {
            stream,
            partial: false,
            text,
        },
        _ => Part {
            stream,
            partial: true,
            text: log,
        },
    })
}

/// The text that an object has under this key.
fn text_at<'a>(value: &'a Value, key: &str) -> Option<&'a [u8]>
    ensures { option_map (λ text. text.now) result ≡ text_at key.now (view value.now) }
{
    match value.get(key) {
        Some(found) => match found.as_str() {
            Some(text) => Some(text.as_bytes()),
            None => None,
        },
        None => None,
    }
}

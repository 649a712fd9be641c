use std::alloc::Global;
use toml::{Table, Value};

/// No line is looked for in more bytes of settings, since each line is one reading of all before it.
const LOOKED_THROUGH: usize = 65_536;

/// The line, from 1, on which the value of a dotted key begins, or that of as many of its first parts as there are; `None`
/// if no part is there, or the settings have too many bytes to look through.
///
/// Whole lines from the first one on are a document, unless they end within a value of several lines. So a value begins
/// after the longest such document that does not have it.
pub(crate) fn line_of_key(alloc: Global, settings: &[u8], key: &str) -> Option<usize> {
    if LOOKED_THROUGH < settings.len() {
        return None;
    }
    let (mut found, mut most) = (None, 0usize);
    let (mut line, mut begins) = (0usize, 1usize);
    for at in 0..settings.len() {
        if settings[at] != b'\n' && at + 1 < settings.len() {
            continue;
        }
        line = line.saturating_add(1);
        let Ok(document) = toml::table_from_slice(alloc, &settings[..at + 1]) else {
            continue;
        };
        let parts = parts_in(&document, key);
        if most < parts {
            most = parts;
            found = Some(begins);
        }
        begins = line.saturating_add(1);
    }
    found
}

/// How many parts of a dotted key, from its first one on, lead to a value.
fn parts_in(document: &Table, key: &str) -> usize {
    let mut count = 0usize;
    let mut reached: Option<&Value> = None;
    for part in key.split('.') {
        let next = match reached {
            None => document.get(part),
            Some(value) => member_of(value, part),
        };
        if next.is_none() {
            return count;
        }
        reached = next;
        count = count.saturating_add(1);
    }
    count
}

/// A member of a list goes by its number, from 0.
fn member_of<'a>(value: &'a Value, part: &str) -> Option<&'a Value> {
    match value {
        Value::Table(members) => members.get(part),
        Value::Array(items) => items.get(part.parse::<usize>().ok()?),
        _ => None,
    }
}

/// The line, from 1, where a document stops being TOML, and why, as far as the reader of TOML says it.
pub(crate) fn line_of_fault(alloc: Global, settings: &[u8]) -> Option<(usize, String)> {
    let Err(fault) = toml::table_from_slice(alloc, settings) else {
        return None;
    };
    let start = fault.span()?.start;
    let before = settings.get(..start)?;
    let line = before.iter().filter(|byte| **byte == b'\n').count();
    let message = String::from_str(alloc, fault.message()).ok()?;
    Some((line.saturating_add(1), message))
}

ghost use Rattle.std.specs.Prelude.{◌≡◌, ◌≤◌, ◌↔◌, length, drop, IsSome, IsTrue};
ghost use Rattle.std.specs.List.{list_all};
ghost use Rattle.spool_queue.specs.AskedWords.{IsAskedBy};
ghost use Rattle.spool_queue.specs.Words.{IsHost, IsPort, IsPortBehind, is_name, is_name_byte, name_length};

use std::alloc::Global;
use wire_base::{Host, NoMemory, Text, read_decimal};

/// The port of a host that names none.
const PORT: u16 = 5044;

/// The greatest port.
const MAX_PORT: u64 = 65_535;

/// The most bytes of a host's name.
const MAX_NAME_BYTES: usize = 253;

/// The host that the arguments name, and the memory that a run to it takes.
#[derive(Clone, Copy)]
pub(crate) struct Target<'a> {
    pub(crate) alloc: Global,
    name: &'a [u8],
    port: u16,
}

impl<'a> Target<'a> {
    pub(crate) fn host(&self) -> Result<Host, NoMemory> {
        let name = Text::from_bytes(self.alloc, self.name).map_err(|_| NoMemory)?;
        Ok(Host {
            name,
            port: self.port,
        })
    }
}

/// What the arguments ask for.
#[derive(Clone, Copy)]
pub(crate) enum Asked<'a> {
    Put,
    Send(Target<'a>),
}

/// What the arguments ask for; `None` exactly if they are neither `put` nor `send HOST`. Takes no memory.
pub(crate) fn asked_of<'a>(alloc: Global, words: &'a [Text]) -> Option<Asked<'a>>
    ensures { IsAskedBy words.now result }
{
    match words {
        [word] if word.as_str() == "put" => Some(Asked::Put),
        [word, host] if word.as_str() == "send" => match target_of(alloc, host.bytes()) {
            Some(target) => Some(Asked::Send(target)),
            None => None,
        },
        _ => None,
    }
}

/// The host that a text names, `NAME` or `NAME:PORT`.
fn target_of<'a>(alloc: Global, text: &'a [u8]) -> Option<Target<'a>>
    ensures { IsSome result ↔ IsHost text.now }
{
    let (name, rest) = text.split_at(name_length(text));
    if !is_name(name) {
        return None;
    }
    match port_behind(rest) {
        Some(port) => Some(Target { alloc, name, port }),
        None => None,
    }
}

/// How many bytes are before the first colon.
fn name_length(text: &[u8]) -> usize
    ensures value { result ≡ name_length text.now }
    ensures within { result ≤ length text.now }
{
    let mut count = 0;
    for byte in text {
        if *byte == b':' {
            return count;
        }
        count += 1;
    }
    count
}

/// The port after a name.
fn port_behind(rest: &[u8]) -> Option<u16>
    ensures { IsSome result ↔ IsPortBehind rest.now }
{
    match rest {
        [] => Some(PORT),
        [_, digits @ ..] => port_of(digits),
    }
}

/// The port that decimal digits stand for.
fn port_of(digits: &[u8]) -> Option<u16>
    ensures { IsSome result ↔ IsPort digits.now }
{
    match read_decimal(digits) {
        Some(port) if 1 <= port && port <= MAX_PORT => Some(port as u16),
        _ => None,
    }
}

/// Whether the text is a host's name.
fn is_name(text: &[u8]) -> bool
    ensures { result ≡ is_name text.now }
{
    !text.is_empty() && text.len() <= MAX_NAME_BYTES && are_name_bytes(text)
}

/// Whether each byte may be in a host's name.
fn are_name_bytes(text: &[u8]) -> bool
    ensures { result ≡ list_all is_name_byte text.now }
{
    text.iter().all(|byte| is_name_byte(*byte))
}

/// Whether the byte may be in a host's name.
fn is_name_byte(byte: u8) -> bool
    ensures { result ≡ is_name_byte byte }
{
    matches!(byte, b'A'..=b'Z' | b'a'..=b'z' | b'0'..=b'9' | b'_' | b'.' | b'-')
}

ghost use Rattle.std.specs.Prelude.{◌≡◌, ◌↔◌, ◌≤◌, length, option_map, IfOk, IfSome, IsTrue, None};
ghost use Rattle.std.specs.List.{list_all};
ghost use Rattle.lumber_server.specs.AskedWords.{asked_value, named_value};
ghost use Rattle.lumber_server.specs.Words.{ArePlaces, IsAskedBy, IsAskedOf, IsAskedWhere, IsHost, IsNumberTo, IsPortBehind, are_marks, asked_by, is_name, is_name_byte, name_length};

use crate::places::SinkPlaces;
use std::alloc::Global;
use wire_base::{Host, NoMemory, Text, read_decimal};

/// The most links that may be served.
const MOST_LINKS: u64 = 1_000_000;

/// The greatest port.
const MOST_PORT: u64 = 65_535;

/// The most bytes of a host's name.
const MOST_NAME: usize = 253;

/// What the arguments ask for.
#[derive(Clone, Copy)]
pub(crate) struct AskedWords<'a> {
    name: &'a [u8],
    port: u16,
    file: &'a Text,
    pub(crate) links: u32,
}

/// A host's name and its port.
#[derive(Clone, Copy)]
struct Named<'a> {
    name: &'a [u8],
    port: u16,
}

/// Where the program listens and which file it writes, as the arguments `-l HOST:PORT -o FILE --links N` say;
/// `localhost`, 5044 and `out` if the arguments are not these.
pub fn sink_places(alloc: Global, words: &[Text]) -> Result<SinkPlaces, NoMemory>
    ensures named_or_default { IfOk result (λ places. ArePlaces words.now places) }
{
    match asked(words) {
        Some(asked) => Ok(SinkPlaces {
            host: Host {
                name: text(alloc, asked.name)?,
                port: asked.port,
            },
            file: asked.file.copy(alloc)?,
        }),
        None => Ok(SinkPlaces {
            host: Host {
                name: text(alloc, b"localhost")?,
                port: 5044,
            },
            file: text(alloc, b"out")?,
        }),
    }
}

/// Whether the arguments are the command's, so that `receive` serves. Takes no memory.
pub fn is_command(words: &[Text]) -> bool
    ensures { IsTrue result ↔ ¬ (IsAskedOf words.now None) }
{
    asked(words).is_some()
}

/// The text of bytes that are one.
fn text(alloc: Global, bytes: &[u8]) -> Result<Text, NoMemory>
    ensures { IfOk result (λ text. text ≡ bytes.now) }
{
    Text::from_bytes(alloc, bytes).map_err(|_| NoMemory)
}

/// What the arguments ask for; `None` exactly if they are not the command's. Takes no memory.
pub(crate) fn asked<'a>(words: &'a [Text]) -> Option<AskedWords<'a>>
    ensures { IsAskedOf words.now (option_map asked_value result) }
{
    match words {
        [listen, place, out, file, links, count] => {
            asked_where(are_marks(listen, out, file, links), place, file, count)
        }
        _ => None,
    }
}

/// What the values ask for, if the marks before them are the command's.
fn asked_where<'a>(
    marked: bool,
    place: &'a Text,
    file: &'a Text,
    count: &Text,
) -> Option<AskedWords<'a>>
    ensures { IsAskedWhere marked place.now file.now count.now (option_map asked_value result) }
{
    if marked {
        asked_by(place, file, count)
    } else {
        None
    }
}

/// Whether the marks before the values are the command's, and the file is not empty.
fn are_marks(listen: &Text, out: &Text, file: &Text, links: &Text) -> bool
    ensures { result ≡ are_marks listen.now out.now file.now links.now }
{
    listen.as_str() == "-l"
        && out.as_str() == "-o"
        && links.as_str() == "--links"
        && !file.bytes().is_empty()
}

/// What the values ask for.
fn asked_by<'a>(place: &'a Text, file: &'a Text, count: &Text) -> Option<AskedWords<'a>>
    ensures { IsAskedBy place.now file.now count.now (option_map asked_value result) }
{
    asked_of(host_of(place.bytes()), file, link_count(count.bytes()))
}

/// What is asked for if the host and the number of links are there.
fn asked_of<'a>(
    host: Option<Named<'a>>,
    file: &'a Text,
    links: Option<u32>,
) -> Option<AskedWords<'a>>
    ensures { option_map asked_value result ≡ asked_by file.now (option_map named_value host.entry) links }
{
    let Some(Named { name, port }) = host else {
        return None;
    };
    let Some(links) = links else {
        return None;
    };
    Some(AskedWords {
        name,
        port,
        file,
        links,
    })
}

/// The number of links, from 1 to 1,000,000.
fn link_count(digits: &[u8]) -> Option<u32>
    ensures { IsNumberTo 1000000 digits.now result }
{
    match number_to(digits, MOST_LINKS) {
        Some(count) => Some(count as u32),
        None => None,
    }
}

/// The host of `NAME:PORT`.
fn host_of<'a>(text: &'a [u8]) -> Option<Named<'a>>
    ensures { IsHost text.now (option_map named_value result) }
{
    let (name, rest) = text.split_at(name_length(text));
    let Some(port) = port_behind(rest) else {
        return None;
    };
    if !is_name(name) {
        return None;
    }
    Some(Named { name, port })
}

/// How many bytes are before the first colon.
fn name_length(text: &[u8]) -> usize
    ensures value { result ≡ name_length text.now }
    ensures within { result ≤ length text.now }
{
    let mut count = 0;
    for byte in text {
        if *byte == b':' {
            return count;
        }
        count += 1;
    }
    count
}

/// Whether the text is a host's name.
fn is_name(text: &[u8]) -> bool
    ensures { result ≡ is_name text.now }
{
    !text.is_empty() && text.len() <= MOST_NAME && are_name_bytes(text)
}

/// Whether each byte may be in a host's name.
fn are_name_bytes(text: &[u8]) -> bool
    ensures { result ≡ list_all is_name_byte text.now }
{
    text.iter().all(|byte| is_name_byte(*byte))
}

/// Whether the byte may be in a host's name.
fn is_name_byte(byte: u8) -> bool
    ensures { result ≡ is_name_byte byte }
{
    matches!(byte, b'A'..=b'Z' | b'a'..=b'z' | b'0'..=b'9' | b'_' | b'.' | b'-')
}

/// The port after a name and its colon.
fn port_behind(rest: &[u8]) -> Option<u16>
    ensures { IsPortBehind rest.now result }
{
    match rest {
        [] => None,
        [_, digits @ ..] => match number_to(digits, MOST_PORT) {
            Some(port) => Some(port as u16),
            None => None,
        },
    }
}

/// The number that decimal digits stand for, from 1 to `most`.
fn number_to(digits: &[u8], most: u64) -> Option<u64>
    ensures { IsNumberTo most digits.now result }
{
    match read_decimal(digits) {
        Some(number) if 1 <= number && number <= most => Some(number),
        _ => None,
    }
}

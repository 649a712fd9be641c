ghost use Rattle.std.specs.Prelude.{◌≡◌, ◌++◌, IfOk, OnOk, pos};
ghost use Rattle.event_tree.specs.Tree.{value_of};
ghost use Rattle.wire_base.specs.Ranges.{IsMoment, IsPlace};
ghost use Rattle.event_json.specs.Data.{tokens_of};
ghost use Rattle.event_json.specs.Envelope.{event_fields, input_fields, log_fields};
ghost use Rattle.event_json.specs.Moment.{moment_text};
ghost use Rattle.event_json.specs.Payload.{payload_of_value, payload_of_event, within_bound};

use crate::json_tree::JsonTree;
use crate::moment::Stamp;
use crate::replaced_text::replaced;
use event_tree::Tree;
use json::Writer;
use std::alloc::{AllocError, Global};
use std::str;
use wire_base::{Blob, MAX_PAYLOAD, Moment, NoMemory, Text};

/// How many bytes of an event's payload are not of its path and its message, at most, with some room that the writer
/// asks for beside.
const ENVELOPE_BYTES: usize = 160;

/// The compact JSON text of the tree (RFC 8259); `None` exactly if it is longer than
/// `MAX_PAYLOAD` bytes.
pub fn payload(alloc: Global, tree: &Tree) -> Result<Option<Blob>, NoMemory>
    ensures of_tree { IfOk result (λ payload. payload ≡ payload_of_value (value_of tree.now)) }
{
    match serde_json::to_vec(alloc, &JsonTree(tree)) {
        Ok(text) => Ok(bounded(text)),
        Err(_) => Err(NoMemory),
    }
}

/// The payload of the envelope of an event, as `payload` gives it of `envelope`. No tree is made, and
/// a message that is UTF-8 is not copied but into the payload.
pub fn event_payload(
    alloc: Global,
    path: &Text,
    offset: u64,
    message: &[u8],
    now: Moment,
) -> Result<Option<Blob>, NoMemory>
    requires place { IsPlace offset }
    requires moment { IsMoment now }
    ensures of_event { IfOk result (λ payload. payload ≡ payload_of_event path.now offset message.now now.0) }
{
    event_payload_at(alloc, path, offset, message, &Stamp::new(now))
}

/// As `event_payload`, at the moment of the stamp.
pub fn event_payload_at(
    alloc: Global,
    path: &Text,
    offset: u64,
    message: &[u8],
    stamp: &Stamp,
) -> Result<Option<Blob>, NoMemory>
    ensures of_event { IfOk result (λ payload. payload ≡ payload_of_event path.now offset message.now stamp.now) }
{
    match str::from_utf8(message) {
        Ok(message) => event_text(alloc, path, offset, message, stamp),
        Err(_) => event_text(
            alloc,
            path,
            offset,
            replaced(alloc, message)?.as_str(),
            stamp,
        ),
    }
}

/// The payload of an event whose message is this text, in one buffer that is large enough if nothing is escaped.
fn event_text(
    alloc: Global,
    path: &Text,
    offset: u64,
    message: &str,
    stamp: &Stamp,
) -> Result<Option<Blob>, NoMemory>
    ensures { IfOk result (λ payload. payload ≡ payload_of_value (event_fields (moment_text stamp.now) path.now (pos offset) message.now)) }
{
    let room = path.bytes().len().saturating_add(message.len());
    let room = room.saturating_add(ENVELOPE_BYTES);
    let mut writer = Writer::new(Vec::with_capacity(alloc, room)?);
    writer.begin_object()?;
    writer.key("@timestamp")?;
    writer.string(stamp.text())?;
    writer.key("input")?;
    put_input(&mut writer)?;
    writer.key("log")?;
    put_log(&mut writer, path, offset)?;
    writer.key("message")?;
    writer.string(message)?;
    writer.end_object()?;
    Ok(bounded(writer.into_inner()))
}

/// `input`'s value.
fn put_input(writer: &mut Writer) -> Result<(), AllocError>
    ensures tokens { OnOk result (writer.new.tokens ≡ writer.old.tokens ++ tokens_of input_fields) }
    ensures before { writer.new.before ≡ writer.old.before }
{
    writer.begin_object()?;
    writer.key("type")?;
    writer.string("filestream")?;
    writer.end_object()
}

/// `log`'s value.
fn put_log(writer: &mut Writer, path: &Text, offset: u64) -> Result<(), AllocError>
    ensures tokens { OnOk result (writer.new.tokens ≡ writer.old.tokens ++ tokens_of (log_fields path.now (pos offset))) }
    ensures before { writer.new.before ≡ writer.old.before }
{
    writer.begin_object()?;
    writer.key("file")?;
    writer.begin_object()?;
    writer.key("path")?;
    writer.string(path.as_str())?;
    writer.end_object()?;
    writer.key("offset")?;
    writer.u64(offset)?;
    writer.end_object()
}

fn bounded(text: Vec<u8>) -> Option<Blob>
    ensures { result ≡ within_bound text.items }
{
    if text.len() > MAX_PAYLOAD {
        return None;
    }
    Some(Blob::from_vec(text))
}

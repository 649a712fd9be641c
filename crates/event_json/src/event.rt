ghost use Rattle.std.specs.Prelude.{◌≡◌, IfOk, OnOk, pos};
ghost use Rattle.event_tree.specs.Keys.{set_field};
ghost use Rattle.event_tree.specs.Tree.{value_of};
ghost use Rattle.wire_base.specs.Ranges.{IsMoment, IsPlace};
ghost use Rattle.event_json.specs.Envelope.{envelope_of, input_fields, log_fields};

use crate::moment::text_of_moment;
use crate::replaced_text::replaced;
use event_tree::{Fields, Tree};
use std::alloc::Global;
use wire_base::{Moment, NoMemory, Text};

/// The tree of an event before any processor (Filebeat reference, event fields): the path of its
/// file, the place at which its span starts, its message, of which bytes that are no UTF-8 are
/// replaced by U+FFFD, and the moment at which it was closed.
pub fn envelope(
    alloc: Global,
    path: &Text,
    offset: u64,
    message: &[u8],
    now: Moment,
) -> Result<Tree, NoMemory>
    requires place { IsPlace offset }
    requires moment { IsMoment now }
    ensures of_event { IfOk result (λ tree. value_of tree ≡ envelope_of path.now offset message.now now.0) }
{
    let timestamp = text(alloc, text_of_moment(now).as_str())?;
    let mut event = Fields::new(alloc);
    set(alloc, &mut event, "@timestamp", Tree::Str(timestamp))?;
    set(alloc, &mut event, "input", input(alloc)?)?;
    set(alloc, &mut event, "log", log(alloc, path, offset)?)?;
    let message = Text::from_string(replaced(alloc, message)?);
    set(alloc, &mut event, "message", Tree::Str(message))?;
    Ok(Tree::Map(event))
}

fn input(alloc: Global) -> Result<Tree, NoMemory>
    ensures { IfOk result (λ tree. value_of tree ≡ input_fields) }
{
    let mut input = Fields::new(alloc);
    set(
        alloc,
        &mut input,
        "type",
        Tree::Str(text(alloc, "filestream")?),
    )?;
    Ok(Tree::Map(input))
}

fn log(alloc: Global, path: &Text, offset: u64) -> Result<Tree, NoMemory>
    requires { IsPlace offset }
    ensures { IfOk result (λ tree. value_of tree ≡ log_fields path.now (pos offset)) }
{
    let mut file = Fields::new(alloc);
    set(alloc, &mut file, "path", Tree::Str(path.copy(alloc)?))?;
    let mut log = Fields::new(alloc);
    set(alloc, &mut log, "file", Tree::Map(file))?;
    set(alloc, &mut log, "offset", Tree::Int(offset as i64))?;
    Ok(Tree::Map(log))
}

fn set(alloc: Global, fields: &mut Fields, key: &str, value: Tree) -> Result<(), NoMemory>
    ensures { OnOk result (fields.new ≡ set_field key.now (value_of value) fields.old) }
{
    match fields.set(text(alloc, key)?, value) {
        Ok(()) => Ok(()),
        Err(_) => Err(NoMemory),
    }
}

fn text(alloc: Global, chars: &str) -> Result<Text, NoMemory>
    ensures { IfOk result (λ text. text ≡ chars.now) }
{
    Ok(Text::from_string(String::from_str(alloc, chars)?))
}

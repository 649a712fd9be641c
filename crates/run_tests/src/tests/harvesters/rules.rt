//! Rules of an input, and how a file begins.
ghost use Rattle.std.specs.Prelude.{◌≡◌, ◌≤◌, IfOk, length};
ghost use Rattle.line_cutter.specs.Lines.{IsMessageLimit};
ghost use Rattle.multiline_core.specs.Rule.{IsGroupRule};
ghost use Rattle.patterns.specs.Pattern.{IsLinePattern};
ghost use Rattle.file_identity.specs.Answers.{IsAskable};
ghost use Rattle.harvester.specs.InRange.{IsReadable};
ghost use Rattle.wire_base.specs.Ranges.{IsBegin};

use event_tree::{GroupRule, IdentityRule, InputRule, LineRule, ListOf, Side, Terminator};
use patterns::is_line_pattern;
use std::alloc::Global;
use wire_base::{Begin, Epoch, NoMemory, Slot, Text};

/// The most bytes of a message if a row names no other limit.
pub const LIMIT: u64 = 10_485_760;

/// How long an event waits for lines, in milliseconds.
const TIMEOUT: u64 = 5_000;

/// The key of the file, by its path.
pub const KEY: &str = "filestream::w::path::/a";

/// Which lines are one event.
#[derive(Clone, Copy)]
pub enum Group {
    Single,
    Two,
    /// A line continues that does not begin with a bracket.
    Bracketed,
}

pub fn text(alloc: Global, chars: &str) -> Result<Text, NoMemory>
    ensures { IfOk result (λ text. text ≡ chars.now) }
{
    Ok(Text::from_string(String::from_str(alloc, chars)?))
}

/// The text, if it is a pattern.
fn pattern(alloc: Global, text: &str) -> Result<Text, NoMemory>
    ensures { IfOk result IsLinePattern }
{
    if is_line_pattern(alloc, text)? {
        Ok(Text::from_string(String::from_str(alloc, text)?))
    } else {
        Err(NoMemory)
    }
}

fn group_rule(alloc: Global, group: Group, message_max_bytes: u64) -> Result<GroupRule, NoMemory>
    requires { IsMessageLimit message_max_bytes }
    ensures { IfOk result IsGroupRule }
{
    match group {
        Group::Single => Ok(GroupRule::Single { message_max_bytes }),
        Group::Two => Ok(GroupRule::Count {
            count_lines: 2,
            max_lines: 500,
            timeout: TIMEOUT,
            skip_newline: false,
            message_max_bytes,
        }),
        Group::Bracketed => Ok(GroupRule::Pattern {
            pattern: pattern(alloc, r"^\[")?,
            negate: true,
            side: Side::After,
            flush_pattern: None,
            max_lines: 500,
            timeout: TIMEOUT,
            skip_newline: false,
            message_max_bytes,
        }),
    }
}

/// An input of id `w` without patterns for its messages, which keep so many bytes at most.
pub fn input(
    alloc: Global,
    file_identity: IdentityRule,
    group: Group,
    message_max_bytes: u64,
) -> Result<InputRule, NoMemory>
    requires askable { IsAskable file_identity }
    requires limit { IsMessageLimit message_max_bytes }
    ensures readable { IfOk result IsReadable }
{
    Ok(InputRule {
        id: text(alloc, "w")?,
        paths: ListOf::from_vec(Vec::new(alloc)),
        file_identity,
        check_interval: 10_000,
        clean_removed: true,
        close_inactive: 300_000,
        ignore_older: 0,
        clean_inactive: 0,
        lines: LineRule {
            terminator: Terminator::Auto,
            message_max_bytes,
        },
        include_lines: ListOf::from_vec(Vec::new(alloc)),
        exclude_lines: ListOf::from_vec(Vec::new(alloc)),
        multiline: group_rule(alloc, group, message_max_bytes)?,
    })
}

/// The file `/a` in this slot, from its first byte on.
pub fn begin(alloc: Global, slot: u32, key: &str, epoch: u32) -> Result<Begin, NoMemory>
    requires { length key.now ≤ 8192 }
    ensures { IfOk result IsBegin }
{
    Ok(Begin {
        slot: Slot(slot),
        input: 0,
        key: text(alloc, key)?,
        path: text(alloc, "/a")?,
        size: 0,
        epoch: Epoch(epoch),
        base: 0,
    })
}

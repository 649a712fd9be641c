ghost use Rattle.std.specs.Prelude.{◌≡◌, ◌+◌, ◌-◌, ◌≤◌, Some, ◌++◌, length, take, OnOk, OnErr};
ghost use Rattle.multiline_core.specs.Message.{separator};
ghost use Rattle.multiline_core.specs.Step.{first_gathered, gathered_with, group_from};

use crate::group::Group;
use crate::kind::Limits;
use line_cutter::Line;
use std::marker::Model;
use wire_base::{Blob, Moment, NoMemory, Span};

/// What is kept of the lines of an event that has not ended.
#[derive(Drop)]
pub struct Pending {
    start: u64,
    end: u64,
    lines: u64,
    message: Vec<u8>,
    read_at: Moment,
}

impl Model for Pending {
    ghost use Rattle.std.specs.Prelude.{◌+◌, ◌<◌, ◌≤◌};
    ghost use Rattle.multiline_core.specs.Gathering.{Gathered};

    ghost Value = { Gathered };

    ghost view = { λ p. record {
      start = p.start;
      end = p.end;
      lines = p.lines;
      message = p.message.items;
      read_at = p.read_at;
    } };

    ghost invariant = { λ p. (p.start < p.end) × (0 < p.lines) × (p.lines + p.start ≤ p.end) };
}

impl Pending {
    /// The event's first line; of its head at most this many bytes are kept. Takes no memory.
    pub fn first(line: Line, now: Moment, most: usize) -> Pending
        ensures { result ≡ first_gathered most line now }
    {
        let mut message = line.head.into_vec();
        message.truncate(most);
        Pending {
            start: line.span.start(),
            end: line.span.end(),
            lines: 1,
            message,
            read_at: now,
        }
    }

    /// One more line, which begins where the last one ended.
    pub fn add(&mut self, line: &Line, now: Moment, limits: &Limits) -> Result<(), NoMemory>
        requires adjoining { self.old.end ≡ line.now.span.start }
        requires short { length self.old.message ≤ limits.now.message_max_bytes }
        ensures added { OnOk result (self.new ≡ gathered_with limits.now.max_lines limits.now.message_max_bytes
            limits.now.skip_newline (Some self.old) line.now now) }
        ensures unchanged_on_refusal { OnErr result (self.new ≡ self.old) }
    {
        if self.lines < limits.max_lines {
            let most = limits.message_max_bytes as usize;
            extend_message(
                &mut self.message,
                most,
                limits.skip_newline,
                line.head.bytes(),
            )?;
        }
        self.end += line.span.end() - line.span.start();
        self.lines += 1;
        self.read_at = now;
        Ok(())
    }

    /// How many lines these are.
    pub fn lines(&self) -> u64
        ensures { result ≡ self.now.lines }
    {
        self.lines
    }

    /// When the last line was given.
    pub fn read_at(&self) -> Moment
        ensures { result ≡ self.now.read_at }
    {
        self.read_at
    }

    /// The event that these lines are. Takes no memory.
    pub fn into_group(self) -> Group
        ensures { result ≡ group_from self }
    {
        let Some(span) = Span::new(self.start, self.end) else {
            unreachable!()
        };
        Group {
            span,
            message: Blob::from_vec(self.message),
            lines: self.lines,
        }
    }
}

/// Joins one more head to the message, and cuts it to this many bytes.
fn extend_message(
    message: &mut Vec<u8>,
    most: usize,
    skip_newline: bool,
    head: &[u8],
) -> Result<(), NoMemory>
    requires { length message.old.items ≤ most }
    ensures longer { OnOk result (message.new.items ≡ take most (message.old.items ++ (separator skip_newline ++ head.now))) }
    ensures unchanged_on_refusal { OnErr result (message.new.items ≡ message.old.items) }
{
    let before = message.len();
    extend_to(message, most, separator(skip_newline))?;
    match extend_to(message, most, head) {
        Ok(()) => Ok(()),
        Err(refusal) => {
            message.truncate(before);
            Err(refusal)
        }
    }
}

fn separator(skip_newline: bool) -> &'static [u8]
    ensures { result.now ≡ separator skip_newline }
{
    if skip_newline { b"" } else { b"\n" }
}

/// Puts as many of the bytes after the message as leave it no longer than `most`.
fn extend_to(message: &mut Vec<u8>, most: usize, bytes: &[u8]) -> Result<(), NoMemory>
    requires { length message.old.items ≤ most }
    ensures longer { OnOk result (message.new.items ≡ message.old.items ++ take (most - length message.old.items) bytes.now) }
    ensures unchanged_on_refusal { OnErr result (message.new.items ≡ message.old.items) }
{
    let room = most - message.len();
    message.extend_from_slice(&bytes[..room.min(bytes.len())])?;
    Ok(())
}

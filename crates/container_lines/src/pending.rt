ghost use Rattle.std.specs.Prelude.{◌≡◌, ◌-◌, ◌++◌, ◌≤◌, length, take, IfOk, OnOk, OnErr};

use crate::format::Stream;
use crate::limits::MAX_MESSAGE;
use crate::spans::Spans;
use crate::told::Joined;
use std::alloc::Global;
use std::marker::Model;
use std::mem;
use wire_base::{Blob, NoMemory, Span};

/// The partial lines of a stream that wait for one that is not partial: their places and their message.
#[derive(Drop)]
pub struct Pending {
    parts: Vec<Span>,
    message: Vec<u8>,
}

impl Model for Pending {
    ghost use Rattle.std.specs.Prelude.{◌≤◌, vec_len};
    ghost use Rattle.container_lines.specs.declared.limits.TheConstants.{MAX_MESSAGE};
    ghost use Rattle.container_lines.specs.Joining.{Waiting};

    ghost Value = { Waiting };

    ghost view = { λ p. record { parts = p.parts.items; message = p.message.items } };

    ghost invariant = { λ p. vec_len p.message ≤ MAX_MESSAGE };
}

impl Pending {
    ghost use Rattle.container_lines.specs.Joining.{no_line, with_part, joined_waiting};

    pub fn new(alloc: Global) -> Pending
        ensures { result ≡ no_line }
    {
        Pending {
            parts: Vec::new(alloc),
            message: Vec::new(alloc),
        }
    }

    /// Takes one more part.
    pub fn push(&mut self, span: Span, text: &[u8]) -> Result<(), NoMemory>
        ensures longer { OnOk result (self.new ≡ with_part self.old span text.now) }
        ensures unchanged_on_refusal { OnErr result (self.new ≡ self.old) }
    {
        let before = self.message.len();
        extend_message(&mut self.message, text)?;
        if self.parts.push(span).is_err() {
            self.message.truncate(before);
            return Err(NoMemory);
        }
        Ok(())
    }

    /// Joins what waits with the last part; then nothing waits.
    pub fn join(
        &mut self,
        alloc: Global,
        stream: Stream,
        span: Span,
        text: &[u8],
    ) -> Result<Joined, NoMemory>
        ensures joined { IfOk result (λ joined.
            joined ≡ joined_waiting stream (with_part self.old span text.now)) }
        ensures none_left { OnOk result (self.new ≡ no_line) }
        ensures unchanged_on_refusal { OnErr result (self.new ≡ self.old) }
    {
        extend_message(&mut self.message, text)?;
        let message = mem::replace(&mut self.message, Vec::new(alloc));
        let earlier = mem::replace(&mut self.parts, Vec::new(alloc));
        Ok(Joined {
            parts: Spans::new(earlier, span),
            stream,
            message: Blob::from_vec(message),
        })
    }
}

/// Appends bytes of the text to the message, as many as leave it at most `MAX_MESSAGE` bytes.
fn extend_message(message: &mut Vec<u8>, text: &[u8]) -> Result<(), NoMemory>
    requires { length message.old.items ≤ MAX_MESSAGE }
    ensures longer { OnOk result (message.new.items
        ≡ message.old.items ++ take (MAX_MESSAGE - length message.old.items) text.now) }
    ensures unchanged_on_refusal { OnErr result (message.new.items ≡ message.old.items) }
{
    let room = MAX_MESSAGE - message.len();
    message.extend_from_slice(&text[..room.min(text.len())])?;
    Ok(())
}

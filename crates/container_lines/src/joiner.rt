ghost use Rattle.std.specs.Prelude.{◌≡◌, ◌++◌, [], ◌∷◌, List, IfOk, IsOk, OnOk, OnErr, option_map};
ghost use Rattle.line_cutter.specs.declared.line.Line.{Line as LineOf};
ghost use Rattle.container_lines.specs.Part.{part_with};
ghost use Rattle.container_lines.specs.Parts.{part_of};
ghost use Rattle.container_lines.specs.Docker.{docker_part};
ghost use Rattle.container_lines.specs.Joined.{told_of};
ghost use Rattle.container_lines.specs.Joining.{answer_kept, behind_kept};
ghost use Rattle.container_lines.specs.declared.format.Format.{Format as FormatOf};
ghost use Rattle.container_lines.specs.declared.format.Keep.{Keep as KeepOf};

use crate::cri::cri_part;
use crate::docker::{json_value, object_part};
use crate::format::{Format, Keep, Stream};
use crate::limits::MAX_CONTENT;
use crate::part::Part;
use crate::pending::Pending;
use crate::told::Told;
use line_cutter::Line;
use std::alloc::Global;
use std::marker::Model;
use wire_base::{NoMemory, Span};

/// Joins the partial lines of a container log, stream by stream.
///
/// Of each stream it holds at most one joined line that is not whole: a message of at most `MAX_MESSAGE` bytes, and 16
/// bytes for each part.
#[derive(Drop)]
pub struct Joiner {
    alloc: Global,
    format: Format,
    keep: Keep,
    stdout: Pending,
    stderr: Pending,
}

impl Model for Joiner {
    ghost use Rattle.container_lines.specs.Joining.{Joining};

    ghost Value = { Joining };

    ghost view = { λ j. record { format = j.format; keep = j.keep; stdout = j.stdout; stderr = j.stderr } };
}

impl Joiner {
    ghost use Rattle.container_lines.specs.Joining.{HasJoined, answer_to, behind_part};

    /// Takes no memory.
    pub fn new(alloc: Global, format: Format, keep: Keep) -> Result<Joiner, NoMemory>
        ensures made { IfOk result (HasJoined format keep []) }
        ensures never_refused { IsOk result }
    {
        Ok(Joiner {
            alloc,
            format,
            keep,
            stdout: Pending::new(alloc),
            stderr: Pending::new(alloc),
        })
    }

    /// Takes the next line of the log, and reports what it is. Its head is its whole content, or if longer the first
    /// `MAX_CONTENT` bytes.
    pub fn line(&mut self, line: &Line) -> Result<Told, NoMemory>
        ensures told_by_the_lines { IfOk result (λ told.
            (format : FormatOf) (keep : KeepOf) (before : List LineOf) →
            HasJoined format keep before self.old → told ≡ told_of format keep before line.now) }
        ensures taken { OnOk result ((format : FormatOf) (keep : KeepOf) (before : List LineOf) →
            HasJoined format keep before self.old →
            HasJoined format keep (before ++ line.now ∷ []) self.new) }
        ensures unchanged_on_refusal { OnErr result (self.new ≡ self.old) }
    {
        self.tell_line(line)
    }

    /// What the line is, by what waits.
    fn tell_line(&mut self, line: &Line) -> Result<Told, NoMemory>
        ensures told { IfOk result (λ told.
            told ≡ answer_to self.old line.now.span (part_of self.old.format line.now)) }
        ensures behind { OnOk result
            (self.new ≡ behind_part self.old line.now.span (part_of self.old.format line.now)) }
        ensures unchanged_on_refusal { OnErr result (self.new ≡ self.old) }
    {
        if line.full > MAX_CONTENT {
            return Ok(Told::Malformed);
        }
        match self.format {
            Format::Cri => self.tell(line.span, cri_part(line.head.bytes())),
            Format::Docker => self.tell_object(line.span, line.head.bytes()),
        }
    }

    /// What a line with this content is by Docker's json-file driver.
    fn tell_object(&mut self, span: Span, content: &[u8]) -> Result<Told, NoMemory>
        ensures told { IfOk result (λ told. told ≡ answer_to self.old span (docker_part content.now)) }
        ensures behind { OnOk result (self.new ≡ behind_part self.old span (docker_part content.now)) }
        ensures unchanged_on_refusal { OnErr result (self.new ≡ self.old) }
    {
        match json_value(self.alloc, content)? {
            Some(value) => self.tell(span, object_part(&value)),
            None => Ok(Told::Malformed),
        }
    }

    /// What a line is that says this; `None` is a line that is not of the format.
    fn tell(&mut self, span: Span, found: Option<Part<'_>>) -> Result<Told, NoMemory>
        ensures told { IfOk result (λ told. told ≡ answer_to self.old span
            (option_map (λ found. part_with found.stream found.partial found.text.now) found.entry)) }
        ensures behind { OnOk result (self.new ≡ behind_part self.old span
            (option_map (λ found. part_with found.stream found.partial found.text.now) found.entry)) }
        ensures unchanged_on_refusal { OnErr result (self.new ≡ self.old) }
    {
        let Some(part) = found else {
            return Ok(Told::Malformed);
        };
        if !self.keep.keeps(part.stream) {
            return Ok(Told::Other);
        }
        match part.stream {
            Stream::Stdout => tell_kept(self.alloc, &mut self.stdout, span, part),
            Stream::Stderr => tell_kept(self.alloc, &mut self.stderr, span, part),
        }
    }
}

/// What a line of a stream is that is kept, by what waits of it.
fn tell_kept(
    alloc: Global,
    pending: &mut Pending,
    span: Span,
    part: Part<'_>,
) -> Result<Told, NoMemory>
    ensures told { IfOk result (λ told. told ≡ answer_kept pending.old span
        (part_with part.entry.stream part.entry.partial part.entry.text.now)) }
    ensures behind { OnOk result (pending.new ≡ behind_kept pending.old span
        (part_with part.entry.stream part.entry.partial part.entry.text.now)) }
    ensures unchanged_on_refusal { OnErr result (pending.new ≡ pending.old) }
{
    if part.partial {
        pending.push(span, part.text)?;
        return Ok(Told::Waits);
    }
    Ok(Told::Whole(pending.join(alloc, part.stream, span, part.text)?))
}

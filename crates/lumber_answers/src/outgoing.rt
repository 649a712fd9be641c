ghost use Rattle.std.specs.Prelude.{◌≡◌, ◌≤◌, ◌<◌, ◌++◌, ◌↔◌, [], length, map, IfOk, IsErrOf, IsTrue, OnErr, OnOk};
ghost use Rattle.outside.specs.Counts.{Rose};
ghost use Rattle.lumber_frame.specs.Frame.{frame_bytes};
ghost use Rattle.lumber_frame.specs.declared.frame.Frame.TheVariants.{Ack};
ghost use Rattle.lumber_answers.specs.Changes.{Sends, SinkTakes};
ghost use Rattle.lumber_answers.specs.HandingOn.{FailsToHandOn, telling};
ghost use Rattle.lumber_answers.specs.Laying.{WritesFront, WritesSome};
ghost use Rattle.lumber_answers.specs.Lines.{byte_of_line, line_of};

use crate::fault::{Fault, WriteFault};
use crate::streams::{send_all, write_all};
use lumber_frame::ack_frame;
use outside::{Failed, Link, Sink};
use std::alloc::{AllocError, Global};
use wire_base::NoMemory;

/// How many bytes of lines are laid one after another, so that one write carries many.
const LAID_BYTES: usize = 65_536;

/// How many bytes of acknowledgements are laid, so that one send carries many.
const ANSWER_BYTES: usize = 6_144;

/// The bytes of an acknowledgement.
const ANSWER_LENGTH: usize = 6;

/// Lines that are not written yet, and the acknowledgements that wait for them.
#[derive(Drop)]
pub struct Outgoing {
    pub lines: Vec<u8>,
    pub answers: Vec<u8>,
}

impl Outgoing {
    /// The room for lines and acknowledgements is taken here.
    pub fn new(alloc: Global) -> Result<Outgoing, NoMemory>
        ensures no_lines { IfOk result (λ outgoing. outgoing.lines.items ≡ []) }
        ensures no_answers { IfOk result (λ outgoing. outgoing.answers.items ≡ []) }
    {
        Ok(Outgoing {
            lines: Vec::with_capacity(alloc, LAID_BYTES + 1)?,
            answers: Vec::with_capacity(alloc, ANSWER_BYTES)?,
        })
    }

    /// Lays the line of a payload. Lines that leave it no room are written before.
    pub fn lay_line<S: Sink>(&mut self, out: &mut S, payload: &[u8]) -> Result<(), WriteFault>
        ensures laid { OnOk result (WritesSome (S.written out.old)
            (self.old.lines.items ++ line_of payload.now) self.new.lines.items (S.written out.new)) }
        ensures front { OnErr result (WritesFront (S.written out.old)
            (self.old.lines.items ++ line_of payload.now) (S.written out.new)) }
        ensures answers { self.new.answers ≡ self.old.answers }
        ensures faults_never_fall { S.faults out.old ≤ S.faults out.new }
        ensures out_only_where_faults_rose { IsErrOf result WriteFault.Out →
            Rose (S.faults out.old) (S.faults out.new) }
    {
        let mut left = payload;
        while !left.is_empty() {
            let count = left.len().min(LAID_BYTES);
            self.lay_part(out, &left[..count])?;
            left = &left[count..];
        }
        self.lines.push(b'\n')?;
        Ok(())
    }

    /// Lays a part of a line, which is not longer than the room for lines.
    fn lay_part<S: Sink>(&mut self, out: &mut S, part: &[u8]) -> Result<(), WriteFault>
        ensures laid { OnOk result (WritesSome (S.written out.old)
            (self.old.lines.items ++ map byte_of_line part.now) self.new.lines.items (S.written out.new)) }
        ensures front { OnErr result (WritesFront (S.written out.old)
            (self.old.lines.items ++ map byte_of_line part.now) (S.written out.new)) }
        ensures answers { self.new.answers ≡ self.old.answers }
        ensures faults_never_fall { S.faults out.old ≤ S.faults out.new }
        ensures out_only_where_faults_rose { IsErrOf result WriteFault.Out →
            Rose (S.faults out.old) (S.faults out.new) }
    {
        if self.lines.len() > LAID_BYTES.saturating_sub(part.len()) {
            self.write_lines(out)?;
        }
        append_text(&mut self.lines, part)?;
        Ok(())
    }

    /// Writes the lines that are laid.
    fn write_lines<S: Sink>(&mut self, out: &mut S) -> Result<(), Failed>
        ensures written { OnOk result (SinkTakes (S.written out.old) self.old.lines.items (S.written out.new)) }
        ensures none_laid { OnOk result (self.new.lines.items ≡ []) }
        ensures front { OnErr result (WritesFront (S.written out.old) self.old.lines.items (S.written out.new)) }
        ensures answers { self.new.answers ≡ self.old.answers }
        ensures faults_never_fall { S.faults out.old ≤ S.faults out.new }
        ensures failed_only_where_faults_rose { OnErr result (Rose (S.faults out.old) (S.faults out.new)) }
    {
        write_all(out, &self.lines)?;
        self.lines.clear();
        Ok(())
    }

    /// Lays the acknowledgement of this number, which goes out after the lines that are laid.
    pub fn lay_answer(&mut self, number: u32) -> Result<(), AllocError>
        ensures laid { OnOk result (self.new.answers.items ≡ self.old.answers.items ++ frame_bytes (Ack number)) }
        ensures kept { OnErr result (self.new.answers.items ≡ self.old.answers.items) }
        ensures lines { self.new.lines ≡ self.old.lines }
    {
        self.answers.extend_from_slice(&ack_frame(number))?;
        Ok(())
    }

    /// No further acknowledgement has room.
    pub fn is_full(&self) -> bool
        ensures { IsTrue result ↔ 6_138 < length self.now.answers.items }
    {
        self.answers.len() > ANSWER_BYTES - ANSWER_LENGTH
    }

    /// Writes the lines, and then sends the acknowledgements that waited for them.
    pub fn hand_on<L: Link, S: Sink>(&mut self, link: &mut L, out: &mut S) -> Result<(), Fault>
        ensures written { OnOk result (SinkTakes (S.written out.old) self.old.lines.items (S.written out.new)) }
        ensures sent { OnOk result (Sends (L.told link.old) self.old.answers.items (L.told link.new)) }
        ensures no_lines { OnOk result (self.new.lines.items ≡ []) }
        ensures no_answers { OnOk result (self.new.answers.items ≡ []) }
        ensures fails { OnErr result (FailsToHandOn self.old
            (telling (L.told link.old) (S.written out.old))
            (telling (L.told link.new) (S.written out.new))) }
        ensures link_faults_never_fall { L.faults link.old ≤ L.faults link.new }
        ensures idles_never_fall { L.idles link.old ≤ L.idles link.new }
        ensures failed_sends_never_fall { L.failed_sends link.old ≤ L.failed_sends link.new }
        ensures no_failed_send { OnOk result (L.failed_sends link.new ≡ L.failed_sends link.old) }
        ensures faults_never_fall { S.faults out.old ≤ S.faults out.new }
        ensures out_only_where_faults_rose { IsErrOf result Fault.Out →
            Rose (S.faults out.old) (S.faults out.new) }
        ensures send_only_where_failed_sends_rose { IsErrOf result Fault.Send →
            Rose (L.failed_sends link.old) (L.failed_sends link.new) }
    {
        if let Err(Failed) = self.write_lines(out) {
            return Err(Fault::Out);
        }
        if let Err(Failed) = send_all(link, &self.answers) {
            return Err(Fault::Send);
        }
        self.answers.clear();
        Ok(())
    }
}

/// Appends a part of a line; the line feeds in it become spaces.
fn append_text(lines: &mut Vec<u8>, part: &[u8]) -> Result<(), AllocError>
    ensures laid { OnOk result (lines.new.items ≡ lines.old.items ++ map byte_of_line part.now) }
    ensures kept { OnErr result (lines.new.items ≡ lines.old.items) }
{
    let before = lines.len();
    lines.extend_from_slice(part)?;
    blank_line_feeds(&mut lines[before..]);
    Ok(())
}

/// The byte of a line in the place of a payload's byte.
fn byte_of_line(byte: u8) -> u8
    ensures { result ≡ byte_of_line byte }
{
    if byte == b'\n' { b' ' } else { byte }
}

/// Each line feed becomes a space.
fn blank_line_feeds(bytes: &mut [u8])
    ensures { bytes.new ≡ map byte_of_line bytes.old }
{
    for byte in bytes.iter_mut() {
        *byte = byte_of_line(*byte);
    }
}

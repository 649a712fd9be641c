ghost use Rattle.std.specs.Prelude.{◌≡◌, ◌+◌, ◌-◌, ◌^◌, ◌<◌, ◌≤◌, ◌++◌, [], ◌∷◌, ℕ, List, length, IfOk, IfErr, OnOk, OnErr, Option};
ghost use Rattle.line_cutter.specs.Cutting.{fed_to};
ghost use Rattle.wire_base.specs.Ranges.{IsPlace};
ghost use Rattle.line_cutter.specs.declared.line.Line.{Line as LineOf};
ghost use Rattle.container_lines.specs.Ending.{IsCausedByOutput};
ghost use Rattle.container_lines.specs.Joined.{log_lines};
ghost use Rattle.container_lines.specs.Bad.{noted};
ghost use Rattle.container_lines.specs.Output.{HasFront, StandsOrWaits};

use crate::fault::Fault;
use crate::joiner::Joiner;
use crate::limits::MAX_CONTENT;
use crate::status::BadLines;
use crate::told::Told;
use crate::words::Asked;
use crate::write::write_all;
use event_tree::{LineRule, Terminator};
use line_cutter::{Cutter, Line, lines_stay};
use outside::Sink;
use std::alloc::Global;
use wire_base::{MAX_PLACE, NoMemory};

/// Once this many bytes wait they are written.
const OUTPUT: usize = 65_536;

/// A log of which some bytes were read.
#[derive(Drop)]
pub struct Conversion {
    pub cutter: Cutter,
    pub joiner: Joiner,
    /// The lines of no format so far.
    pub bad: Option<BadLines>,
    /// What waits to be written.
    pub output: Vec<u8>,
    /// How many bytes were read.
    pub read: u64,
    ghost place: { read ≡ fed_to cutter },
    ghost in_range: { IsPlace read },
}

impl Conversion {
    ghost use Rattle.container_lines.specs.Conversion.{Aim, Converts, ConvertsAll, ConvertsLines, text_of, IsHanded};

    pub fn new(alloc: Global, asked: Asked) -> Result<Conversion, NoMemory>
        ensures made { IfOk result (λ log. (before : Option (List ℕ)) →
            ConvertsAll (record { asked = asked; before = before }) [] before log) }
    {
        let rule = LineRule {
            terminator: Terminator::LineFeed,
            message_max_bytes: MAX_CONTENT,
        };
        Ok(Conversion {
            cutter: Cutter::new(alloc, rule, 0),
            joiner: Joiner::new(alloc, asked.format, asked.keep)?,
            bad: None,
            output: Vec::new(alloc),
            read: 0,
        })
    }

    /// Takes the bytes that come after all that was read before.
    pub fn piece<S: Sink>(&mut self, piece: &[u8], out: &mut S) -> Result<(), Fault>
        ensures converted { OnOk result ((aim : Aim) (fed : List ℕ) →
            ConvertsAll aim fed (S.written out.old) self.old →
            ConvertsAll aim (fed ++ piece.now) (S.written out.new) self.new) }
        ensures front { OnErr result ((aim : Aim) (fed : List ℕ) →
            ConvertsAll aim fed (S.written out.old) self.old →
            HasFront aim.before (text_of aim (log_lines (fed ++ piece.now))) (S.written out.new)) }
        ensures faults_never_fall { S.faults out.old ≤ S.faults out.new }
        ensures cause { IfErr result (IsCausedByOutput (S.faults out.old) (S.faults out.new)) }
    {
        // The lines so far stay the first ones.
        lines_stay();
        if MAX_PLACE - self.read < piece.len() as u64 {
            return Err(Fault::NoMemory);
        }
        self.cutter.feed(piece)?;
        self.read += piece.len() as u64;
        self.take_lines(out)
    }

    /// Gives the joiner each line that is complete by now.
    fn take_lines<S: Sink>(&mut self, out: &mut S) -> Result<(), Fault>
        ensures converted { OnOk result ((aim : Aim) (fed : List ℕ) (lines : List LineOf) →
            ConvertsLines aim fed lines (S.written out.old) self.old →
            ConvertsAll aim fed (S.written out.new) self.new) }
        ensures front { OnErr result ((aim : Aim) (fed : List ℕ) (lines : List LineOf) →
            ConvertsLines aim fed lines (S.written out.old) self.old →
            HasFront aim.before (text_of aim (log_lines fed)) (S.written out.new)) }
        ensures faults_never_fall { S.faults out.old ≤ S.faults out.new }
        ensures cause { IfErr result (IsCausedByOutput (S.faults out.old) (S.faults out.new)) }
    {
        // The lines so far stay the first ones.
        lines_stay();
        while let Some(line) = self.cutter.next_line()? {
            self.take_line(&line, out)?;
        }
        Ok(())
    }

    /// Gives the joiner the line that was handed out last.
    fn take_line<S: Sink>(&mut self, line: &Line, out: &mut S) -> Result<(), Fault>
        ensures converted { OnOk result ((aim : Aim) (fed : List ℕ) (lines : List LineOf) →
            IsHanded aim fed lines line.now (S.written out.old) self.old →
            ConvertsLines aim fed (lines ++ line.now ∷ []) (S.written out.new) self.new) }
        ensures front { OnErr result ((aim : Aim) (fed : List ℕ) (lines : List LineOf) →
            IsHanded aim fed lines line.now (S.written out.old) self.old →
            HasFront aim.before (text_of aim (lines ++ line.now ∷ [])) (S.written out.new)) }
        ensures cutter { self.new.cutter ≡ self.old.cutter }
        ensures faults_never_fall { S.faults out.old ≤ S.faults out.new }
        ensures cause { IfErr result (IsCausedByOutput (S.faults out.old) (S.faults out.new)) }
    {
        match self.joiner.line(line)? {
            Told::Whole(joined) => self.put(joined.message.bytes(), out),
            Told::Waits | Told::Other => Ok(()),
            Told::Malformed => {
                self.bad = Some(noted(self.bad, line.span.start())?);
                Ok(())
            }
        }
    }

    /// Puts a message and a line feed after what waits to be written.
    fn put<S: Sink>(&mut self, message: &[u8], out: &mut S) -> Result<(), Fault>
        ensures put { OnOk result ((before : Option (List ℕ)) (text : List ℕ) →
            StandsOrWaits before text (S.written out.old) self.old.output.items →
            StandsOrWaits before (text ++ (message.now ++ 10 ∷ [])) (S.written out.new)
            self.new.output.items) }
        ensures front { OnErr result ((before : Option (List ℕ)) (text : List ℕ) →
            StandsOrWaits before text (S.written out.old) self.old.output.items →
            HasFront before (text ++ (message.now ++ 10 ∷ [])) (S.written out.new)) }
        ensures others { self.new ≡ (record self.old { output = self.new.output }) }
        ensures faults_never_fall { S.faults out.old ≤ S.faults out.new }
        ensures cause { IfErr result (IsCausedByOutput (S.faults out.old) (S.faults out.new)) }
    {
        self.output.extend_from_slice(message)?;
        self.output.push(b'\n')?;
        if self.output.len() < OUTPUT {
            return Ok(());
        }
        self.flush(out)
    }

    /// Writes what waits.
    pub fn flush<S: Sink>(&mut self, out: &mut S) -> Result<(), Fault>
        ensures written { OnOk result ((before : Option (List ℕ)) (text : List ℕ) →
            StandsOrWaits before text (S.written out.old) self.old.output.items →
            StandsOrWaits before text (S.written out.new) self.new.output.items) }
        ensures front { OnErr result ((before : Option (List ℕ)) (text : List ℕ) →
            StandsOrWaits before text (S.written out.old) self.old.output.items →
            HasFront before text (S.written out.new)) }
        ensures none_waits { OnOk result (self.new.output.items ≡ []) }
        ensures others { self.new ≡ (record self.old { output = self.new.output }) }
        ensures faults_never_fall { S.faults out.old ≤ S.faults out.new }
        ensures cause { IfErr result (IsCausedByOutput (S.faults out.old) (S.faults out.new)) }
    {
        match write_all(out, &self.output) {
            Ok(()) => {
                self.output.clear();
                Ok(())
            }
            Err(_) => Err(Fault::Out),
        }
    }
}

/// The lines of no format, with one more that begins at this place. No log has so many lines that their number does not
/// fit; that it does not is answered as out of memory.
fn noted(bad: Option<BadLines>, start: u64) -> Result<BadLines, NoMemory>
    ensures { IfOk result (λ found. found ≡ noted bad start) }
{
    let Some(bad) = bad else {
        return Ok(BadLines {
            first: start,
            count: 1,
        });
    };
    match bad.count.checked_add(1) {
        Some(count) => Ok(BadLines {
            first: bad.first,
            count,
        }),
        None => Err(NoMemory),
    }
}

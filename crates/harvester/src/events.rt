ghost use Rattle.std.specs.Prelude.{◌≡◌, ◌⊎◌, ℕ, ◌+◌, ◌<◌, List, [], ◌∷◌, ◌++◌, true, false, length, IfOk, IfSome, IfNone, IsNone, IsSome, IsTrue, OnOk, OnErr, None, ◌↔◌, option_map};
ghost use Rattle.std.specs.Option.{ForSome, option_to_list};
ghost use Rattle.event_tree.specs.declared.line_rule.LineRule.{LineRule};
ghost use Rattle.line_cutter.specs.declared.line.Line.{Line};
ghost use Rattle.line_cutter.specs.Cutting.{HasCut, fed_to};
ghost use Rattle.line_cutter.specs.Lines.{IsMessageLimit, complete_lines};
ghost use Rattle.multiline_core.specs.Gathering.{IsDue};
ghost use Rattle.multiline_core.specs.Rule.{IsGroupRule};
ghost use Rattle.wire_base.specs.Ranges.{IsMoment, IsPlace};
ghost use Rattle.told_events.specs.Rules.{Rules};
ghost use Rattle.harvester.specs.Gathered.{Found, Gathered, IsGathered, IsGatheredBut, Moved, SomeGathered, all_flushed, all_told, flushed_at, left_in, lines_of, none_gathered};

use event_tree::{InputRule, LineRule};
use line_cutter::{Cutter, Line, lines_adjoin};
use multiline_core::{Group, Grouper};
use std::alloc::Global;
use wire_base::{Moment, NoMemory};

/// Cuts what was read of one life into lines, and gathers these into events. An event that is closed waits here until it
/// is reported.
#[derive(Drop)]
pub(crate) struct Events {
    pub(crate) lines: LineRule,
    pub(crate) cutter: Cutter,
    pub(crate) grouper: Grouper,
    /// A line that is cut and, out of memory, not gathered yet.
    pub(crate) line: Option<Line>,
    pub(crate) closed: Option<Group>,
    /// When the last line was read that was gathered.
    pub(crate) last_line: Moment,
}

impl Events {
    /// `start` is the place of the first byte that will be fed.
    pub(crate) fn new(
        alloc: Global,
        rule: &InputRule,
        start: u64,
        now: Moment,
    ) -> Result<Events, NoMemory>
        requires limit { IsMessageLimit rule.now.lines.message_max_bytes }
        requires groups { IsGroupRule rule.now.multiline }
        requires place { IsPlace start }
        ensures gathered { IfOk result (λ events. (rules : Rules) → rules.lines ≡ rule.now.lines →
            rules.events ≡ rule.now.multiline → IsGathered rules start [] [] none_gathered events) }
        ensures last_line { IfOk result (λ events. events.last_line ≡ now) }
        ensures place { IfOk result (λ events. fed_to events.cutter ≡ start) }
    {
        Ok(Events {
            lines: rule.lines,
            cutter: Cutter::new(alloc, rule.lines, start),
            grouper: Grouper::new(alloc, &rule.multiline)?,
            line: None,
            closed: None,
            last_line: now,
        })
    }

    /// Begins a new life at its first byte; what waits is forgotten. Takes no memory.
    pub(crate) fn begin_life(&mut self, alloc: Global)
        requires limit { IsMessageLimit self.old.lines.message_max_bytes }
        ensures gathered { (rules : Rules) (start : ℕ) (fed licences : List ℕ) (of : Gathered) →
            IsGathered rules start fed licences of self.old →
            IsGathered rules 0 [] [] none_gathered self.new }
        ensures last_line { self.new.last_line ≡ self.old.last_line }
    {
        self.cutter = Cutter::new(alloc, self.lines, 0);
        self.grouper.flush();
        self.line = None;
        self.closed = None;
    }

    /// Takes the bytes that follow all that was fed before.
    pub(crate) fn feed(&mut self, piece: &[u8]) -> Result<(), NoMemory>
        requires { IsPlace (fed_to self.old.cutter + length piece.now) }
        ensures fed { OnOk result
            ((rules : Rules) (start : ℕ) (fed licences : List ℕ) (of : Gathered) →
            IsGathered rules start fed licences of self.old →
            IsGathered rules start (fed ++ piece.now) licences of self.new) }
        ensures place { OnOk result
            (fed_to self.new.cutter ≡ fed_to self.old.cutter + length piece.now) }
        ensures last_line { self.new.last_line ≡ self.old.last_line }
        ensures same_on_refusal { OnErr result (self.new ≡ self.old) }
    {
        self.cutter.feed(piece)
    }

    /// Whether an event is closed by what was fed; gathers lines, which were read at this moment, until one is.
    pub(crate) fn find(&mut self, alloc: Global, now: Moment) -> Result<bool, NoMemory>
        requires gathered { SomeGathered self.old }
        requires moment { IsMoment now }
        ensures found { (rules : Rules) (start : ℕ) (fed licences : List ℕ) (of : Gathered) →
            IsGathered rules start fed licences of self.old →
            Found rules start fed licences of self.old.last_line now result self.new }
        ensures closed { IfOk result (λ found. IsTrue found ↔ IsSome self.new.closed) }
        ensures none_left { IfOk result (λ found. found ≡ false → self.new.line ≡ None) }
        ensures place { fed_to self.new.cutter ≡ fed_to self.old.cutter }
    {
        if self.closed.is_some() {
            return Ok(true);
        }
        while let Some(line) = self.next_line()? {
            if self.gather(alloc, line, now)? {
                return Ok(true);
            }
        }
        Ok(false)
    }

    /// The event that waits is closed as it is. Takes no memory.
    pub(crate) fn flush(&mut self)
        requires none_closed { self.old.closed ≡ None }
        ensures flushed { (rules : Rules) (start : ℕ) (fed licences : List ℕ) (of : Gathered) →
            IsGathered rules start fed licences of self.old →
            IsGathered rules start fed (licences ++ flushed_at self.new.closed)
            (all_flushed of) self.new }
        ensures closed_where_one_waited { IsSome self.new.closed ↔
            IsSome self.old.grouper.gathered }
        ensures others { self.new ≡ (record self.old {
          grouper = self.new.grouper;
          closed = self.new.closed;
        }) }
    {
        self.closed = self.grouper.flush();
    }

    /// The closed event was reported.
    pub(crate) fn pass(&mut self)
        ensures passed { (rules : Rules) (start : ℕ) (fed licences : List ℕ) (of : Gathered) →
            IsGathered rules start fed licences of self.old →
            IsGathered rules start fed licences (all_told of) self.new }
        ensures others { self.new ≡ (record self.old { closed = None }) }
    {
        self.closed = None;
    }

    /// Whether an event waits for lines.
    pub(crate) fn pending(&self) -> bool
        ensures { IsTrue result ↔ IsSome self.now.grouper.gathered }
    {
        self.grouper.pending()
    }

    /// Whether an event waits, and its timeout has passed since its last line was read.
    pub(crate) fn due(&self, now: Moment) -> bool
        requires { IsMoment now }
        ensures { IsTrue result ↔ IsDue self.now.grouper now }
    {
        self.grouper.due(now)
    }

    /// Whether the event that waits may be closed as it is: the file's end was found, or the event is due.
    pub(crate) fn may_close(&self, ended: bool, now: Moment) -> bool
        requires { IsMoment now }
        ensures why { result ≡ true → (ended ≡ true) ⊎ IsDue self.now.grouper now }
        ensures why_not { result ≡ false → (ended ≡ false) × (¬ (IsDue self.now.grouper now)) }
    {
        ended || self.due(now)
    }

    /// The next line that was not gathered yet.
    fn next_line(&mut self) -> Result<Option<Line>, NoMemory>
        requires { SomeGathered self.old }
        ensures found { IfOk result (λ found.
            (rules : Rules) (start : ℕ) (fed licences : List ℕ) (of : Gathered) →
            IsGathered rules start fed licences of self.old →
            IsGatheredBut rules start fed licences of (option_to_list found) self.new) }
        ensures none_where_all_are_gathered { IfOk result (λ found.
            (rules : Rules) (start : ℕ) (fed licences : List ℕ) (of : Gathered) →
            IsGathered rules start fed licences of self.old →
            IfNone found (complete_lines rules.lines start fed ≡ lines_of of)) }
        ensures fewer { IfOk result (λ found. IsSome found → left_in self.new < left_in self.old) }
        ensures others { OnOk result
            (self.new ≡ (record self.old { line = None; cutter = self.new.cutter })) }
        ensures place { fed_to self.new.cutter ≡ fed_to self.old.cutter }
        ensures same_on_refusal { OnErr result (self.new ≡ self.old) }
    {
        lines_adjoin();
        match self.line.take() {
            Some(line) => Ok(Some(line)),
            None => self.cutter.next_line(),
        }
    }

    /// Gathers one more line, and keeps it when out of memory; whether it closes an event.
    fn gather(&mut self, alloc: Global, line: Line, now: Moment) -> Result<bool, NoMemory>
        requires no_line { self.old.line ≡ None }
        requires none_closed { self.old.closed ≡ None }
        requires moment { IsMoment now }
        requires adjoining { ForSome self.old.grouper.gathered
            (λ gathered. gathered.end ≡ line.span.start) }
        ensures gathered { (rules : Rules) (start : ℕ) (fed licences : List ℕ) (of : Gathered) →
            IsGatheredBut rules start fed licences of (line ∷ []) self.old →
            Moved rules start fed licences of self.old.last_line now self.new }
        ensures cutter { self.new.cutter ≡ self.old.cutter }
        ensures none_left { OnOk result (self.new.line ≡ None) }
        ensures closed { IfOk result (λ found. IsTrue found ↔ IsSome self.new.closed) }
    {
        match self.grouper.line(alloc, line, now) {
            Ok(group) => {
                self.last_line = now;
                self.closed = group;
                Ok(self.closed.is_some())
            }
            Err(line) => {
                self.line = Some(line);
                Err(NoMemory)
            }
        }
    }
}

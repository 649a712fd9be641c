ghost use Rattle.std.specs.Prelude.{◌≡◌, ◌↔◌, List, [], ◌∷◌, ◌++◌, None, Some, option_map, IsTrue, IsSome, IfOk, IfErr, IfSome, IfNone, OnOk, OnErr};
ghost use Rattle.std.specs.Option.{ForSome};
ghost use Rattle.event_tree.specs.declared.group_rule.GroupRule.{GroupRule};
ghost use Rattle.wire_base.specs.declared.numbers.Moment.{Moment};
ghost use Rattle.wire_base.specs.Ranges.{IsMoment};
ghost use Rattle.line_cutter.specs.declared.line.Line.{Line};
ghost use Rattle.multiline_core.specs.Gathering.{Gathers, Closes, IsOpen, IsFlushable, IsDue};
ghost use Rattle.multiline_core.specs.Message.{group_of};
ghost use Rattle.multiline_core.specs.Rule.{IsGroupRule};
ghost use Rattle.multiline_core.specs.Step.{step_of, gathered_by, waiting_of, group_from};

use crate::group::Group;
use crate::kind::{Kind, Limits};
use crate::pending::Pending;
use crate::step::Step;
use event_tree::GroupRule;
use line_cutter::Line;
use std::alloc::Global;
use std::marker::Model;
use wire_base::{Moment, NoMemory};

/// Gathers lines into events by one rule. It keeps the message of an event that has not ended, not its lines.
#[derive(Drop)]
pub struct Grouper {
    kind: Kind,
    limits: Limits,
    pending: Option<Pending>,
}

impl Model for Grouper {
    ghost use Rattle.std.specs.Prelude.{◌≤◌, length};
    ghost use Rattle.std.specs.Option.{ForSome};
    ghost use Rattle.multiline_core.specs.Gathering.{Grouping};

    ghost Value = { Grouping };

    ghost use Rattle.multiline_core.specs.Kind.{rule_of, AreLimitsOf};

    ghost view = { λ g. record { rule = rule_of g.kind g.limits; gathered = g.pending } };

    ghost invariant = { λ g. AreLimitsOf (rule_of g.kind g.limits) g.limits
        × ForSome g.pending (λ p. length p.message ≤ g.limits.message_max_bytes) };
}

impl Grouper {
    ghost use Rattle.multiline_core.specs.Gathering.{Grouping};

    /// Compiles the rule's patterns. One that is too large when it is compiled is reported as out of memory.
    pub fn new(alloc: Global, rule: &GroupRule) -> Result<Grouper, NoMemory>
        requires { IsGroupRule rule.now }
        ensures gathers { IfOk result (λ grouper. (at : Moment) → Gathers rule.now [] at grouper) }
        ensures none_waits { IfOk result (λ grouper. grouper.gathered ≡ None) }
    {
        Ok(Grouper {
            kind: Kind::of(alloc, rule)?,
            limits: Limits::of(rule),
            pending: None,
        })
    }

    /// Takes one more line, which was read at this moment, and hands out the event that it closes. A line begins where
    /// the one before it ended while an event waits.
    pub fn line(&mut self, alloc: Global, line: Line, now: Moment) -> Result<Option<Group>, Line>
        requires moment { IsMoment now }
        requires adjoining { ForSome self.old.gathered (λ gathered. gathered.end ≡ line.span.start) }
        ensures closes_an_event { IfOk result (λ found. (rule : GroupRule) (row : List Line) (at : Moment) →
            Gathers rule row at self.old → IfSome found (Closes rule row line now self.new)) }
        ensures gathers_where_none_is_closed { IfOk result (λ found. (rule : GroupRule) (row : List Line) (at : Moment) →
            Gathers rule row at self.old → IfNone found (Gathers rule (row ++ line ∷ []) now self.new)) }
        ensures none_where_no_event_has_ended { IfOk result (λ found. (rule : GroupRule) (row : List Line) (at : Moment) →
            Gathers rule row at self.old → IfNone found (IsOpen rule (row ++ line ∷ []))) }
        ensures waits_to_its_end { OnOk result (ForSome self.new.gathered (λ gathered. gathered.end ≡ line.span.end)) }
        ensures given_back_on_refusal { IfErr result (λ back. back ≡ line) }
        ensures unchanged_on_refusal { OnErr result (self.new ≡ self.old) }
    {
        let Ok(step) = self.step(alloc, &line) else {
            return Err(line);
        };
        match step {
            Step::Join => match self.join(line, now) {
                Ok(()) => Ok(None),
                Err(line) => Err(line),
            },
            Step::Last => match self.join(line, now) {
                Ok(()) => Ok(self.take()),
                Err(line) => Err(line),
            },
            Step::Next => {
                let group = self.take();
                self.begin(line, now);
                Ok(group)
            }
        }
    }

    /// Hands out the event that waits, as it is; the next line begins a new one. Takes no memory.
    pub fn flush(&mut self) -> Option<Group>
        ensures flushed { (rule : GroupRule) (row : List Line) (at : Moment) → Gathers rule row at self.old →
            IfSome result (λ group. (group ≡ group_of rule row) × IsFlushable rule row) }
        ensures begins_anew { (rule : GroupRule) (row : List Line) (at : Moment) → Gathers rule row at self.old →
            Gathers rule [] at self.new }
        ensures none_where_none_waits { IsSome result ↔ IsSome self.old.gathered }
        ensures none_waits_then { self.new.gathered ≡ None }
    {
        self.take()
    }

    /// Whether an event waits for lines.
    pub fn pending(&self) -> bool
        ensures { IsTrue result ↔ IsSome self.now.gathered }
    {
        self.pending.is_some()
    }

    /// Whether an event waits, and its timeout has passed since its last line was read.
    pub fn due(&self, now: Moment) -> bool
        requires { IsMoment now }
        ensures { IsTrue result ↔ IsDue self.now now }
    {
        match &self.pending {
            None => false,
            Some(pending) => self.limits.timeout <= now.0.saturating_sub(pending.read_at().0),
        }
    }

    fn step(&mut self, alloc: Global, line: &Line) -> Result<Step, NoMemory>
        ensures step { IfOk result (λ step. step ≡ step_of self.old.rule (waiting_of self.old.gathered) line.now) }
        ensures same { self.new ≡ self.old }
    {
        let waiting = match &self.pending {
            None => 0,
            Some(pending) => pending.lines(),
        };
        self.kind.step(alloc, waiting, line)
    }

    /// The line is one of the event that waits, or its first.
    fn join(&mut self, line: Line, now: Moment) -> Result<(), Line>
        requires { ForSome self.old.gathered (λ gathered. gathered.end ≡ line.span.start) }
        ensures joined { OnOk result (self.new ≡ (record self.old {
          gathered = Some (gathered_by self.old.rule self.old.gathered line now);
        })) }
        ensures given_back_on_refusal { IfErr result (λ back. back ≡ line) }
        ensures unchanged_on_refusal { OnErr result (self.new ≡ self.old) }
    {
        match self.pending.take() {
            None => {
                self.begin(line, now);
                Ok(())
            }
            Some(mut pending) => {
                let added = pending.add(&line, now, &self.limits);
                self.pending = Some(pending);
                match added {
                    Ok(()) => Ok(()),
                    Err(_) => Err(line),
                }
            }
        }
    }

    /// The line is the first of an event.
    fn begin(&mut self, line: Line, now: Moment)
        ensures { self.new ≡ (record self.old { gathered = Some (gathered_by self.old.rule None line now) }) }
    {
        let most = self.limits.message_max_bytes as usize;
        self.pending = Some(Pending::first(line, now, most));
    }

    /// The event that waits; none waits then.
    fn take(&mut self) -> Option<Group>
        ensures group { result ≡ option_map group_from self.old.gathered }
        ensures empty { self.new ≡ (record self.old { gathered = None }) }
    {
        match self.pending.take() {
            None => None,
            Some(pending) => Some(pending.into_group()),
        }
    }
}

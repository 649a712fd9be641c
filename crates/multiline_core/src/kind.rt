ghost use Rattle.std.specs.Prelude.{◌≡◌, IfOk, IfSome};
ghost use Rattle.patterns.specs.Pattern.{IsLinePattern};
ghost use Rattle.multiline_core.specs.Continuing.{continues, flushes};
ghost use Rattle.multiline_core.specs.Step.{count_step, unflushed_step};

use crate::group_pattern::GroupPattern;
use crate::step::Step;
use event_tree::{GroupRule, Side};
use line_cutter::Line;
use std::alloc::Global;
use wire_base::{NoMemory, Text};

/// How lines become events, with compiled patterns.
#[derive(Drop)]
pub enum Kind {
    Single,
    Count(u64),
    Pattern {
        pattern: GroupPattern,
        negate: bool,
        side: Side,
        flush: Option<GroupPattern>,
    },
}

/// What a rule asks beside.
#[derive(Clone, Copy)]
pub struct Limits {
    pub max_lines: u64,
    pub timeout: u64,
    pub skip_newline: bool,
    pub message_max_bytes: u64,
}

impl Kind {
    ghost use Rattle.multiline_core.specs.Kind.{kind_of, kind_step};
    ghost use Rattle.multiline_core.specs.Rule.{IsGroupRule};

    /// The kind of the rule, with its patterns compiled.
    pub fn of(alloc: Global, rule: &GroupRule) -> Result<Kind, NoMemory>
        requires { IsGroupRule rule.now }
        ensures { IfOk result (λ kind. kind ≡ kind_of rule.now) }
    {
        match rule {
            GroupRule::Single { .. } => Ok(Kind::Single),
            GroupRule::Count { count_lines, .. } => Ok(Kind::Count(*count_lines)),
            GroupRule::Pattern {
                pattern,
                negate,
                side,
                flush_pattern,
                ..
            } => Ok(Kind::Pattern {
                pattern: GroupPattern::new(alloc, pattern)?,
                negate: *negate,
                side: *side,
                flush: compiled(alloc, flush_pattern)?,
            }),
        }
    }

    /// What the line does to an event that waits with this many lines, 0 if none waits.
    pub fn step(&mut self, alloc: Global, waiting: u64, line: &Line) -> Result<Step, NoMemory>
        ensures step { IfOk result (λ step. step ≡ kind_step self.old waiting line.now) }
        ensures same { self.new ≡ self.old }
    {
        match self {
            Kind::Single => Ok(Step::Last),
            Kind::Count(count_lines) => Ok(count_step(waiting, *count_lines)),
            Kind::Pattern {
                pattern,
                negate,
                side,
                flush,
            } => {
                if waiting > 0 && flushes(alloc, flush, line)? {
                    return Ok(Step::Last);
                }
                let goes_on = continues(alloc, pattern, *negate, line)?;
                Ok(pattern_step(waiting, goes_on, *side))
            }
        }
    }
}

impl Limits {
    ghost use Rattle.multiline_core.specs.Kind.{limits_of};

    /// The limits of the rule.
    pub fn of(rule: &GroupRule) -> Limits
        ensures { result ≡ limits_of rule.now }
    {
        match rule {
            GroupRule::Single { message_max_bytes } => Limits {
                max_lines: 1,
                timeout: 0,
                skip_newline: false,
                message_max_bytes: *message_max_bytes,
            },
            GroupRule::Count {
                max_lines,
                timeout,
                skip_newline,
                message_max_bytes,
                ..
            }
            | GroupRule::Pattern {
                max_lines,
                timeout,
                skip_newline,
                message_max_bytes,
                ..
            } => Limits {
                max_lines: *max_lines,
                timeout: *timeout,
                skip_newline: *skip_newline,
                message_max_bytes: *message_max_bytes,
            },
        }
    }
}

fn compiled(alloc: Global, pattern: &Option<Text>) -> Result<Option<GroupPattern>, NoMemory>
    requires { IfSome pattern.now IsLinePattern }
    ensures { IfOk result (λ compiled. compiled ≡ pattern.now) }
{
    match pattern {
        None => Ok(None),
        Some(pattern) => Ok(Some(GroupPattern::new(alloc, pattern)?)),
    }
}

fn count_step(waiting: u64, count_lines: u64) -> Step
    ensures { result ≡ count_step waiting count_lines }
{
    if count_lines.saturating_sub(waiting) == 1 {
        Step::Last
    } else {
        Step::Join
    }
}

/// What a line that does not flush does.
fn pattern_step(waiting: u64, goes_on: bool, side: Side) -> Step
    ensures { result ≡ unflushed_step waiting goes_on side }
{
    match side {
        Side::After if waiting == 0 || goes_on => Step::Join,
        Side::After => Step::Next,
        Side::Before if goes_on => Step::Join,
        Side::Before => Step::Last,
    }
}

fn continues(
    alloc: Global,
    pattern: &mut GroupPattern,
    negate: bool,
    line: &Line,
) -> Result<bool, NoMemory>
    ensures goes_on { IfOk result (λ goes_on. goes_on ≡ continues pattern.old negate line.now) }
    ensures same { pattern.new ≡ pattern.old }
{
    let found = pattern.matches(alloc, line.head.bytes())?;
    Ok(found != negate)
}

fn flushes(alloc: Global, flush: &mut Option<GroupPattern>, line: &Line) -> Result<bool, NoMemory>
    ensures last { IfOk result (λ last. last ≡ flushes flush.old line.now) }
    ensures same { flush.new ≡ flush.old }
{
    match flush {
        None => Ok(false),
        Some(pattern) => pattern.matches(alloc, line.head.bytes()),
    }
}

ghost use Rattle.std.specs.Prelude.{◌≡◌, All, IfOk};
ghost use Rattle.patterns.specs.Pattern.{IsLinePattern};
ghost use Rattle.line_filter.specs.Dropped.{dropped_by};
ghost use Rattle.line_filter.specs.Verdict.{is_matched, is_not_included, verdict_of};

use crate::Verdict;
use patterns::LinePattern;
use std::alloc::Global;
use std::marker::Model;
use wire_base::{NoMemory, RuleNo, Text};

/// The rule that drops a message without a byte.
const EMPTY_RULE: u32 = 0;

/// The rule that drops a message which no pattern to include matches.
const NOT_INCLUDED_RULE: u32 = 1;

/// The rule that drops a message which a pattern to exclude matches.
const EXCLUDED_RULE: u32 = 2;

/// The compiled patterns of an input (Filebeat reference, filestream input, `include_lines` and `exclude_lines`), seen
/// as their texts.
#[derive(Drop)]
pub struct Filter {
    include: Vec<LinePattern>,
    exclude: Vec<LinePattern>,
}

impl Model for Filter {
    ghost use Rattle.line_filter.specs.LinePatterns.{LinePatterns};

    ghost Value = { LinePatterns };

    ghost view = { λ f. record { include = f.include.items; exclude = f.exclude.items } };
}

impl Filter {
    /// Compiles each pattern. One that is too large when it is compiled is reported as out of memory.
    pub fn new(alloc: Global, include: &[Text], exclude: &[Text]) -> Result<Filter, NoMemory>
        requires include_patterns { All IsLinePattern include.now }
        requires exclude_patterns { All IsLinePattern exclude.now }
        ensures include { IfOk result (λ filter. filter.include ≡ include.now) }
        ensures exclude { IfOk result (λ filter. filter.exclude ≡ exclude.now) }
    {
        Ok(Filter {
            include: compiled(alloc, include)?,
            exclude: compiled(alloc, exclude)?,
        })
    }

    /// The first of the rules 0, 1 and 2 that drops the message, or that it is kept.
    pub fn verdict(&mut self, alloc: Global, message: &[u8]) -> Result<Verdict, NoMemory>
        ensures verdict { IfOk result (λ verdict.
            dropped_by verdict ≡ verdict_of self.old.include self.old.exclude message.now) }
        ensures same { self.new ≡ self.old }
    {
        if message.is_empty() {
            return Ok(Verdict::Drop(RuleNo(EMPTY_RULE)));
        }
        if is_left_out(alloc, &mut self.include, message)? {
            return Ok(Verdict::Drop(RuleNo(NOT_INCLUDED_RULE)));
        }
        if is_matched(alloc, &mut self.exclude, message)? {
            return Ok(Verdict::Drop(RuleNo(EXCLUDED_RULE)));
        }
        Ok(Verdict::Keep)
    }
}

fn compiled(alloc: Global, patterns: &[Text]) -> Result<Vec<LinePattern>, NoMemory>
    requires { All IsLinePattern patterns.now }
    ensures { IfOk result (λ compiled. compiled.items ≡ patterns.now) }
{
    let mut compiled = Vec::with_capacity(alloc, patterns.len())?;
    for pattern in patterns {
        compiled.push(LinePattern::new(alloc, pattern)?)?;
    }
    Ok(compiled)
}

/// Whether there are patterns to include, and none of them matches.
fn is_left_out(alloc: Global, include: &mut [LinePattern], message: &[u8]) -> Result<bool, NoMemory>
    ensures left_out { IfOk result (λ left_out.
        left_out ≡ is_not_included include.old message.now) }
    ensures same { include.new ≡ include.old }
{
    if include.is_empty() {
        return Ok(false);
    }
    let matched = is_matched(alloc, include, message)?;
    Ok(!matched)
}

/// Whether some pattern matches.
fn is_matched(alloc: Global, patterns: &mut [LinePattern], message: &[u8]) -> Result<bool, NoMemory>
    ensures matched { IfOk result (λ matched. matched ≡ is_matched patterns.old message.now) }
    ensures same { patterns.new ≡ patterns.old }
{
    for pattern in patterns.iter_mut() {
        if pattern.matches(alloc, message)? {
            return Ok(true);
        }
    }
    Ok(false)
}

ghost use Rattle.std.specs.Prelude.{◌≡◌, ◌≤◌, All, List, length, IfOk};
ghost use Rattle.event_tree.specs.declared.processor_rule.ProcessorRule.{ProcessorRule};
ghost use Rattle.patterns.specs.Pattern.{IsLinePattern};
ghost use Rattle.rules_in_range.specs.Processors.{IsProcessorInRange};
ghost use Rattle.wire_base.specs.Ranges.{IsMoment, IsPlace};
ghost use Rattle.told_events.specs.Fate.{Fate, fate_of, fate_of_outcome, fate_of_payload};
ghost use Rattle.told_events.specs.Rules.{Rules, rules_of};
ghost use Rattle.event_json.specs.Envelope.{envelope_of};
ghost use Rattle.processors_core.specs.Outcome.{outcome_of};
ghost use Rattle.harvester.specs.Deciding.{ChainRuns, Decides, shown};

use event_json::{Stamp, envelope, event_payload_at, payload};
use event_tree::{InputRule, ProcessorRule};
use line_filter::{Filter, Verdict};
use multiline_core::Group;
use processors_core::{Chain, Fate};
use std::alloc::Global;
use wire_base::{Blob, Moment, NoMemory, RuleNo, Text};

/// The rule that drops an event whose payload is too long.
const TOO_LONG_RULE: u32 = 3;

/// What becomes of one event.
#[derive(Debug, Drop)]
pub(crate) enum EventFate {
    Shipped(Blob),
    Dropped(RuleNo),
}

/// The filters of an input and the processors, compiled once.
#[derive(Drop)]
pub(crate) struct FateRules {
    filter: Filter,
    /// None without processors: then no tree is made of an event.
    chain: Option<Chain>,
    /// The moment of the event that was decided last.
    stamp: Stamp,
}

impl FateRules {
    /// A pattern that is too large when it is compiled is reported as out of memory.
    pub(crate) fn new(
        alloc: Global,
        rule: &InputRule,
        processors: &[ProcessorRule],
    ) -> Result<FateRules, NoMemory>
        requires include { All IsLinePattern rule.now.include_lines }
        requires exclude { All IsLinePattern rule.now.exclude_lines }
        requires few { length processors.now ≤ 64 }
        requires in_range { All IsProcessorInRange processors.now }
        ensures { IfOk result (Decides (rules_of rule.now processors.now)) }
    {
        Ok(FateRules {
            filter: Filter::new(
                alloc,
                rule.include_lines.as_slice(),
                rule.exclude_lines.as_slice(),
            )?,
            chain: compiled(alloc, processors)?,
            stamp: Stamp::new(Moment(0)),
        })
    }

    /// The fate of an event of the file of this path, which was closed at this moment.
    pub(crate) fn fate(
        &mut self,
        alloc: Global,
        path: &Text,
        group: &Group,
        now: Moment,
    ) -> Result<EventFate, NoMemory>
        requires place { IsPlace group.now.span.start }
        requires moment { IsMoment now }
        ensures fate { IfOk result (λ fate. (rules : Rules) → Decides rules self.old →
            shown fate ≡ fate_of rules path.now group.now.span.start group.now.message now.0) }
        ensures same { (rules : Rules) → Decides rules self.old → Decides rules self.new }
    {
        match self.filter.verdict(alloc, group.message.bytes())? {
            Verdict::Drop(rule) => Ok(EventFate::Dropped(rule)),
            Verdict::Keep => {
                self.stamp.set(now);
                kept_fate(&mut self.chain, alloc, path, group, &self.stamp)
            }
        }
    }
}

fn compiled(alloc: Global, processors: &[ProcessorRule]) -> Result<Option<Chain>, NoMemory>
    requires few { length processors.now ≤ 64 }
    requires in_range { All IsProcessorInRange processors.now }
    ensures { IfOk result (ChainRuns processors.now) }
{
    if processors.is_empty() {
        return Ok(None);
    }
    Ok(Some(Chain::new(alloc, processors)?))
}

/// The fate of an event whose message no filter drops.
fn kept_fate(
    chain: &mut Option<Chain>,
    alloc: Global,
    path: &Text,
    group: &Group,
    stamp: &Stamp,
) -> Result<EventFate, NoMemory>
    requires place { IsPlace group.now.span.start }
    ensures fate { IfOk result (λ fate. (processors : List ProcessorRule) →
        ChainRuns processors chain.old →
        shown fate ≡ fate_of_outcome (outcome_of processors
        (envelope_of path.now group.now.span.start group.now.message stamp.now))) }
    ensures same { (processors : List ProcessorRule) → ChainRuns processors chain.old →
        ChainRuns processors chain.new }
{
    let start = group.span.start();
    let message = group.message.bytes();
    match chain {
        None => Ok(payload_fate(event_payload_at(alloc, path, start, message, stamp)?)),
        Some(chain) => {
            let tree = envelope(alloc, path, start, message, stamp.moment())?;
            match chain.run(alloc, tree)? {
                Fate::Dropped(rule) => Ok(EventFate::Dropped(rule)),
                Fate::Ship(tree) => Ok(payload_fate(payload(alloc, &tree)?)),
            }
        }
    }
}

fn payload_fate(payload: Option<Blob>) -> EventFate
    ensures { shown result ≡ fate_of_payload payload }
{
    match payload {
        Some(payload) => EventFate::Shipped(payload),
        None => EventFate::Dropped(RuleNo(TOO_LONG_RULE)),
    }
}

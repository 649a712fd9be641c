ghost use Rattle.std.specs.Prelude.{◌≡◌, ◌≤◌, All, List, length, IfOk};
ghost use Rattle.event_tree.specs.Tree.{value_of};
ghost use Rattle.event_tree.specs.declared.processor_rule.ProcessorRule.{ProcessorRule};
ghost use Rattle.processors_core.specs.Fates.{shown};
ghost use Rattle.rules_in_range.specs.Processors.{IsProcessorInRange};
ghost use Rattle.processors_core.specs.Numbered.{by_rule};
ghost use Rattle.processors_core.specs.Outcome.{outcome_of};
ghost use Rattle.processors_core.specs.Runs.{Runs};

use crate::Fate;
use crate::processor::Processor;
use event_tree::{ProcessorRule, Tree};
use std::alloc::Global;
use wire_base::NoMemory;

/// The rule by which the first processor drops an event.
const FIRST_DROP_RULE: u32 = 10;

/// The processors of the settings, in their order (Filebeat reference, processors).
#[derive(Drop)]
pub struct Chain {
    processors: Vec<Processor>,
}

impl Chain {
    /// Reads the processors' paths and compiles their patterns. A pattern that is too large when it is compiled is reported
    /// as out of memory.
    pub fn new(alloc: Global, rules: &[ProcessorRule]) -> Result<Chain, NoMemory>
        requires few { length rules.now ≤ 64 }
        requires in_range { All IsProcessorInRange rules.now }
        ensures { IfOk result (Runs rules.now) }
    {
        let mut processors = Vec::with_capacity(alloc, rules.len())?;
        let mut number = FIRST_DROP_RULE;
        for rule in rules {
            processors.push(Processor::of(alloc, rule, number)?)?;
            number += 1;
        }
        Ok(Chain { processors })
    }

    /// What the processors make of the tree, one after another. Out of memory the tree is lost; the chain is
    /// as before.
    pub fn run(&mut self, alloc: Global, tree: Tree) -> Result<Fate, NoMemory>
        ensures fate { IfOk result (λ fate. (rules : List ProcessorRule) → Runs rules self.old →
            shown fate ≡ by_rule (outcome_of rules (value_of tree))) }
        ensures same { (rules : List ProcessorRule) → Runs rules self.old → Runs rules self.new }
    {
        let mut left = tree;
        for processor in self.processors.iter_mut() {
            match processor.run(alloc, left)? {
                Fate::Ship(tree) => left = tree,
                Fate::Dropped(rule) => return Ok(Fate::Dropped(rule)),
            }
        }
        Ok(Fate::Ship(left))
    }
}

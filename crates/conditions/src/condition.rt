ghost use Rattle.std.specs.Prelude.{◌≡◌, IfOk};
ghost use Rattle.event_tree.specs.Tree.{value_of};
ghost use Rattle.event_tree.specs.declared.condition_rule.ConditionRule.{ConditionRule};
ghost use Rattle.conditions.specs.Asks.{Asks};
ghost use Rattle.conditions.specs.Holds.{holds};
ghost use Rattle.rules_in_range.specs.Conditions.{IsConditionInRange};

use crate::compiled::Patterns;
use crate::node::Node;
use event_tree::{ConditionRule, Tree};
use std::alloc::Global;
use wire_base::NoMemory;

/// How many conditions are nested within one another at most (this project's profile).
const MOST_LEVELS: usize = 16;

/// A rule of the settings with its paths read and its patterns compiled (Filebeat reference, conditions).
#[derive(Drop)]
pub struct Condition {
    node: Node,
    patterns: Patterns,
}

impl Condition {
    /// Reads the rule's paths and compiles its patterns. A pattern that is too large when it is compiled is reported as
    /// out of memory.
    pub fn new(alloc: Global, rule: &ConditionRule) -> Result<Condition, NoMemory>
        requires { IsConditionInRange 16 rule.now }
        ensures { IfOk result (Asks rule.now) }
    {
        let mut patterns = Patterns::new(alloc);
        let node = Node::of(alloc, rule, MOST_LEVELS, &mut patterns)?;
        Ok(Condition { node, patterns })
    }

    /// Whether the rule holds of the tree. Memory is wanted only by a pattern that has reached too many states.
    pub fn holds(&mut self, alloc: Global, tree: &Tree) -> Result<bool, NoMemory>
        ensures truth { IfOk result (λ truth. (rule : ConditionRule) → Asks rule self.old →
            truth ≡ holds rule (value_of tree.now)) }
        ensures same { (rule : ConditionRule) → Asks rule self.old → Asks rule self.new }
    {
        self.node.holds(alloc, &mut self.patterns, tree)
    }
}

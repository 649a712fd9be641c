ghost use Rattle.std.specs.Prelude.{◌≡◌};
ghost use Rattle.event_tree.specs.Condition.{rules_of};

use crate::ConditionRule;

/// Conditions that are asked together, seen as their list by `rules_of`.
#[cycle(condition)]
#[derive(Debug, Drop)]
pub struct ConditionRules {
    rules: Vec<ConditionRule>,
}

impl ConditionRules {
    /// Takes no memory.
    pub fn from_vec(rules: Vec<ConditionRule>) -> ConditionRules
        ensures { rules_of result ≡ rules.items }
    {
        ConditionRules { rules }
    }

    /// Takes no memory.
    pub fn into_vec(self) -> Vec<ConditionRule>
        ensures { result.items ≡ rules_of self }
    {
        self.rules
    }

    pub fn as_slice(&self) -> &[ConditionRule]
        ensures { result.now ≡ rules_of self.now }
    {
        &self.rules
    }
}

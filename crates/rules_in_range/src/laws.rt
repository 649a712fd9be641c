ghost use Rattle.std.specs.Global.{Box};
ghost use Rattle.std.specs.Prelude.{ℕ, suc};
ghost use Rattle.event_tree.specs.Condition.{rules_of};
ghost use Rattle.event_tree.specs.declared.condition_rule.ConditionRule.{ConditionRule};
ghost use Rattle.event_tree.specs.declared.condition_rule.ConditionRule.TheVariants.{And, Or, Not};
ghost use Rattle.event_tree.specs.declared.condition_rules.ConditionRules.{ConditionRules};
ghost use Rattle.rules_in_range.specs.Conditions.{AreSome, IsConditionInRange};

/// A condition that may be nested this many levels deep has a level, and what it joins has one less. A law; it computes
/// nothing.
pub fn a_level_less()
    ensures some_level { (rule : ConditionRule) → ¬ IsConditionInRange 0 rule }
    ensures all { (levels : ℕ) (rules : ConditionRules) →
        IsConditionInRange (suc levels) (And rules) →
        AreSome (IsConditionInRange levels) (rules_of rules) }
    ensures some { (levels : ℕ) (rules : ConditionRules) →
        IsConditionInRange (suc levels) (Or rules) →
        AreSome (IsConditionInRange levels) (rules_of rules) }
    ensures other { (levels : ℕ) (inner : Box ConditionRule) →
        IsConditionInRange (suc levels) (Not inner) → IsConditionInRange levels inner.value }
{}

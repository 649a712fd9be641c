ghost use Rattle.std.specs.Global.{Box};
ghost use Rattle.std.specs.Prelude.{◌≡◌, ℕ, Bool, true, false, not, List, ◌++◌, Some, None};
ghost use Rattle.std.specs.List.{list_all, list_any};
ghost use Rattle.event_tree.specs.Condition.{rules_of};
ghost use Rattle.event_tree.specs.Parts.{parts_of};
ghost use Rattle.event_tree.specs.Paths.{get_at};
ghost use Rattle.event_tree.specs.Value.{TreeValue};
ghost use Rattle.event_tree.specs.declared.condition_rule.ConditionRule.{ConditionRule};
ghost use Rattle.event_tree.specs.declared.condition_rule.ConditionRule.TheVariants.{And, Or, Not};
ghost use Rattle.event_tree.specs.declared.condition_rules.ConditionRules.{ConditionRules};
ghost use Rattle.conditions.specs.Asked.{is_at};
ghost use Rattle.conditions.specs.Holds.{holds};
ghost use Rattle.conditions.specs.Within.{is_within};

/// `and` holds if each of its conditions does, `or` if some does, and `not` if its condition does not. A
/// law; it computes nothing.
pub fn joined_conditions()
    ensures all { (rules : ConditionRules) (tree : TreeValue) →
        holds (And rules) tree ≡ list_all (λ rule. holds rule tree) (rules_of rules) }
    ensures some { (rules : ConditionRules) (tree : TreeValue) →
        holds (Or rules) tree ≡ list_any (λ rule. holds rule tree) (rules_of rules) }
    ensures other { (inner : Box ConditionRule) (tree : TreeValue) →
        holds (Not inner) tree ≡ not (holds inner.value tree) }
{}

/// A question at a path is asked of the value there, and is not answered with yes if there is none. A law; it
/// computes nothing.
pub fn questions_at_paths()
    ensures there { (path : List ℕ) (test : TreeValue → Bool) (tree value : TreeValue) →
        get_at (parts_of path) tree ≡ Some value → is_at path test tree ≡ test value }
    ensures absent { (path : List ℕ) (test : TreeValue → Bool) (tree : TreeValue) →
        get_at (parts_of path) tree ≡ None → is_at path test tree ≡ false }
{}

/// A text is within another exactly if that one is some bytes, the text, and some bytes. A law; it computes
/// nothing.
pub fn text_within_text()
    ensures stands { (text bytes : List ℕ) → is_within text bytes ≡ true →
        (front : List ℕ) × (behind : List ℕ) × (bytes ≡ front ++ (text ++ behind)) }
    ensures found { (text front behind : List ℕ) → is_within text (front ++ (text ++ behind)) ≡ true }
{}

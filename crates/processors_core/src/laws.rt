ghost use Rattle.std.specs.Prelude.{◌≡◌, ℕ, List, ◌++◌, length};
ghost use Rattle.event_tree.specs.Value.{TreeValue};
ghost use Rattle.event_tree.specs.declared.processor_rule.ProcessorRule.{ProcessorRule};
ghost use Rattle.processors_core.specs.Outcome.{IsFirstDrop, Dropped, Left, outcome_from, outcome_of};

/// More processors run on the tree that the first ones left, and are numbered on; an event that the first ones drop
/// stays dropped by the same one. A law; it computes nothing.
pub fn chains_go_on()
    ensures left { (rules more : List ProcessorRule) (tree left : TreeValue) → outcome_of rules tree ≡ Left left →
        outcome_of (rules ++ more) tree ≡ outcome_from (length rules) more left }
    ensures dropped { (rules more : List ProcessorRule) (tree : TreeValue) (number : ℕ) →
        outcome_of rules tree ≡ Dropped number → outcome_of (rules ++ more) tree ≡ Dropped number }
{}

/// An event is dropped by the first `drop_event` whose condition holds of the tree as the processors before it left it,
/// and if there is such a one it is dropped. A law; it computes nothing.
pub fn first_drop_event()
    ensures is_first { (rules : List ProcessorRule) (tree : TreeValue) (number : ℕ) →
        outcome_of rules tree ≡ Dropped number → IsFirstDrop rules tree number }
    ensures drops { (rules : List ProcessorRule) (tree : TreeValue) (number : ℕ) → IsFirstDrop rules tree number →
        outcome_of rules tree ≡ Dropped number }
{}

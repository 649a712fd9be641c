use event_tree::Tree;
use wire_base::RuleNo;

/// What processors make of an event.
#[derive(Debug, Drop)]
pub enum Fate {
    /// It goes on, with this tree.
    Ship(Tree),
    /// A `drop_event` drops it, by rule 10 and the number of the processor, counted from 0.
    Dropped(RuleNo),
}

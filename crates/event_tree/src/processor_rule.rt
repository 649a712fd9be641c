use crate::{ConditionRule, Fields, ListOf, Texts};
use wire_base::Text;

/// One field path and another, to which it is renamed.
#[derive(Debug, Drop)]
pub struct Pair {
    pub from: Text,
    pub to: Text,
}

pub type Pairs = ListOf<Pair>;

/// What one processor does to an event (Filebeat reference, processors). Each but `DropEvent` runs on every event if it has no
/// condition.
#[derive(Debug, Drop)]
pub enum ProcessorRule {
    DropEvent {
        when: ConditionRule,
    },
    DropFields {
        fields: Texts,
        ignore_missing: bool,
        when: Option<ConditionRule>,
    },
    /// An empty target is the event itself.
    AddFields {
        fields: Fields,
        target: Text,
        when: Option<ConditionRule>,
    },
    AddTags {
        tags: Texts,
        target: Text,
        when: Option<ConditionRule>,
    },
    Rename {
        fields: Pairs,
        ignore_missing: bool,
        fail_on_error: bool,
        when: Option<ConditionRule>,
    },
}

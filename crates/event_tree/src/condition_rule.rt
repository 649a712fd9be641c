use crate::{ConditionRules, Fields, ListOf, Texts};
use wire_base::Text;

/// A field path, and a text or a pattern that is looked for there.
#[derive(Debug, Drop)]
pub struct TextAt {
    pub path: Text,
    pub text: Text,
}

pub type TextsAt = ListOf<TextAt>;

/// A field path, and the bounds of the whole number there, of which one is given.
#[derive(Debug, Drop)]
pub struct Bounds {
    pub path: Text,
    pub lt: Option<i64>,
    pub lte: Option<i64>,
    pub gt: Option<i64>,
    pub gte: Option<i64>,
}

pub type BoundsList = ListOf<Bounds>;

/// What is asked of an event (Filebeat reference, conditions). Each list has a member, and conditions
/// are nested at most 16 deep.
#[cycle(condition)]
#[derive(Debug, Drop)]
pub enum ConditionRule {
    /// Each key is a field path that has exactly this value.
    Equals(Fields),
    Contains(TextsAt),
    Regexp(TextsAt),
    Range(BoundsList),
    HasFields(Texts),
    And(ConditionRules),
    Or(ConditionRules),
    Not(Box<ConditionRule>),
}

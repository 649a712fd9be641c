use wire_base::RuleNo;

/// What a filter says of a message.
#[derive(Clone, Copy, Debug, PartialEq, Eq)]
pub enum Verdict {
    Keep,
    /// By rule 0, 1 or 2.
    Drop(RuleNo),
}

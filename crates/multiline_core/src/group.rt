use wire_base::{Blob, Span};

/// One event, not filtered yet.
#[derive(Debug, Drop, PartialEq, Eq)]
pub struct Group {
    /// All of the event's lines.
    pub span: Span,
    pub message: Blob,
    /// How many lines the event has.
    pub lines: u64,
}

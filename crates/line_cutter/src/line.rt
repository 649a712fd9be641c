use wire_base::{Blob, Span};

/// One complete line.
#[derive(Debug, Drop, PartialEq, Eq)]
pub struct Line {
    /// From the line's first byte to the byte after its terminator.
    pub span: Span,
    /// The first bytes of the content, as many as the rule keeps.
    pub head: Blob,
    /// How many bytes the content has, without the terminator.
    pub full: u64,
}

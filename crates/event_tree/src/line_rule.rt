/// What ends a line (Filebeat reference, filestream input).
#[derive(Clone, Copy, Debug, PartialEq, Eq)]
pub enum Terminator {
    /// A line feed, with a carriage return before it or without.
    Auto,
    LineFeed,
    CarriageReturnLineFeed,
    NullTerminator,
}

/// How bytes become lines.
#[derive(Clone, Copy, Debug, PartialEq, Eq)]
pub struct LineRule {
    pub terminator: Terminator,
    /// The most bytes of a line that are kept, 1 to 16,777,216.
    pub message_max_bytes: u64,
}

/// A line with a longer content is of no format, in bytes.
pub const MAX_CONTENT: u64 = 16_777_216;

/// The longest message of a joined line, in bytes.
pub const MAX_MESSAGE: usize = 16_777_216;

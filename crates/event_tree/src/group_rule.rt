use wire_base::Text;

/// To which neighbour a line goes that continues.
#[derive(Clone, Copy, Debug, PartialEq, Eq)]
pub enum Side {
    /// To the line before it.
    After,
    /// To the line after it.
    Before,
}

/// How lines become events (Filebeat reference, multiline messages). `count_lines` and `max_lines`
/// are 1 to 1,000,000, a timeout is 1 to 86,400,000 milliseconds, and `message_max_bytes`, the most
/// bytes of a message that are kept, is 1 to 16,777,216.
#[derive(Debug, Drop)]
pub enum GroupRule {
    /// Each line is an event.
    Single {
        message_max_bytes: u64,
    },
    /// As many lines as `count_lines` are an event.
    Count {
        count_lines: u64,
        max_lines: u64,
        timeout: u64,
        skip_newline: bool,
        message_max_bytes: u64,
    },
    /// A line continues if it matches `pattern`, or, with `negate`, if it does not.
    Pattern {
        pattern: Text,
        negate: bool,
        side: Side,
        flush_pattern: Option<Text>,
        max_lines: u64,
        timeout: u64,
        skip_newline: bool,
        message_max_bytes: u64,
    },
}

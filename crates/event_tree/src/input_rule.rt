use crate::{GroupRule, LineRule, ListOf};
use wire_base::Text;

/// Several texts: globs, patterns, field paths or tags.
pub type Texts = ListOf<Text>;

/// What one input follows, and how its files become events (Filebeat reference, filestream input).
#[derive(Debug, Drop)]
pub struct InputRule {
    /// 1 to 64 letters, digits, `_`, `.` and `-`; no two inputs have the same.
    pub id: Text,
    /// 1 to 64 globs.
    pub paths: Texts,
    pub file_identity: IdentityRule,
    /// The pause between two scans, 1 to 86,400,000 milliseconds.
    pub check_interval: u64,
    /// Whether a removed file loses its row.
    pub clean_removed: bool,
    /// How long a file without news stays open, 1 to 86,400,000 milliseconds.
    pub close_inactive: u64,
    /// A file that has not changed for this long, 0 to 31,536,000,000 milliseconds, is skipped; 0
    /// skips none.
    pub ignore_older: u64,
    /// The row of a file that has not changed for this long, 0 to 31,536,000,000 milliseconds, goes; 0
    /// keeps each. If it is not 0, it is above `ignore_older` and `check_interval` together.
    pub clean_inactive: u64,
    pub lines: LineRule,
    /// At most 64 patterns, of which an event must match one, if there are any.
    pub include_lines: Texts,
    /// At most 64 patterns, of which an event must match none.
    pub exclude_lines: Texts,
    pub multiline: GroupRule,
}

/// By what a file is known again (Filebeat reference, file identity).
#[derive(Clone, Copy, Debug, PartialEq, Eq)]
pub enum IdentityRule {
    /// The hash of `length` bytes, 64 to 1,048,576, from place `offset` on, at most 1,048,576.
    Fingerprint { offset: u64, length: u64 },
    /// Inode and device.
    Native,
    Path,
}

use crate::kind::Kind;
use wire_base::Text;

/// What is said of a name beside its kind.
#[derive(Debug, Drop)]
pub enum Note {
    Nothing,
    /// How many bytes there are, and how many are wanted.
    Bytes { size: u64, wanted: u64 },
    /// In the system's words.
    Reason(Text),
    /// How many files there are, and how many may be open.
    Files { found: u64, limit: u64 },
}

/// One thing that a check finds.
#[derive(Debug, Drop)]
pub struct Finding {
    pub kind: Kind,
    pub name: Text,
    pub note: Note,
}

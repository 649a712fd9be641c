use wire_base::{Blob, Text};

/// When a step of a file is made: as soon as this many listings of its folder, or this many calls on tails
/// of the file, were made.
#[derive(Clone, Copy)]
pub enum Due {
    Listings(u64),
    TailCalls(u64),
}

/// What happens to a file in one step.
#[derive(Drop)]
pub enum MemChange {
    /// The present life grows by these bytes.
    Append(Blob),
    /// The next life becomes present, with at most this many first bytes of the old one.
    Truncate(u64),
    Rename(Text),
    /// The file has no path from then on; a tail that is open goes on.
    Remove,
}

#[derive(Drop)]
pub struct MemStep {
    pub due: Due,
    pub change: MemChange,
}

/// A file and what becomes of it. Its steps are made in their order, each as soon as it is due; the
/// file is there from its first step on.
#[derive(Drop)]
pub struct MemFile {
    pub path: Text,
    pub native: Option<(u64, u64)>,
    pub steps: Vec<MemStep>,
}

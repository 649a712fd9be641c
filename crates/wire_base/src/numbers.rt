/// The greatest place, size or offset in a file, in bytes.
pub const MAX_PLACE: u64 = (1 << 63) - 1;

/// The greatest moment, in milliseconds since 1970-01-01T00:00:00Z.
pub const MAX_MOMENT: u64 = 250_000_000_000_000;

/// A followed file's number in this run.
#[derive(Clone, Copy, Debug, PartialEq, Eq, PartialOrd, Ord, Hash)]
pub struct Slot(pub u32);

/// How often a followed file has begun again at place 0.
#[derive(Clone, Copy, Debug, PartialEq, Eq, PartialOrd, Ord, Hash)]
pub struct Epoch(pub u32);

/// The rule by which an event was dropped.
#[derive(Clone, Copy, Debug, PartialEq, Eq, PartialOrd, Ord, Hash)]
pub struct RuleNo(pub u32);

/// Milliseconds since 1970-01-01T00:00:00Z.
#[derive(Clone, Copy, Debug, PartialEq, Eq, PartialOrd, Ord, Hash)]
pub struct Moment(pub u64);

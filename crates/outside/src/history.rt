use crate::Entry;

/// What is there of a file at one moment: which of its lives, from 0, and how much of it.
#[derive(Clone, Copy, Debug, PartialEq, Eq)]
pub struct Sight {
    pub life: u64,
    /// In bytes.
    pub length: u64,
}

/// What a look asked.
#[derive(Clone, Copy, Debug, PartialEq, Eq)]
pub enum Question {
    Length,
    /// A read at a place, which gave this many bytes.
    ReadAt { place: u64, count: u64 },
}

/// One look at a file: what was asked, and what was there.
#[derive(Clone, Copy, Debug, PartialEq, Eq)]
pub struct Look {
    pub question: Question,
    pub sight: Sight,
}

/// One file as a listing shows it, with its number and the number of the life that is present.
#[derive(Debug, Drop, PartialEq, Eq)]
pub struct Shown {
    pub entry: Entry,
    pub file: u64,
    pub life: u64,
}

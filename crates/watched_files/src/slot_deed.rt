use file_table::{At, Deed, Registered};
use wire_base::Slot;

/// What is to be done with the file of a slot.
#[derive(Clone, Copy, Debug, PartialEq, Eq)]
pub struct SlotDeed {
    pub slot: Slot,
    pub deed: Deed,
}

/// A file that is to be opened.
#[derive(Clone, Copy, Debug, PartialEq, Eq)]
pub struct Waiting {
    pub slot: Slot,
    /// The place from which it is read.
    pub at: At,
    /// What the registry has of it: without a Begin of this run, one is due as it is opened.
    pub registered: Registered,
}

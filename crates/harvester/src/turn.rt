use wire_base::{Epoch, Parcel, RuleNo, Span};

/// What one turn of a harvester gave.
#[derive(Debug, Drop, PartialEq, Eq)]
pub enum Turn {
    /// An event that is to be sent.
    Issued(Parcel),
    /// An event that the rule of this number dropped.
    Passed(Span, RuleNo),
    /// Bytes were read, and no event is closed.
    More,
    /// The end of the file was found, in this turn or by an earlier one that ended the file.
    AtEnd,
    /// The length was below what was read, and the file has the same key: it is read from its first byte on, in this
    /// epoch.
    NewLife(Epoch),
    /// The length was below what was read, and the file has another key, or none.
    Changed,
    /// The length was below what was read in the last epoch, and the file has the same key.
    EpochsOut,
    /// The tail's count of faults rose. Nothing was reported, and no byte is skipped.
    ReadFault,
    /// Nothing was reported, and no byte is skipped.
    NoMemory,
}

use wire_base::{Epoch, Moment, Slot};

/// What a look at a lane's harvester gives.
#[derive(Clone, Copy, Debug, PartialEq, Eq)]
pub struct SeatLook {
    pub slot: Slot,
    pub epoch: Epoch,
    /// The end of the last span that was reported in the epoch, or the place from which it is read, in bytes.
    pub told_to: u64,
    /// The place up to which the epoch was read, in bytes.
    pub read_to: u64,
    /// No further turn is made: the file has another key or none, or its last epoch is over.
    pub changed: bool,
    /// As the harvester's `idle_since`.
    pub idle_since: Option<Moment>,
}

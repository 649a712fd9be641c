use crate::{Blob, Epoch, Slot, Span};

/// The longest payload, in bytes.
pub const MAX_PAYLOAD: usize = 268_435_456;

/// One shipped event on its way to a peer.
#[derive(Debug, Drop, PartialEq, Eq)]
pub struct Parcel {
    pub slot: Slot,
    pub epoch: Epoch,
    pub span: Span,
    pub payload: Blob,
}

use wire_base::Epoch;

/// A place in a file: the epoch, and the place in it, in bytes.
#[derive(Clone, Copy, Debug, PartialEq, Eq)]
pub struct At {
    pub epoch: Epoch,
    pub place: u64,
}

use wire_base::{Moment, Text};

/// One regular file as a listing shows it.
#[derive(Debug, Drop, PartialEq, Eq)]
pub struct Entry {
    pub path: Text,
    /// The size at the moment of the listing, in bytes.
    pub size: u64,
    /// Inode and device, if the system gives them.
    pub native: Option<(u64, u64)>,
    /// When the file was last changed; 0 if the system does not give it.
    pub changed: Moment,
}

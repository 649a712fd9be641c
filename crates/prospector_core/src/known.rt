use wire_base::{Slot, Text};

/// A file that is remembered.
#[derive(Debug, Drop, PartialEq, Eq)]
pub struct Known {
    pub slot: Slot,
    /// The input's number in the settings, from 0.
    pub input: u32,
    pub key: Text,
    /// The path under which a scan last showed it.
    pub path: Text,
    /// The size that a scan last showed, in bytes.
    pub size: u64,
    /// No whole scan since has failed to show it.
    pub present: bool,
}

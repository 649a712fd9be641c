use wire_base::{Moment, Text};

/// One file of an input, as a scan shows it.
#[derive(Debug, Drop, PartialEq, Eq)]
pub struct Listed {
    /// The input's place in the settings, from 0.
    pub input: u32,
    /// The key, as far as the entry by itself gives it (Filebeat reference, file identity): none only for a
    /// fingerprint, which is asked of the open file.
    pub key: Option<Text>,
    pub path: Text,
    /// The size at the moment of the listing, in bytes.
    pub size: u64,
    /// When the file was last changed, as the listing gives it.
    pub changed: Moment,
}

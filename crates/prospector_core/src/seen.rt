use wire_base::Text;

/// One file as a scan shows it.
#[derive(Debug, Drop, PartialEq, Eq)]
pub struct Seen {
    /// The input's number in the settings, from 0.
    pub input: u32,
    /// What the asked identity gave.
    pub key: Text,
    pub path: Text,
    /// The size when it was listed, in bytes.
    pub size: u64,
}

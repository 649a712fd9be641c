use crate::State;
use wire_base::Text;

/// How far one file is.
#[derive(Drop)]
pub struct Progress {
    pub state: State,
    /// Where the scan found the file; where its row has it, for one that is gone.
    pub path: Text,
    /// By what the file is known; `None` for one that is too small for its fingerprint.
    pub key: Option<Text>,
    /// How often the file has begun again; 0 without a row.
    pub epoch: u32,
    /// Up to which all was acknowledged or dropped, in bytes; 0 without a row.
    pub offset: u64,
    /// In bytes; `None` for a file that is gone.
    pub size: Option<u64>,
    /// The bytes that are not acknowledged or dropped yet; `None` for a file that is gone and for one that is doubled.
    pub behind: Option<u64>,
}

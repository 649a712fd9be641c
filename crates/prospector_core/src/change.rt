use wire_base::{Slot, Text};

/// What a scan says of one file (Filebeat reference, filestream input; this project's profile).
#[derive(Debug, Drop, PartialEq, Eq)]
pub enum Change {
    /// The key is not known; the slot is the next number.
    Created {
        slot: Slot,
        input: u32,
        key: Text,
        path: Text,
        size: u64,
    },
    /// The key is known, its file was removed, and it is kept.
    Returned {
        slot: Slot,
        path: Text,
        size: u64,
    },
    /// The key is known and present under another path.
    Renamed {
        slot: Slot,
        from: Text,
        to: Text,
    },
    /// Known and present, and longer than it was last seen.
    Written {
        slot: Slot,
        size: u64,
    },
    /// Known and present, and shorter than it was last seen.
    Truncated {
        slot: Slot,
        size: u64,
    },
    /// Known and present, and a whole scan did not show it.
    Removed {
        slot: Slot,
    },
    /// An earlier path of the scan has the same key.
    Doubled {
        path: Text,
    },
}

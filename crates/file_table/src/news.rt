use crate::{At, Closing};

/// News of a known file.
#[derive(Clone, Copy, Debug, PartialEq, Eq)]
pub enum FileNews {
    /// A scan shows it again after it was removed.
    Returned,
    /// The scan of this number shows it under another path.
    Renamed { scan: u64 },
    /// A scan shows it longer or shorter than before.
    Resized,
    /// A whole scan does not show it; whether removed files of its input are to be forgotten.
    Removed { clean: bool },
    /// The scan of this number shows its key.
    Shown { scan: u64 },
    /// A whole scan shows no file with its key.
    Missed,
    /// A tail was opened, from this place on.
    Opened { at: At },
    /// Its tail was closed; its last span ended at this place.
    Shut { at: At, closing: Closing },
}

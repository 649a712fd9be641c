/// The most files that may be known, those of other inputs among them.
pub const MAX_FILES: usize = 65_536;

/// The most slots that are given in a run.
pub const MAX_SLOTS: u32 = 4_294_967_295;

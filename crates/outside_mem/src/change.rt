ghost use Rattle.std.specs.Prelude.{◌≤◌, ◌+◌, vec_len};
ghost use Rattle.wire_base.specs.declared.numbers.TheConstants.{MAX_PLACE};

/// A write that was made.
#[derive(Drop)]
pub(crate) struct Write {
    pub(crate) at: u64,
    pub(crate) bytes: Vec<u8>,
    ghost in_range: { at + vec_len bytes ≤ MAX_PLACE },
}

/// One change of a disk, kept so that each earlier moment can be shown.
#[derive(Drop)]
pub(crate) enum Change {
    Wrote(Write),
    /// A write that failed, and left its range open.
    WriteFailed { at: u64, len: usize },
    CutTo { len: u64 },
    Synced,
}

ghost use Rattle.std.specs.Prelude.{◌≡◌, ◌==◌, ◌&&◌, ◌||◌, nat_lt, nat_le};

/// How far a file has come: its epoch, and a place in bytes.
#[derive(Clone, Copy, Debug, PartialEq, Eq)]
pub(crate) struct Reach {
    pub(crate) epoch: u32,
    pub(crate) end: u64,
}

impl Reach {
    /// The epochs are compared first.
    pub(crate) fn is_not_above(self, other: Reach) -> bool
        ensures { result ≡ (nat_lt self.epoch other.epoch ||
            ((self.epoch == other.epoch) && nat_le self.end other.end)) }
    {
        self.epoch < other.epoch || (self.epoch == other.epoch && self.end <= other.end)
    }
}

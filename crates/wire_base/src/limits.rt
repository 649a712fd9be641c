/// What there are too many of.
#[derive(Clone, Copy, Debug, PartialEq, Eq)]
pub enum Full {
    Files,
    Epochs,
    Slots,
}

/// One of the two registry areas.
#[derive(Clone, Copy, Debug, PartialEq, Eq)]
pub enum Which {
    A,
    B,
}

ghost use Rattle.std.specs.Prelude.{◌≡◌, ◌≢◌};
ghost use Rattle.std.specs.Bool.{OnFalse, OnTrue};
ghost use Rattle.lanes.specs.Giving.{spans_of};

use wire_base::{Note, Parcel};

/// What a turn of a harvester gives to be handed on.
#[derive(Debug, Drop, PartialEq, Eq)]
pub enum Given {
    /// Into the queue.
    Parcel(Parcel),
    /// To the box.
    Note(Note),
    Nothing,
}

impl Given {
    pub(crate) fn is_something(&self) -> bool
        ensures some { OnTrue result (self.now ≢ Given.Nothing) }
        ensures none { OnFalse result (self.now ≡ Given.Nothing) }
    {
        match self {
            Given::Parcel(_) | Given::Note(_) => true,
            Given::Nothing => false,
        }
    }

    /// How many spans were reported by it.
    pub(crate) fn spans(&self) -> u64
        ensures { result ≡ spans_of self.now }
    {
        match self {
            Given::Parcel(_) | Given::Note(Note::Settle { .. }) => 1,
            Given::Note(_) | Given::Nothing => 0,
        }
    }
}

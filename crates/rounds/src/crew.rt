ghost use Rattle.std.specs.Prelude.{◌≡◌, ◌⊎◌};
ghost use Rattle.std.specs.Bool.{OnFalse, OnTrue};
ghost use Rattle.rounds.specs.Due.{IsDue};
ghost use Rattle.rounds.specs.Settled.{AreCollected};

use crate::carrier::Carrier;
use keeper::Keeper;
use lanes::Lane;
use outside::{Link, Tail, Wire};

/// How many rounds the keeper goes without turns at most, while others move.
pub const MAX_ROUNDS_WITHOUT: u32 = 32;

/// What is known of the box as a round ended, and what decides when the keeper has turns.
#[derive(Clone, Copy, Debug, PartialEq, Eq)]
pub struct Pace {
    /// How many notes the box can hold, and how many it held as the last round ended.
    pub(crate) room: u32,
    pub(crate) boxed: u64,
    /// How many notes had been posted in all as the last round ended. The count saturates at 2^64 - 1.
    pub(crate) posted: u64,
    /// For how many rounds the keeper has gone without turns.
    pub(crate) without: u32,
}

impl Pace {
    /// Whether the keeper has turns beside the others: if three quarters of the box's room are taken, and if it has gone
    /// without for 32 rounds. A commit is two syncs, and writes a row of each file that came on, so a busy round does not wait for
    /// the disk.
    pub(crate) fn is_due(&self) -> bool
        ensures due { OnTrue result (IsDue self.now) }
        ensures early { OnFalse result (¬ (IsDue self.now)) }
    {
        self.without >= MAX_ROUNDS_WITHOUT || self.boxed >= u64::from(self.room / 4 * 3)
    }

    /// Whether as many notes were collected as had been posted; if 2^64 - 1 were posted, it is not known.
    pub(crate) fn are_collected(&self, keeper: &Keeper) -> bool
        ensures all { OnTrue result (AreCollected self.now.posted keeper.now) }
        ensures work { OnFalse result (¬ (AreCollected self.now.posted keeper.now)) }
    {
        self.posted < u64::MAX && self.posted == keeper.collected()
    }
}

/// All that work in a round beside the keeper: lanes that read, and workers that send.
pub struct Crew<T, W, L> {
    pub lanes: Vec<Lane<T>>,
    pub carriers: Vec<Carrier<W, L>>,
    pub pace: Pace,
}

impl<T: Tail, L: Link, W: Wire<Link = L>> Crew<T, W, L> {
    /// The box has room for this many notes, and is empty.
    pub fn new(lanes: Vec<Lane<T>>, carriers: Vec<Carrier<W, L>>, room: u32) -> Crew<T, W, L>
        ensures { result ≡ record {
          lanes = lanes;
          carriers = carriers;
          pace = record { room = room; boxed = 0; posted = 0; without = 0 };
        } }
    {
        Crew {
            lanes,
            carriers,
            pace: Pace {
                room,
                boxed: 0,
                posted: 0,
                without: 0,
            },
        }
    }

    /// Gives back all of them.
    pub fn end(self) -> (Vec<Lane<T>>, Vec<Carrier<W, L>>)
        ensures lanes { result.0 ≡ self.lanes }
        ensures carriers { result.1 ≡ self.carriers }
    {
        let Crew {
            lanes,
            carriers,
            pace: _,
        } = self;
        (lanes, carriers)
    }
}

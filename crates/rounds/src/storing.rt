ghost use Rattle.std.specs.Prelude.{◌≡◌, false};
ghost use Rattle.rounds.specs.KeeperTurns.{Counts, KeeperRan, KeepsOne, begun_stored};
ghost use Rattle.rounds.specs.Words.{disk_words};

use crate::carrier::MAX_TURNS;
use keeper::{Keeper, KeeperTurn};
use outside::Disk;
use settle_box::SettleBox;
use std::alloc::Global;
use std::sync::Wait;

/// What the keeper's turns of a round came to.
#[derive(Clone, Copy, Debug, PartialEq, Eq)]
pub struct Stored {
    /// Some turn answered `Kept`.
    pub moved: bool,
    /// A turn found no memory.
    pub memory: bool,
    /// A disk failed.
    pub disk: bool,
}

impl Stored {
    /// No turn was made yet.
    pub fn begun() -> Stored
        ensures { result ≡ begun_stored }
    {
        Stored {
            moved: false,
            memory: false,
            disk: false,
        }
    }
}

/// The keeper, and the two areas that only it writes. Callers write this value out themselves: through a call that made it, no
/// contract could say what the areas come to.
#[derive(Drop)]
pub struct Storing<'a, D> {
    pub keeper: &'a mut Keeper,
    pub a: &'a mut D,
    pub b: &'a mut D,
    /// What the turns of the last round came to.
    pub stored: Stored,
}

impl<D: Disk> Storing<'_, D> {
    /// One round: at most 256 turns, as long as each keeps something.
    pub fn run<R: Wait>(&mut self, rt: &R, alloc: Global, desk: &SettleBox)
        requires of_this_box { self.old.keeper.now.pass.desk ≡ desk.now.id }
        requires open { self.old.keeper.now.store.closed ≡ false }
        ensures { KeeperRan (disk_words D.contents D.images D.moment D.images_since D.faults)
            self.old self.new }
    {
        self.stored = Stored::begun();
        let mut turns = 0;
        'turns: while turns < MAX_TURNS {
            turns += 1;
            if !self.turn(rt, alloc, desk) {
                return;
            }
        }
    }

    /// A round in which the keeper has no turn.
    pub(crate) fn rest(&mut self)
        ensures { self.new ≡ record self.old { stored = begun_stored } }
    {
        self.stored = Stored::begun();
    }

    /// One turn; whether it kept something.
    fn turn<R: Wait>(&mut self, rt: &R, alloc: Global, desk: &SettleBox) -> bool
        requires of_this_box { self.old.keeper.now.pass.desk ≡ desk.now.id }
        requires open { self.old.keeper.now.store.closed ≡ false }
        ensures { KeepsOne (disk_words D.contents D.images D.moment D.images_since D.faults)
            result self.old self.new }
    {
        let turn = self.keeper.turn(rt, alloc, desk, self.a, self.b);
        self.count(turn)
    }

    /// Counts a turn; whether it kept something.
    fn count(&mut self, turn: KeeperTurn) -> bool
        ensures { Counts turn result self.old self.new }
    {
        match turn {
            KeeperTurn::Kept(_) => {
                self.stored.moved = true;
                true
            }
            KeeperTurn::DiskFault => {
                self.stored.disk = true;
                false
            }
            KeeperTurn::NoMemory => {
                self.stored.memory = true;
                false
            }
            KeeperTurn::Empty => false,
        }
    }
}

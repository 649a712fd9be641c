ghost use Rattle.std.specs.Prelude.{◌≡◌};
ghost use Rattle.lanes.specs.Tallies.{begun_tally, tally_with};

use harvester::Turn;
use wire_base::Slot;

/// What the turns of a round came to.
#[derive(Clone, Copy, Debug, PartialEq, Eq)]
pub struct Tally {
    /// What was held went through, bytes were read, a span was reported, or a new life was found, be it another file's.
    pub moved: bool,
    /// Some turn found no memory.
    pub memory: bool,
    /// How many turns hit a read fault. The count saturates at 2^64 - 1.
    pub tail_faults: u64,
    /// The first file of which a read failed.
    pub failed: Option<Slot>,
    /// The first file whose last epoch was over.
    pub epochs: Option<Slot>,
}

impl Tally {
    pub(crate) fn begun(moved: bool) -> Tally
        ensures { result ≡ begun_tally moved }
    {
        Tally {
            moved,
            memory: false,
            tail_faults: 0,
            failed: None,
            epochs: None,
        }
    }

    pub(crate) fn add(&mut self, slot: Slot, turn: &Turn)
        ensures { self.new ≡ tally_with slot turn.now self.old }
    {
        match turn {
            Turn::Issued(_) | Turn::Passed(_, _) | Turn::More | Turn::NewLife(_) | Turn::Changed =>
                self.moved = true,
            Turn::ReadFault => {
                self.tail_faults = self.tail_faults.saturating_add(1);
                if self.failed.is_none() {
                    self.failed = Some(slot);
                }
            }
            Turn::NoMemory => self.memory = true,
            Turn::EpochsOut => {
                self.moved = true;
                if self.epochs.is_none() {
                    self.epochs = Some(slot);
                }
            }
            Turn::AtEnd => {}
        }
    }
}

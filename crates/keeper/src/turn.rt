/// What a turn of the keeper came to.
#[derive(Clone, Copy, Debug, PartialEq, Eq)]
pub enum KeeperTurn {
    /// All that was noted is stored; this many notes were collected in this turn.
    Kept(u32),
    /// The box was empty, and nothing was left to store.
    Empty,
    /// A disk failed. The store is closed.
    DiskFault,
    /// Memory was refused: to a note, which is held, or to the commit.
    NoMemory,
}

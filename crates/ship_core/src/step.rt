use wire_base::Note;

/// One step of the registry machine.
#[derive(Debug, Drop)]
pub enum CoreStep {
    /// A note is given to the keeper.
    Noted(Note),
    /// The pending updates are stored.
    Commit,
    /// This many updates are left, of those that were stored and the pending ones after them.
    Crash(u64),
    /// What is stored is opened again.
    Restart,
}

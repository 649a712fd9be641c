use std::collections::LinkedList;
use wire_base::Note;

/// A name under which notes are posted: the list of split numbers that leads to it from the first
/// pass, the newest first. No code makes one: passes know senders only in contracts.
pub struct Sender {
    pub name: LinkedList<u64>,
    /// How often its pass was split, which is the number of its next split.
    pub made: u64,
    pub posted: LinkedList<Note>,
}

/// A note with the name under which it was posted, as the pass that collected it knows it.
pub struct Sent {
    pub from: LinkedList<u64>,
    pub note: Note,
}

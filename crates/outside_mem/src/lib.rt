//! The outside world in memory: objects that report all that they hold and all that was done with them.
//!
//! They show that the contracts of the outside can be met, and the worked rows run over them. What is
//! reported is what was done. A call fails if a list names it, or if there is no memory for the
//! object's own record; `starved` counts the latter.
#![tactic(auto)]

mod bell;
mod below;
mod change;
mod clock;
mod crash;
mod disk;
mod failing;
mod failures;
mod folder;
mod front;
mod laws;
mod link;
mod link_history;
mod log;
mod meet;
mod moments;
mod outcomes;
mod script;
mod sink;
mod source;
mod steps;
mod tail;
mod talk;
mod tracked;
mod windows;
mod wire;

pub use bell::MemBell;
pub use clock::MemClock;
pub use disk::MemDisk;
pub use folder::MemFolder;
pub use laws::told_moments_are_listed;
pub use link::MemLink;
pub use meet::MeetLink;
pub use sink::MemSink;
pub use source::MemSource;
pub use steps::{Due, MemChange, MemFile, MemStep};
pub use tail::MemTail;
pub use talk::{MemPiece, MemTalk};
pub use wire::MemWire;

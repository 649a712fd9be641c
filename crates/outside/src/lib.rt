//! The outside world as contracts see it: sources, sinks, folders with their tails, wires with their
//! links, disks, clocks and bells.
//!
//! Each trait says what is known of an object's content, if anything is, and which counts
//! never fall. An object in memory reports everything and a real one nothing; no call changes whether
//! an object reports. A clause on content speaks if the object reports; clauses on ranges and on
//! causes hold over every object. What a real file or socket holds is not known to any proof.
#![tactic(auto)]

mod bell;
mod clock;
mod disk;
mod entry;
mod failed;
mod folder;
mod history;
mod link;
mod sink;
mod source;
mod tail;
mod wire;

pub use bell::Bell;
pub use clock::Clock;
pub use disk::Disk;
pub use entry::Entry;
pub use failed::{Failed, FolderError};
pub use folder::Folder;
pub use history::{Look, Question, Shown, Sight};
pub use link::{Link, Recv};
pub use sink::Sink;
pub use source::Source;
pub use tail::Tail;
pub use wire::Wire;

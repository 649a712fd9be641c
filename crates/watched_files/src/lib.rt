//! The files that a run follows, from one scan to the next: which they are, how each one is, and what is to be done.
//!
//! It is told what each scan listed, which tails were opened, and what a look at each open tail gave. It answers what is to be
//! done with which file: which note is due, which harvester is stirred, renamed or ended, which file is opened and from
//! where, which tail is closed, and which file is no longer known. Nothing here opens a file or posts a note.
//!
//! A prospector says which file is which, a table how each one is, and both have the same slots. What a scan asks for is defined
//! in `specs/Telling` by the changes between the known files and the listed ones.
#![tactic(auto)]

mod scan_steps;
mod seen;
mod slot_deed;
mod watched_files;

pub use slot_deed::{SlotDeed, Waiting};
pub use watched_files::{Scan, WatchedFiles};

#[cfg(test)]
mod tests;

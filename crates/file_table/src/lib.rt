//! The state of each followed file from one scan to the next, and what each change of a listing asks for.
//!
//! A table has one entry a slot: whether the file waits to be opened, has an open tail, ends, is closed, or is to be
//! forgotten; the place from which it goes on; and which scan showed it last. It takes in what scans found, which files were
//! opened, and what a look at each open tail gave. It answers what is to be done: which note is due, which harvester is
//! stirred or ended, which tail is closed, which file leaves. Nothing here opens a file or posts a note.
//!
//! Contracts relate a table to the list of events that it has taken in (`StandsFor`): the newest events of a slot decide the
//! state of its file, by the rules in `specs/Standing`. Only a file that begins takes memory. A call takes time for a
//! logarithm of the files.
#![tactic(auto)]

mod at;
mod closing;
mod deed;
mod file_entry;
mod news;
mod stand;
mod table;

pub use at::At;
pub use closing::{Closing, Inactive, TailLook};
pub use deed::Deed;
pub use file_entry::{FileEntry, Registered};
pub use news::FileNews;
pub use stand::{AfterEnd, Stand};
pub use table::FileTable;

#[cfg(test)]
mod tests;

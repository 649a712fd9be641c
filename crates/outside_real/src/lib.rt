//! The outside world itself: objects over std's files and sockets that implement the traits of `outside`
//! and report nothing of what they hold.
//!
//! Each opens at its first call, asks std again when a signal cut a call short, and counts a fault
//! at each call of std that failed. A wire without a link, and a disk whose name is not synced yet, each
//! keep a descriptor in reserve for that. What a file or a peer gives is known to no proof; ranges, counts
//! and causes are. An object keeps the handle it reaches the system by: any type with the bounds
//! that its calls name, such as a reference to the program's runtime.
#![tactic(auto)]

mod area;
mod bell;
mod clock;
mod counted;
mod disk;
mod errors;
mod folder;
mod link;
mod marks;
mod read_only;
mod reserve;
mod sink;
mod source;
mod steady;
mod tail;
mod walk;
mod wire;

pub use bell::FileBell;
pub use clock::SystemClock;
pub use disk::FileDisk;
pub use errors::ErrorSink;
pub use folder::DirFolder;
pub use link::TcpLink;
pub use read_only::ReadOnlyFile;
pub use sink::StdSink;
pub use source::FileSource;
pub use tail::FileTail;
pub use wire::TcpWire;

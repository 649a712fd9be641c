//! Which file is which from one scan to the next, and what has changed.
//!
//! A prospector remembers files by their keys. `compare` takes what one scan shows, in byte order of the paths, and
//! reports what each member of it says: a file that is not known yet, one that was removed and is there again, one under
//! another path, one that is longer or shorter than before, or a further path of a file that an earlier path showed
//! already. After a whole scan it reports each file that the scan did not show.
//!
//! Which changes there are between what is known and a scan, and what is known afterwards, are definitions of
//! `specs/`. A refusal leaves what is known as it was. A scan of n members over m known files costs a logarithm of m
//! for each member, and one in which nothing changed takes no memory. Nothing here opens a file.
#![tactic(auto)]

mod change;
mod key_index;
mod known;
mod known_changes;
mod limits;
mod marks;
mod prospect_error;
mod prospector;
mod seen;
mod told;

pub use change::Change;
pub use known::Known;
pub use limits::{MAX_FILES, MAX_SLOTS};
pub use prospect_error::ProspectError;
pub use prospector::Prospector;
pub use seen::Seen;

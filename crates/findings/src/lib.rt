//! What there is to say before a run: of the settings, of the files that they name, of what a run would pass over, and of
//! the hosts.
//!
//! What the traits of `outside` do not cover is asked of two traits of this crate, `System` and `Hosts`. A check first
//! gathers what it sees; the findings, the text and the end of the check are definitions of `specs/` over that. It writes
//! only to the two sinks: each file that it opens for its key is closed again, and no call of `System` or `Hosts` can
//! write.
#![tactic(auto)]

mod asked;
mod checking;
mod counting;
mod ending;
mod fault_place;
mod finding;
mod finding_list;
mod foreign;
mod glob_findings;
mod globs;
mod hosts;
mod kind;
mod line;
mod mem;
mod page;
mod place;
mod scan;
mod seeing;
mod seen;
mod settings;
mod skipped;
mod system;
mod text;
mod trial;
mod words;

pub use asked::Asked;
pub use checking::{Outside, check};
pub use ending::Ending;
pub use hosts::{Hosts, Trial};
pub use mem::{MemHosts, MemSystem};
pub use place::Place;
pub use skipped::{Skipped, Why};
pub use system::System;
pub use words::read_words;

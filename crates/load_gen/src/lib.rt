//! The log that `--generate` ships in place of files: numbered lines, of which each event has three. The same number of
//! lines gives the same bytes on every machine.
#![tactic(auto)]

mod lines;

pub use lines::generated;

//! The run: one call, `ship`, that reads files, sends their events and stores how far they were acknowledged.
//!
//! It reads arguments and settings, opens the registry, scans once, and then makes rounds of lanes, workers and a keeper until
//! all is done or something ends it; then what was settled is stored, and all is released. All outside is an object of a
//! trait that the caller hands in. What is not built yet is refused by a status of its own.
#![tactic(auto)]

mod ending;
mod laws;
mod objects;
mod parts;
mod prepare;
mod run;
mod scan;
mod settings;
mod shipping;
mod status;

pub use command_line::{Places, places};
pub use report::{Lack, Status, status_line};
pub use shipping::ship;

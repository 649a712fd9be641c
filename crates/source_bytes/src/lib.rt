//! All bytes of a source, up to a limit.
#![tactic(auto)]

mod reading;

pub use reading::{ReadError, read_up_to};

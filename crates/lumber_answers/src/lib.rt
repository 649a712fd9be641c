//! What the receiver has still to write and to answer: lines of payloads, and the acknowledgements that wait for them.
//!
//! Lines are laid one after another and written together. No byte of an acknowledgement goes out before the lines that were
//! laid before it are written whole; if the sink or the link fails, the contracts say how much was written and sent.
#![tactic(auto)]

mod fault;
mod outgoing;
mod streams;

pub use fault::{Fault, WriteFault};
pub use outgoing::Outgoing;

//! A spool: payloads on a disk that stay there until a peer has acknowledged them.
//!
//! A spool is a row of records, each after a gate. A record is on the disk after a closed gate before that gate opens, so a
//! crash leaves the payloads before it or the payloads after it. No checksum is needed. An event carries a payload, and a
//! settlement says how many events are settled in all; what is left is outstanding. Once nothing is, the spool is cut short.
//! The bytes of records and what they are read as are definitions of `specs/` over whole byte lists.
#![tactic(auto)]

mod appending;
mod head;
mod laws;
mod limits;
mod printing;
mod putting;
mod reading;
mod run;
mod sending;
mod spool;
mod spool_error;
mod status;
mod stop;
mod synced;
mod text;
mod walk;
mod words;

pub use laws::one_reading;
pub use limits::{MAX_EVENT_BYTES, MAX_SPOOL_BYTES, TIMEOUT_MS};
pub use run::spool_run;
pub use spool::Spool;
pub use spool_error::SpoolError;
pub use status::SpoolStatus;

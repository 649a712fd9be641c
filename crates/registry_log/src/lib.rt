//! One registry area: a header and records after gates, written so that a crash leaves it readable or shut.
//!
//! An area is started with a generation and the rows that the registry has. Everything after the first gate is on the
//! disk before that gate opens, and what was there before is gone before anything is written. So a crash at any moment
//! leaves the area as it was, blank, closed, or with exactly these rows.
//!
//! A record is appended in the same way: it is on the disk after a closed gate before that gate opens, so a crash leaves
//! the rows before it or the rows after it. No checksum is needed. Reading reports exactly the state of the bytes that the
//! disk gives: blank, closed, opened with its rows, or broken at a place. Bytes and states of an area are definitions of
//! `specs/` over whole byte lists; reading goes in blocks.
#![tactic(auto)]

mod appending;
mod area;
mod area_text;
mod front;
mod header;
mod laws;
mod log_error;
mod record;
mod records;
mod start;
mod stretch;
mod synced;

pub use appending::{append, append_body};
pub use area::{Area, read_area};
pub use area_text::MAX_BODY;
pub use header::{HEADER, Header, read_header};
pub use laws::{header_by_first_bytes, one_state, started_area_is_opened};
pub use log_error::LogError;
pub use records::MAX_ROWS;
pub(crate) use start::OPEN;
pub use start::start_area;

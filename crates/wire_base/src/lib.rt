//! The plain data that many crates name: texts and bytes, spans, rows, notes and the pieces of a talk.
//!
//! A text and a blob are seen in contracts as the list of their bytes. The ranges that every call
//! on a row, a note or a parcel has as its condition are definitions of `specs/`. Nothing here
//! touches a file, a socket or a clock.
#![tactic(auto)]

mod blob;
mod decimal;
mod host;
mod limits;
mod memory;
mod note;
mod numbers;
mod parcel;
mod row;
mod span;
mod talk;
mod text;

pub use blob::Blob;
pub use decimal::read_decimal;
pub use host::Host;
pub use limits::{Full, Which};
pub use memory::NoMemory;
pub use note::{Begin, Cause, Note};
pub use numbers::{Epoch, MAX_MOMENT, MAX_PLACE, Moment, RuleNo, Slot};
pub use parcel::{MAX_PAYLOAD, Parcel};
pub use row::{MAX_KEY, MAX_PATH, Op, Row};
pub use span::Span;
pub use talk::Piece;
pub use text::{Text, TextError};

#[cfg(test)]
mod tests;

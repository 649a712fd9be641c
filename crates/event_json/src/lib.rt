//! An event as its tree before any processor, and the payload of a tree.
//!
//! The envelope of an event and the text of a value are definitions of `specs/`, and so are the text
//! of a moment, by the rules of the calendar only, and the replacement of bytes that are no UTF-8.
//! Each call is proved equal to its definition. The text of a tree is written by `serde_json`, which is
//! given what a tree sends to it, that of an event by the writer of `json`, and a moment's by `jiff`.
#![tactic(auto)]

mod event;
mod json_text;
mod json_tree;
mod moment;
mod replaced_text;

pub use event::envelope;
pub use json_text::{event_payload, event_payload_at, payload};
pub use moment::Stamp;

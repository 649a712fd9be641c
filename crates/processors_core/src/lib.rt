//! What processors make of an event's tree.
//!
//! Five processors: one drops the event, and the others remove fields, add fields or tags, and move fields. They run in
//! order, each on the tree that the one before it left. An error of one leaves the tree as it was before that processor
//! and appends its text at `error.message`. The tree that is left, or the number of the processor that drops the event,
//! is a definition of `specs/`, with each error's text.
//!
//! A `Chain` is made of the processors of the settings. It reads their paths and compiles their patterns once, for as
//! long as it lives, and none for an event; what it makes of a tree is what the definition says, and it drops an event
//! by rule 10 and the number of the processor. A contract speaks of it by the rules that it runs, which are the same
//! after each call; out of memory it loses the tree that was given, not the chain. An event's tree is changed in
//! place; it is copied only before a `rename` of several fields that may have to be undone. Nothing here reads
//! settings or writes an event.
#![tactic(auto)]

mod add_fields;
mod add_tags;
mod chain;
mod drop_fields;
mod error;
mod fate;
mod fields;
mod laws;
mod named_path;
mod processor;
mod rename;

pub use chain::Chain;
pub use fate::Fate;
pub use laws::{chains_go_on, first_drop_event};

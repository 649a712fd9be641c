//! Events of complete lines.
//!
//! A line continues an event if its head matches a pattern, or with `negate` if it does not. Which lines are one
//! event by rule, which may be flushed, what the message of an event is and what a partition of a file into events is
//! are definitions of `specs/`, over whole lists of lines and over the bytes of a whole file.
//!
//! A `Grouper` is made for one rule and is given lines, one after another. It hands out an event exactly when the
//! lines so far, whatever follows, have one: with `after` a line that neither continues nor flushes closes the event
//! before it. It keeps the message of an event that has not ended, cut, and not its lines; so contracts speak of a
//! grouper by a relation to the lines that it was given since the last event ended. `flush` hands out what waits, and
//! `due` says when its timeout has passed. Out of memory it stays as before and gives the line back.
//!
//! The laws say what the definitions are good for: at each place begins at most one event by rule, the events of a
//! file's bytes stay events however the file grows, the spans of a partition adjoin, and without a rule each complete
//! line is an event. Patterns are those of lines, matched on bytes. Nothing here reads a file or a clock.
#![tactic(auto)]

mod group;
mod group_pattern;
mod grouper;
mod kind;
mod laws;
mod pending;
mod step;

pub use group::Group;
pub use grouper::Grouper;
pub use laws::{
    each_line_is_an_event, events_stay, natural_events_stay, no_event_is_empty, one_event,
    one_natural_event, spans_adjoin,
};

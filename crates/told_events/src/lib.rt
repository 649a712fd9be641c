//! What may be reported of a file: its events, in sequence, and what becomes of each.
//!
//! The rules of an input say what ends a line, which lines are one event, which messages are dropped, and what processors
//! make of an event; from them follow an event's fate and its payload. An event that no line has ended may be flushed
//! if the file's end was found, or once its timeout has passed. Reported events adjoin from a place on, and each has the fate
//! that the rules give it, with a path and at a moment that may be reported. What may be reported is a parameter, so that each
//! caller says where its leave comes from.
//!
//! The laws say by which rule an event is dropped, that reported events adjoin, that more may be reported after them, and that
//! they stay reported if more may be. Only definitions, laws and lemmas; nothing here runs.
#![tactic(auto)]

mod laws;

pub use laws::{
    fates_by_rules, fates_without_rules, told_events_adjoin, told_events_go_on,
    told_events_stay_told,
};

//! Whether a condition holds of an event's tree.
//!
//! Eight conditions: four ask texts, numbers and truth values at paths, one asks that something is there, and three
//! join conditions. A path without a value answers no question with yes. The truth value is a definition of
//! `specs/`, for conditions nested to any depth.
//!
//! A `Condition` is made of a rule of the settings, nested at most 16 deep. It reads the rule's paths and compiles its
//! patterns once, for as long as it lives, and none for an event; its truth values are those of the definition. A
//! contract speaks of it by the rules that it asks, which are the same after each call, also out of memory. The
//! laws say what the joined conditions are over the lists that settings hold, and what it means that a text is within
//! another. Nothing here reads settings.
#![tactic(auto)]

mod compiled;
mod condition;
mod field_test;
mod laws;
mod limits;
mod node;
mod rule_tests;
mod scalar;
mod within;

pub use condition::Condition;
pub use laws::{joined_conditions, questions_at_paths, text_within_text};

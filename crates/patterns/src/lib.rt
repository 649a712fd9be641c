//! What is a pattern, and what it matches.
//!
//! A text is a pattern if the grammar of Rust's crate `regex` reads it, nested no deeper than its limit.
//! A pattern of lines is matched on bytes of any kind, one of texts on whole characters. Whether a text is
//! one is a test that computes, in `specs/`, and a call; neither compiles anything. A compiled pattern is
//! seen as its text, and what it matches is what the grammar reads in that text. Nothing here touches a file.
#![tactic(auto)]

mod grammar;
mod line_pattern;
mod matcher;
mod text_pattern;

pub use grammar::{is_line_pattern, is_text_pattern};
pub use line_pattern::LinePattern;
pub use text_pattern::TextPattern;

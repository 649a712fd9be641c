//! Globs: which paths an input covers, what to list, and how deep.
//!
//! A glob is seen in contracts as its text. What a text means, which paths it covers, its faults,
//! its root and its depth are definitions of `specs/`. Nothing here touches a file.
#![tactic(auto)]

mod class;
mod cover;
mod error;
mod fault;
mod glob;
mod part;
mod parts;
mod root;
mod sign;

pub use error::GlobError;
pub use glob::Glob;

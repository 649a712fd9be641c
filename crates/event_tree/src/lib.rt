//! The event tree, and the plain data of the settings.
//!
//! An event is a `Tree`: contracts see it as one plain value, a list of trees as the list of their
//! values, and the fields of a map as pairs of a key and a value, in byte order of the keys and each
//! key once. What is at a field path, and the tree after a value is put there, taken away or
//! moved, are definitions of `specs/`; each call is proved equal to its definition, with its refusals
//! exactly when they hold, and every other path as before. The settings are data without rules of
//! their own: their ranges and forms are stated where they are read. Nothing here reads settings or
//! writes an event.
#![tactic(auto)]

mod condition_rule;
mod condition_rules;
mod errors;
mod field_path;
mod fields;
mod group_rule;
mod input_rule;
mod line_rule;
mod list;
mod output_rule;
mod processor_rule;
mod settings;
mod tree;
mod trees;

pub use condition_rule::{Bounds, BoundsList, ConditionRule, TextAt, TextsAt};
pub use condition_rules::ConditionRules;
pub use errors::{PathError, PutError, RenameError};
pub use field_path::FieldPath;
pub use fields::Fields;
pub use group_rule::{GroupRule, Side};
pub use input_rule::{IdentityRule, InputRule, Texts};
pub use line_rule::{LineRule, Terminator};
pub use list::ListOf;
pub use output_rule::{Hosts, OutputRule};
pub use processor_rule::{Pair, Pairs, ProcessorRule};
pub use settings::{InputRules, ProcessorRules, Settings};
pub use tree::Tree;
pub use trees::Trees;

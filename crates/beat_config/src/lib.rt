//! The settings: one TOML document, read whole.
//!
//! What a document says is a definition of `specs/`: each key with its default, range and form. What is wrong with it is a
//! list of faults, made key by key, and the fault that is reported is the first of them by kind and key. The code walks the
//! document once: `Noted` reads value after value, gives the default if one has a fault, and keeps the first fault that
//! it found; the settings are handed out only if it found none. So every function here says two things of its part of
//! the document: which value it gives, and which faults it noted.
#![tactic(auto)]

mod condition;
mod document;
mod duration;
mod host;
mod input;
mod laws;
mod member;
mod multiline;
mod names;
mod nesting;
mod noted;
mod number;
mod output;
mod pairs;
mod path;
mod processor;
mod read;
mod settings_error;
mod single;
mod table;
mod text;
mod times;
mod tree;

pub use laws::settings_or_one_first_fault;
pub use read::{MAX_SETTINGS, read_settings};
pub use settings_error::SettingsError;

//! How far each file is, beside a run: the rows of the registry and the files that a scan finds, joined by their keys, and
//! three texts of that.
//!
//! The registry is read by the choice between its areas that the run itself makes, and the scan is the run's. Nothing is
//! written: of both areas only reading calls are made, and each file that is opened for its key is closed again. What is
//! reported of each file, and each text, is a definition of `specs/`.
#![tactic(auto)]

mod by_key;
mod family;
mod joining;
mod json;
mod overview;
mod part;
mod progress;
mod prometheus;
mod registry;
mod scan;
mod settings;
mod showing;
mod state;
mod table;
mod totals;
mod words;

pub use overview::{Outside, Overview};
pub use progress::Progress;
pub use showing::{Format, show};
pub use state::State;
pub use words::{Asked, read_words};

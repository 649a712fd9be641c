//! How a run ended and what it prints: the report and the status line.
//!
//! The text of each line is a definition of `specs/`, and each call is proved equal to its definition.
//! Keys and paths of files are in it as JSON texts. A line is written part by part to a sink, so
//! the status line takes no memory; the report is spelled whole in memory.
#![tactic(auto)]

mod escape;
mod last_line;
mod page;
mod part;
mod passing;
mod status;
mod text;
mod write;

pub use last_line::status_line;
pub use passing::{Passing, Why};
pub use status::{Lack, Status};
pub use text::report_text;
pub use write::write_all;

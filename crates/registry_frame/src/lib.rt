//! The body of a registry record: a compact JSON list of operations, each in its one spelling.
//!
//! An operation sets the row of a key or takes it away. Its fields are in byte order of their names, without a space,
//! and a key or a path has the escapes of any JSON text of this repository. The text is a definition of `specs/`, and
//! each call is proved equal to it. The texts of keys and paths are written by `serde_json`, and bodies are read by `json`,
//! the reader below it: bytes that are not exactly the spelling of what they say are refused, whatever a JSON reader
//! accepts.
#![tactic(auto)]

mod body_error;
mod body_text;
mod laws;
mod operation;
mod reading;

pub use body_error::BodyError;
pub use body_text::{Front, body, front_body};
pub use laws::one_reading;
pub use operation::{MAX_OPERATION, operation_text, set_text};
pub use reading::read_body;

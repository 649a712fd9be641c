//! Container logs as plain lines: what a container wrote to its streams, of the file that a container runtime keeps.
//!
//! A line of the log is a part, whole or partial, of a line of one stream, by Kubernetes' CRI log format or by Docker's
//! json-file driver; Docker's objects are read by `serde_json`. For each stream that is kept, a longest row of partial
//! lines together with the stream's next line, which is not partial, is one of the container's own lines. Parts, joined
//! lines and the plain text of a log are definitions of `specs/`, each of whole lists of lines.
//!
//! A `Joiner` is given the lines of a log one by one, and reports what each is, exactly as the definition has it for
//! the lines before. `container_run` reads a source to its end and writes the plain text of its bytes, or a front of it
//! if it ends before; `Done` and `BadLines` say which lines are of no format. The laws say that each line of a stream
//! that is kept is a part of one joined line or waits, and that joined lines stay however the log goes on.
//!
//! Not promised: that `container_run` returns, and that a partial line at the end of a log is ever written.
#![tactic(auto)]

mod conversion;
mod cri;
mod docker;
mod fault;
mod format;
mod joiner;
mod laws;
mod limits;
mod part;
mod pending;
mod run;
mod spans;
mod status;
mod told;
mod words;
mod write;

pub use format::{Format, Keep, Stream};
pub use joiner::Joiner;
pub use laws::{each_line_once, joined_lines_stay};
pub use limits::{MAX_CONTENT, MAX_MESSAGE};
pub use run::container_run;
pub use spans::Spans;
pub use status::ContainerStatus;
pub use told::{Joined, Told};

use crate::format::Stream;
use crate::spans::Spans;
use wire_base::Blob;

/// One of the container's own lines.
#[derive(Debug, Drop)]
pub struct Joined {
    /// The lines of the log that are its parts, by their places.
    pub parts: Spans,
    pub stream: Stream,
    /// The first bytes of the parts' texts joined, at most `MAX_MESSAGE`.
    pub message: Blob,
}

/// What a line of the log is.
#[derive(Debug, Drop)]
pub enum Told {
    /// The last part of a joined line.
    Whole(Joined),
    /// A partial line; the joined line goes on.
    Waits,
    /// A line of a stream that is not kept.
    Other,
    /// A line that is not of the format.
    Malformed,
}

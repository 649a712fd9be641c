use wire_base::{Host, Text};

/// Where the receiver listens, and the file that it writes.
#[derive(Debug, Drop, PartialEq, Eq)]
pub struct SinkPlaces {
    pub host: Host,
    pub file: Text,
}

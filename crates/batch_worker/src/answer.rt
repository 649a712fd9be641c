use wire_base::Moment;

/// What a turn of a worker came to.
#[derive(Clone, Copy, Debug, PartialEq, Eq)]
pub enum WorkerTurn {
    /// A parcel was taken, a link made, a window begun, a byte sent or received, or a note posted.
    Worked,
    /// The queue was empty, and the worker has no parcel.
    Idle,
    /// The box was full.
    Held,
    /// Nothing came from the peer, which was not silent for too long yet.
    NotYet,
    /// The worker rests after a failure.
    Resting { until: Moment },
    /// The link was finished, or could not be made. The parcels that are not acknowledged wait for
    /// the next one.
    Failed(Failure),
}

/// Why a worker has no link.
#[derive(Clone, Copy, Debug, PartialEq, Eq)]
pub enum Failure {
    /// No connection could be made.
    Connect,
    /// A sending failed.
    Send,
    /// A receiving failed.
    Receive,
    /// The peer has closed the connection.
    Closed,
    /// The peer sent what is no acknowledgement of a window of this link, by the byte at this place
    /// of all that it sent over the link, from 0.
    Peer { at: u64 },
    /// Windows were out, and the peer was silent from `since` until `now`.
    TimedOut { since: Moment, now: Moment },
}

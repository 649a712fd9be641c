/// How the serving of one link ended.
#[derive(Clone, Copy, Debug, PartialEq, Eq)]
pub enum Served {
    /// The peer closed the connection, or it failed.
    Ended,
    /// An acknowledgement could not be sent.
    SendFault,
    /// A line could not be written.
    OutFault,
    /// What the peer sent is no frame, or not the frame that is owed; `at` is the place of the byte that shows it, counted
    /// from the first byte that was received; it saturates at 2^64 - 1.
    Bad { at: u64 },
    /// The bell rang.
    Stopped,
    NoMemory,
}

/// What one more byte of a peer says.
#[derive(Clone, Copy, Debug, PartialEq, Eq)]
pub enum Heard {
    /// The acknowledgement is not whole yet.
    More,
    /// A whole acknowledgement of nothing new: the peer is alive.
    Alive,
    /// Of the window that is asked, the frames up to `from` were acknowledged, and now those up to
    /// `to` are.
    Acked { from: u32, to: u32 },
    /// A fault of the peer, by the byte at this place of those that were given since the window was
    /// made or made again, from 0 on; the place saturates at 2^64 - 1.
    PeerFault { at: u64 },
}

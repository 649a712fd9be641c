ghost use Rattle.std.specs.Prelude.{◌≡◌, ◌<◌, ◌≤◌, length, min, take, MatchOption};
ghost use Rattle.outside_mem.specs.Talks.{IsAnswer, Acknowledges, Answers, AnswersPieces, IsNext, size_of};

use crate::front::put_front;
use crate::meet::{MeetLink, Meeting};
use lumber_frame::ack_frame;
use wire_base::Blob;

/// How many bytes an acknowledgement has.
const ACKNOWLEDGEMENT: usize = 6;

/// Bytes that a peer sends once this many whole windows were sent to it.
#[derive(Drop)]
pub struct MemPiece {
    pub windows: u64,
    pub bytes: Blob,
}

/// What a peer answers.
#[derive(Drop)]
pub enum MemTalk {
    /// An acknowledgement of each whole window.
    All,
    /// These pieces in their order, and then the end of the connection, if it closes.
    Pieces { pieces: Vec<MemPiece>, closes: bool },
    /// An acknowledgement of each whole window, once this peer has met the other one.
    Meet(MeetLink),
}

/// What a peer has for a buffer.
#[derive(Clone, Copy)]
pub(crate) enum Answer {
    /// This many bytes, which are in the front of the buffer.
    Bytes(usize),
    Closed,
    NotYet,
    Failed,
}

/// The piece that is to be received next, and how many of its bytes were.
#[derive(Clone, Copy)]
struct Next<'a> {
    piece: &'a MemPiece,
    at: usize,
    ghost within: { at < length piece.now.bytes },
}

impl MemTalk {
    /// Puts into the front of the buffer what is due after the whole windows of these counts were sent
    /// and this many bytes were received.
    pub(crate) fn give(&mut self, whole: &[u32], received: usize, into: &mut [u8]) -> Answer
        requires { 0 < length into.old }
        ensures fits { IsAnswer (length into.old) result }
        ensures answers { Answers self.old whole.now received into.new result }
    {
        match self {
            MemTalk::All => give_acknowledgement(whole, received, into),
            MemTalk::Pieces { pieces, closes } => {
                give_piece(pieces, *closes, whole.len() as u64, received, into)
            }
            MemTalk::Meet(peer) => match peer.call() {
                Meeting::Met => give_acknowledgement(whole, received, into),
                Meeting::NotYet => Answer::NotYet,
                Meeting::Failed => Answer::Failed,
            },
        }
    }
}

fn give_acknowledgement(whole: &[u32], received: usize, into: &mut [u8]) -> Answer
    requires { 0 < length into.old }
    ensures fits { IsAnswer (length into.old) result }
    ensures acknowledges { Acknowledges whole.now received into.new result }
{
    match whole.get(received / ACKNOWLEDGEMENT) {
        Some(count) => {
            let frame = ack_frame(*count);
            Answer::Bytes(put_front(&frame[received % ACKNOWLEDGEMENT..], into))
        }
        None => Answer::NotYet,
    }
}

fn give_piece(
    pieces: &[MemPiece],
    closes: bool,
    windows: u64,
    received: usize,
    into: &mut [u8],
) -> Answer
    requires { 0 < length into.old }
    ensures fits { IsAnswer (length into.old) result }
    ensures answers { AnswersPieces pieces.now closes windows received into.new result }
{
    match next_piece(pieces, received) {
        Some(next) if next.piece.windows <= windows => {
            Answer::Bytes(put_front(&next.piece.bytes.bytes()[next.at..], into))
        }
        Some(_) => Answer::NotYet,
        None if closes => Answer::Closed,
        None => Answer::NotYet,
    }
}

/// The first piece of which not all bytes are among the received ones.
fn next_piece<'a>(pieces: &'a [MemPiece], received: usize) -> Option<Next<'a>>
    ensures { MatchOption result
        (size_of pieces.now ≤ received)
        (λ next. IsNext pieces.now received next.piece.now next.at) }
{
    let mut at = received;
    for piece in pieces {
        let size = piece.bytes.bytes().len();
        if at < size {
            return Some(Next { piece, at });
        }
        at -= size;
    }
    None
}

use crate::Blob;

/// One piece of a talk over a link: what was sent by one call, or received by one.
#[derive(Debug, Drop, PartialEq, Eq)]
pub enum Piece {
    Out(Blob),
    In(Blob),
}

use wire_base::Blob;

pub const VERSION: u8 = b'2';

pub const WINDOW: u8 = b'W';

pub const JSON: u8 = b'J';

pub const ACK: u8 = b'A';

/// One frame of a talk.
#[derive(Debug, Drop, PartialEq, Eq)]
pub enum Frame {
    /// How many JSON frames follow.
    Window(u32),
    /// One event, by its place in the window, from 1.
    Json { sequence: u32, payload: Blob },
    /// The last JSON frame of the window that the peer has, 0 for none.
    Ack(u32),
}

/// A frame whose payload lies in the bytes that it was read from.
#[derive(Clone, Copy, Debug, PartialEq, Eq)]
pub enum FrameView<'a> {
    Window(u32),
    Json { sequence: u32, payload: &'a [u8] },
    Ack(u32),
}

/// What bytes begin with.
#[derive(Clone, Copy, Debug, PartialEq, Eq)]
pub enum FrameRead<'a> {
    /// A whole frame, of `used` bytes.
    Whole { frame: FrameView<'a>, used: usize },
    /// No frame, however the bytes go on; `at` is the place of the first byte or number that shows it.
    Bad { at: usize },
    /// Neither a whole frame nor a fault yet.
    Short,
}

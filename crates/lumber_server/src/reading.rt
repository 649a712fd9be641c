ghost use Rattle.std.specs.Prelude.{◌≡◌, ◌≤◌, ◌↔◌, IsTrue};
ghost use Rattle.lumber_frame.specs.Frame.{frame_of};
ghost use Rattle.lumber_server.specs.Next.{IsNext};
ghost use Rattle.lumber_server.specs.Received.{IsOwed, at_first, behind_frame};
ghost use Rattle.lumber_server.specs.Written.{is_answered};

use lumber_frame::{FrameRead, FrameView, read_frame};
use std::marker::Model;

/// One JSON frame in this many of a window is acknowledged.
const ANSWERED: u32 = 64;

/// Where the reading of a link is.
#[derive(Clone, Copy)]
pub(crate) struct Reading {
    /// How many JSON frames the last window has.
    count: u32,
    /// How many of them were read.
    taken: u32,
}

impl Model for Reading {
    ghost use Rattle.std.specs.Prelude.{◌≤◌, ◌^◌, ◌<◌};
    ghost use Rattle.lumber_server.specs.Received.{Standing};

    ghost Value = { Standing };

    ghost view = { λ r. record { count = r.count; taken = r.taken } };

    ghost invariant = { λ r. r.taken ≤ r.count };

    ghost inverse = { λ s. record { count = s.count; taken = s.taken } };
}

/// What bytes that were received begin with.
#[derive(Clone, Copy)]
pub(crate) enum Next<'a> {
    /// The frame that is owed, of `used` bytes.
    Owed { frame: FrameView<'a>, used: usize },
    /// The byte at this place shows a fault.
    Stop { at: usize },
    /// Neither yet.
    Short,
}

impl Reading {
    /// Before the first window.
    pub(crate) fn new() -> Reading
        ensures { result ≡ at_first }
    {
        Reading { count: 0, taken: 0 }
    }

    /// What the bytes begin with.
    pub(crate) fn next_in<'a>(&self, bytes: &'a [u8]) -> Next<'a>
        ensures { IsNext self.now bytes.now result }
    {
        match read_frame(bytes) {
            FrameRead::Whole { frame, used } => {
                if self.is_owed(&frame) {
                    Next::Owed { frame, used }
                } else {
                    Next::Stop { at: 0 }
                }
            }
            FrameRead::Bad { at } => Next::Stop { at: at },
            FrameRead::Short => Next::Short,
        }
    }

    /// Whether the frame is the one owed.
    fn is_owed(&self, frame: &FrameView<'_>) -> bool
        ensures { IsTrue result ↔ IsOwed self.now (frame_of frame.now) }
    {
        match *frame {
            FrameView::Window(_) => self.taken == self.count,
            FrameView::Json { sequence, .. } => {
                self.taken < self.count && sequence == self.taken + 1
            }
            FrameView::Ack(_) => false,
        }
    }

    /// Whether the last JSON frame that was read is to be acknowledged.
    pub(crate) fn is_answered(&self) -> bool
        ensures { result ≡ is_answered self.now }
    {
        self.taken % ANSWERED == 0 || self.taken == self.count
    }

    /// Goes on after a frame.
    pub(crate) fn pass(&mut self, frame: &FrameView<'_>)
        requires { IsOwed self.old (frame_of frame.now) }
        ensures { self.new ≡ behind_frame self.old (frame_of frame.now) }
    {
        match *frame {
            FrameView::Window(count) => {
                self.count = count;
                self.taken = 0;
            }
            FrameView::Json { sequence, .. } => self.taken = sequence,
            FrameView::Ack(_) => {}
        }
    }
}

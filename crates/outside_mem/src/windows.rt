ghost use Rattle.std.specs.Prelude.{◌<◌, ◌≤◌};

use lumber_frame::{FrameRead, FrameView, read_frame};
use std::alloc::{AllocError, Global};

/// How many bytes come before a payload.
const HEAD: usize = 10;

/// Counts the whole windows of sent bytes while these come, and keeps no payload.
///
/// A window is a window frame of a count of at least 1 and the JSON frames numbered from 1 to it. From the first
/// byte on that belongs to no window it counts nothing more.
#[derive(Clone, Copy)]
pub(crate) struct WindowReader {
    /// The front of a frame, of which `held` bytes have come.
    head: [u8; HEAD],
    held: usize,
    /// The bytes of a payload that are still to come.
    payload: u32,
    /// The count of the window that is open, and how many of its JSON frames have begun.
    count: u32,
    begun: u32,
    lost: bool,
    ghost room: { held < 10 },
}

impl WindowReader {
    pub(crate) fn new() -> WindowReader {
        WindowReader {
            head: [0; HEAD],
            held: 0,
            payload: 0,
            count: 0,
            begun: 0,
            lost: false,
        }
    }

    /// Reads further bytes, and gives the counts of the windows that they complete. If there is no
    /// memory for a count, some of the bytes may have been read.
    pub(crate) fn read(&mut self, alloc: Global, bytes: &[u8]) -> Result<Vec<u32>, AllocError> {
        let mut whole = Vec::new(alloc);
        for byte in bytes {
            if let Some(count) = self.step(*byte) {
                whole.push(count)?;
            }
        }
        Ok(whole)
    }

    /// Reads one byte, and gives the count of the window that it completes.
    fn step(&mut self, byte: u8) -> Option<u32> {
        if self.lost {
            return None;
        }
        if self.payload > 0 {
            self.payload -= 1;
            return self.completed();
        }
        let at = self.held;
        self.head[at] = byte;
        self.read_head(at + 1)
    }

    /// Looks at the first `held` bytes of a frame.
    fn read_head(&mut self, held: usize) -> Option<u32>
        requires { held ≤ 10 }
    {
        match read_frame(&self.head[..held]) {
            FrameRead::Whole {
                frame: FrameView::Window(count),
                ..
            } => self.open(count),
            FrameRead::Whole {
                frame: FrameView::Json { .. },
                ..
            } => self.take_json(),
            FrameRead::Short if held == HEAD => self.take_json(),
            FrameRead::Short => {
                self.held = held;
                None
            }
            _ => self.lose(),
        }
    }

    /// Opens a window, if none is open.
    fn open(&mut self, count: u32) -> Option<u32> {
        if count == 0 || self.begun < self.count {
            return self.lose();
        }
        self.held = 0;
        self.count = count;
        self.begun = 0;
        None
    }

    /// Takes the head of a JSON frame, if it has the next number of the window that is open.
    fn take_json(&mut self) -> Option<u32> {
        let [_, _, a, b, c, d, e, f, g, h] = self.head;
        if self.count <= self.begun || u32::from_be_bytes([a, b, c, d]) != self.begun + 1 {
            return self.lose();
        }
        self.held = 0;
        self.begun += 1;
        self.payload = u32::from_be_bytes([e, f, g, h]);
        self.completed()
    }

    /// The count of the open window, if its last payload has come.
    fn completed(&self) -> Option<u32> {
        if self.payload == 0 && self.begun == self.count {
            Some(self.count)
        } else {
            None
        }
    }

    fn lose(&mut self) -> Option<u32> {
        self.lost = true;
        None
    }
}

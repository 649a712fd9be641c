use std::fs::File;
use std::rt::Files;

/// What is opened only for its descriptor.
const RESERVED_PATH: &str = "/dev/null";

/// A descriptor that is kept for a later call, which then finds one also if files have taken all others.
#[derive(Drop)]
pub(crate) struct Reserve {
    kept: Option<File>,
}

impl Reserve {
    pub(crate) fn none() -> Reserve {
        Reserve { kept: None }
    }

    /// Keeps one, if the system has one left.
    pub(crate) fn keep(&mut self, rt: &impl Files<File = File>) {
        self.kept = File::open(rt, RESERVED_PATH).ok();
    }

    pub(crate) fn release(&mut self) {
        self.kept = None;
    }
}

ghost use Rattle.std.specs.Prelude.{◌≡◌, None};

use crate::counted::counted;
use crate::steady::write_some;
use outside::{Failed, Sink};
use std::io;

/// Standard output. A pipe that nobody reads is a write that failed.
#[derive(Drop)]
pub struct StdSink<R> {
    rt: R,
    faults: u64,
}

impl<R: Print> StdSink<R> {
    pub fn new(rt: R) -> StdSink<R>
        ensures tells_nothing { ⟦<StdSink<R> as Sink>⟧.written result ≡ None }
        ensures no_fault { ⟦<StdSink<R> as Sink>⟧.faults result ≡ 0 }
    {
        StdSink { rt, faults: 0 }
    }
}

impl<R: Print> Sink for StdSink<R> {
    ghost written = { λ _. None };

    ghost faults = { λ s. s.faults };

    fn write(&mut self, piece: &[u8]) -> Result<usize, Failed> {
        let answer = write_some(&mut io::writer(&self.rt), piece);
        counted(&mut self.faults, answer)
    }
}

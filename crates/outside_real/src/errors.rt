ghost use Rattle.std.specs.Prelude.{◌≡◌, ◌≤◌, length, IfOk, None};

use crate::counted::counted;
use outside::{Failed, Sink};
use std::io::{Eprint, ErrorKind};
use std::{io, str};

/// Standard error. Each piece is to be UTF-8.
#[derive(Drop)]
pub struct ErrorSink<R> {
    rt: R,
    faults: u64,
}

impl<R: Eprint> ErrorSink<R> {
    pub fn new(rt: R) -> ErrorSink<R>
        ensures tells_nothing { ⟦<ErrorSink<R> as Sink>⟧.written result ≡ None }
        ensures no_fault { ⟦<ErrorSink<R> as Sink>⟧.faults result ≡ 0 }
    {
        ErrorSink { rt, faults: 0 }
    }
}

impl<R: Eprint> Sink for ErrorSink<R> {
    ghost written = { λ _. None };

    ghost faults = { λ s. s.faults };

    fn write(&mut self, piece: &[u8]) -> Result<usize, Failed> {
        let answer = print_all(&self.rt, piece);
        counted(&mut self.faults, answer)
    }
}

fn print_all(rt: &impl Eprint, piece: &[u8]) -> io::Result<usize>
    ensures { IfOk result (λ count. count ≡ length piece.now) }
{
    match str::from_utf8(piece) {
        Ok(text) => {
            rt.eprint(text)?;
            Ok(piece.len())
        }
        Err(_) => Err(io::Error::from(ErrorKind::InvalidData)),
    }
}

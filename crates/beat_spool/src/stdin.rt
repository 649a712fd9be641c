ghost use Rattle.std.specs.Prelude.{◌≡◌, ◌≤◌, None, IfOk, length};

use outside::{Failed, Source};
use std::io;
use std::io::{ErrorKind, Read};

/// Standard input, from front to end; nothing of its content is known.
#[derive(Drop)]
pub struct StdinSource<I> {
    reader: I,
    faults: u64,
}

impl<I: Read + Drop> StdinSource<I> {
    pub fn new(reader: I) -> StdinSource<I>
        ensures tells_nothing { ⟦<StdinSource<I> as Source>⟧.left result ≡ None }
        ensures no_fault { ⟦<StdinSource<I> as Source>⟧.faults result ≡ 0 }
    {
        StdinSource { reader, faults: 0 }
    }
}

impl<I: Read + Drop> Source for StdinSource<I> {
    ghost left = { λ _. None };

    ghost faults = { λ s. s.faults };

    fn read(&mut self, into: &mut [u8]) -> Result<usize, Failed> {
        match read_some(&mut self.reader, into) {
            Ok(count) => Ok(count),
            Err(_) => {
                self.faults = self.faults.saturating_add(1);
                Err(Failed)
            }
        }
    }
}

/// Reads once, and again if a signal cut the call short.
fn read_some(reader: &mut impl Read, into: &mut [u8]) -> io::Result<usize>
    ensures { IfOk result (λ count. count ≤ length into.old) }
{
    for _ in 0..u64::MAX {
        match reader.read(into) {
            Err(error) if error.kind() == ErrorKind::Interrupted => {}
            answer => return answer,
        }
    }
    Err(io::Error::from(ErrorKind::Interrupted))
}

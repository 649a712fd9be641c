ghost use Rattle.std.specs.Prelude.{◌≡◌, None, IfOk};
ghost use Rattle.wire_base.specs.Ranges.{IsPlace};

use crate::counted::counted;
use crate::marks::{numbers_of, size_of};
use crate::steady::read_some_at;
use outside::{Failed, Tail};
use std::fs::{File, Metadata};
use std::io;

/// An opened file that is read while others write it.
#[derive(Drop)]
pub struct FileTail {
    file: File,
    native: Option<(u64, u64)>,
    pub(crate) faults: u64,
}

impl FileTail {
    pub(crate) fn new(file: File, found: &Metadata) -> FileTail
        ensures { result.faults ≡ 0 }
    {
        FileTail {
            file,
            native: numbers_of(found),
            faults: 0,
        }
    }
}

fn length_of(file: &File) -> io::Result<u64>
    ensures { IfOk result IsPlace }
{
    Ok(size_of(&file.metadata()?))
}

impl Tail for FileTail {
    ghost told = { λ _. None };

    ghost numbers = { λ t. t.native };

    ghost faults = { λ t. t.faults };

    fn native(&self) -> Option<(u64, u64)> {
        self.native
    }

    fn length(&mut self) -> Result<u64, Failed> {
        let answer = length_of(&self.file);
        counted(&mut self.faults, answer)
    }

    fn read_at(&mut self, at: u64, into: &mut [u8]) -> Result<usize, Failed> {
        let answer = read_some_at(&self.file, at, into);
        counted(&mut self.faults, answer)
    }
}

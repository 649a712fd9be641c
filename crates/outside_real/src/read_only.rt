ghost use Rattle.std.specs.Prelude.{◌≡◌, ◌+◌, ◌<◌, ◌≤◌, length, IfOk, None, OnOk};
ghost use Rattle.wire_base.specs.Ranges.{IsPlace};

use crate::area::{is_there, require_regular};
use crate::counted::counted;
use crate::marks::{changed_of, size_of};
use crate::steady::read_some_at;
use outside::{Disk, Failed};
use std::fs::File;
use std::io;
use std::io::ErrorKind;
use std::rt::Files;
use wire_base::{Moment, Text};

/// A file that is opened for reading only at the first call that finds it.
#[derive(Drop)]
struct Found {
    path: Text,
    file: Option<File>,
}

impl Found {
    /// `None` if nothing has the path.
    fn file(&mut self, rt: &impl Files<File = File>) -> io::Result<Option<&File>> {
        if self.file.is_none() && is_there(rt, self.path.as_str())? {
            let file = File::open(rt, self.path.as_str())?;
            require_regular(&file.metadata()?)?;
            self.file = Some(file);
        }
        Ok(self.file.as_ref())
    }

    fn changed(&mut self, rt: &impl Files<File = File>) -> io::Result<Option<Moment>> {
        match self.file(rt)? {
            Some(file) => Ok(Some(changed_of(&file.metadata()?))),
            None => Ok(None),
        }
    }

    fn length(&mut self, rt: &impl Files<File = File>) -> io::Result<u64>
        ensures { IfOk result IsPlace }
    {
        match self.file(rt)? {
            Some(file) => Ok(size_of(&file.metadata()?)),
            None => Ok(0),
        }
    }

    fn read(&mut self, rt: &impl Files<File = File>, at: u64, into: &mut [u8]) -> io::Result<usize>
        ensures within { IfOk result (λ count. count ≤ length into.old) }
        ensures in_range { IfOk result (λ count. 0 < count → IsPlace (at + count)) }
    {
        match self.file(rt)? {
            Some(file) => read_some_at(file, at, into),
            None => Ok(0),
        }
    }
}

/// One registry area that another program may have open: a regular file, opened for reading only and not locked. If
/// nothing has the path there is no byte. A call that would change it is a call that failed.
#[derive(Drop)]
pub struct ReadOnlyFile<R> {
    rt: R,
    found: Found,
    faults: u64,
}

impl<R: Files<File = File> + Drop> ReadOnlyFile<R> {
    /// Asks the system nothing yet.
    pub fn new(rt: R, path: Text) -> ReadOnlyFile<R>
        ensures tells_nothing { ⟦<ReadOnlyFile<R> as Disk>⟧.contents result ≡ None }
        ensures no_fault { ⟦<ReadOnlyFile<R> as Disk>⟧.faults result ≡ 0 }
    {
        ReadOnlyFile {
            rt,
            found: Found { path, file: None },
            faults: 0,
        }
    }
}

impl<R: Files<File = File>> ReadOnlyFile<R> {
    /// When the file was last changed; `None` if it is not there or the system does not give it.
    pub fn changed(&mut self) -> Option<Moment> {
        match self.found.changed(&self.rt) {
            Ok(Some(moment)) if 0 < moment.0 => Some(moment),
            _ => None,
        }
    }
}

impl<R: Files<File = File>> Disk for ReadOnlyFile<R> {
    ghost contents = { λ _. None };

    ghost images = { λ _ _. ⊥ };

    ghost moment = { λ _. 0 };

    ghost images_since = { λ _ _ _. ⊥ };

    ghost faults = { λ d. d.faults };

    ghost reads_as_an_image = { λ _. tt };

    ghost images_where_told = { λ _ _ _ image. absurd image };

    ghost counts_now = { λ _ _ _ _ image. image };

    ghost only_now = { λ _ _ image. image };

    fn len(&mut self) -> Result<u64, Failed> {
        let answer = self.found.length(&self.rt);
        counted(&mut self.faults, answer)
    }

    fn read(&mut self, at: u64, into: &mut [u8]) -> Result<usize, Failed> {
        let answer = self.found.read(&self.rt, at, into);
        counted(&mut self.faults, answer)
    }

    fn write_at(&mut self, _at: u64, _bytes: &[u8]) -> Result<(), Failed> {
        counted(&mut self.faults, refused())
    }

    fn cut(&mut self, _len: u64) -> Result<(), Failed> {
        counted(&mut self.faults, refused())
    }

    fn sync(&mut self) -> Result<(), Failed> {
        counted(&mut self.faults, refused())
    }
}

fn refused() -> io::Result<()>
    ensures { OnOk result ⊥ }
{
    Err(io::Error::from(ErrorKind::PermissionDenied))
}

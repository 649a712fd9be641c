ghost use Rattle.std.specs.Prelude.{◌≡◌, None};

use crate::area::Area;
use crate::counted::counted;
use outside::{Disk, Failed};
use std::fs::File;
use std::rt::Files;
use wire_base::Text;

/// One registry area: a regular file with a name in a folder. The first call that asks the system makes the
/// file with no byte, and its folder, if they are not there, and locks it for as long as the object is
/// there. What is no regular file, and a file that another has locked, are a call that failed.
#[derive(Drop)]
pub struct FileDisk<R> {
    rt: R,
    area: Area,
    faults: u64,
}

impl<R: Files<File = File> + Drop> FileDisk<R> {
    /// Asks the system nothing yet.
    pub fn new(rt: R, path: Text) -> FileDisk<R>
        ensures tells_nothing { ⟦<FileDisk<R> as Disk>⟧.contents result ≡ None }
        ensures no_fault { ⟦<FileDisk<R> as Disk>⟧.faults result ≡ 0 }
    {
        FileDisk {
            rt,
            area: Area::new(path),
            faults: 0,
        }
    }
}

impl<R: Files<File = File>> Disk for FileDisk<R> {
    ghost contents = { λ _. None };

    ghost images = { λ _ _. ⊥ };

    ghost moment = { λ _. 0 };

    ghost images_since = { λ _ _ _. ⊥ };

    ghost faults = { λ d. d.faults };

    ghost reads_as_an_image = { λ _. tt };

    ghost images_where_told = { λ _ _ _ image. absurd image };

    ghost counts_now = { λ _ _ _ _ image. image };

    ghost only_now = { λ _ _ image. image };

    fn len(&mut self) -> Result<u64, Failed> {
        let answer = self.area.length(&self.rt);
        counted(&mut self.faults, answer)
    }

    fn read(&mut self, at: u64, into: &mut [u8]) -> Result<usize, Failed> {
        let answer = self.area.read(&self.rt, at, into);
        counted(&mut self.faults, answer)
    }

    fn write_at(&mut self, at: u64, bytes: &[u8]) -> Result<(), Failed> {
        let answer = self.area.write(&self.rt, at, bytes);
        counted(&mut self.faults, answer)
    }

    fn cut(&mut self, len: u64) -> Result<(), Failed> {
        let answer = self.area.cut(&self.rt, len);
        counted(&mut self.faults, answer)
    }

    fn sync(&mut self) -> Result<(), Failed> {
        let answer = self.area.sync(&self.rt);
        counted(&mut self.faults, answer)
    }
}

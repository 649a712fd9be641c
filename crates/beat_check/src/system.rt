ghost use Rattle.std.specs.Prelude.{None};

use crate::limits::open_limit;
use crate::walk::skipped_by;
use crate::writable::write_refusal;
use findings::{Place, Skipped, System};
use glob_paths::Glob;
use std::alloc::Global;
use std::fs::File;
use std::io::ErrorKind;
use std::rt::Files;
use std::{fs, io};
use wire_base::{NoMemory, Text};

/// The system that the program runs on. Contracts know nothing of it.
#[derive(Drop)]
pub struct OwnSystem<R> {
    rt: R,
}

impl<R: Files<File = File> + Drop> OwnSystem<R> {
    pub fn new(rt: R) -> OwnSystem<R> {
        OwnSystem { rt }
    }
}

/// An error in the system's words.
pub(crate) fn words_of(alloc: Global, error: &io::Error) -> Result<Text, NoMemory> {
    Ok(Text::from_string(format!(in alloc; "{error}")?))
}

/// Whether the system says that nothing has the path.
pub(crate) fn is_absent(error: &io::Error) -> bool {
    matches!(error.kind(), ErrorKind::NotFound | ErrorKind::NotADirectory)
}

impl<R: Files<File = File>> System for OwnSystem<R> {
    ghost told = { λ _. None };

    fn place(&self, path: &Text) -> Place {
        match fs::metadata(&self.rt, path.as_str()) {
            Ok(found) if found.is_dir() => Place::Folder,
            Ok(_) => Place::Other,
            Err(error) if is_absent(&error) => Place::Nothing,
            Err(_) => Place::Other,
        }
    }

    fn skipped(&self, alloc: Global, glob: &Glob) -> Result<Vec<Skipped>, NoMemory> {
        skipped_by(&self.rt, alloc, glob)
    }

    fn refusal(&self, alloc: Global, path: &Text) -> Result<Option<Text>, NoMemory> {
        match File::open(&self.rt, path.as_str()) {
            Ok(_) => Ok(None),
            Err(error) => Ok(Some(words_of(alloc, &error)?)),
        }
    }

    fn write_refusal(&self, alloc: Global, folder: &Text) -> Result<Option<Text>, NoMemory> {
        write_refusal(&self.rt, alloc, folder)
    }

    fn open_limit(&self) -> Option<u64> {
        open_limit(&self.rt)
    }
}

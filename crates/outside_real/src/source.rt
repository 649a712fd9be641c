ghost use Rattle.std.specs.Prelude.{◌≡◌, ◌≤◌, length, None, IfOk};

use crate::counted::counted;
use crate::steady::read_some;
use outside::{Failed, Source};
use std::fs::File;
use std::io;
use std::rt::Files;
use wire_base::Text;

/// A file that is read from front to end, such as the settings file. It is opened at the first read;
/// one that is not there is a read that failed.
#[derive(Drop)]
pub struct FileSource<R> {
    rt: R,
    path: Text,
    file: Option<File>,
    faults: u64,
}

impl<R: Files<File = File>> FileSource<R> {
    /// Asks the system nothing yet.
    pub fn new(rt: R, path: Text) -> FileSource<R>
        ensures tells_nothing { ⟦<FileSource<R> as Source>⟧.left result ≡ None }
        ensures no_fault { ⟦<FileSource<R> as Source>⟧.faults result ≡ 0 }
    {
        FileSource {
            rt,
            path,
            file: None,
            faults: 0,
        }
    }
}

/// Reads on in the file, opened first if it is not open yet.
fn read_on(
    rt: &impl Files<File = File>,
    path: &Text,
    opened: &mut Option<File>,
    into: &mut [u8],
) -> io::Result<usize>
    ensures { IfOk result (λ count. count ≤ length into.old) }
{
    let mut file = match opened.take() {
        Some(file) => file,
        None => File::open(rt, path.as_str())?,
    };
    let answer = read_some(&mut file, into);
    *opened = Some(file);
    answer
}

impl<R: Files<File = File>> Source for FileSource<R> {
    ghost left = { λ _. None };

    ghost faults = { λ s. s.faults };

    fn read(&mut self, into: &mut [u8]) -> Result<usize, Failed> {
        let answer = read_on(&self.rt, &self.path, &mut self.file, into);
        counted(&mut self.faults, answer)
    }
}

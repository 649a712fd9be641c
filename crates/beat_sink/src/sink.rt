ghost use Rattle.std.specs.Prelude.{◌≡◌, ◌<◌, ◌≤◌, length, None, IfOk};

use outside::{Failed, Sink};
use std::fs::{File, OpenOptions};
use std::io;
use std::io::{ErrorKind, Write};
use std::rt::Files;
use wire_base::Text;

/// A file that is written anew from its beginning. At the first write, also at one of no bytes, it is made or opened,
/// locked, and only then emptied; if that fails, as when another receiver has it, so does the write.
#[derive(Drop)]
pub struct FileSink<R> {
    rt: R,
    path: Text,
    file: Option<File>,
    faults: u64,
}

impl<R: Files<File = File>> FileSink<R> {
    /// Asks the system nothing yet.
    pub fn new(rt: R, path: Text) -> FileSink<R>
        ensures tells_nothing { ⟦<FileSink<R> as Sink>⟧.written result ≡ None }
        ensures no_fault { ⟦<FileSink<R> as Sink>⟧.faults result ≡ 0 }
    {
        FileSink {
            rt,
            path,
            file: None,
            faults: 0,
        }
    }
}

/// Writes on in the file, made first if it is not open yet.
fn write_on(
    rt: &impl Files<File = File>,
    path: &Text,
    opened: &mut Option<File>,
    piece: &[u8],
) -> io::Result<usize>
    ensures within { IfOk result (λ count. count ≤ length piece.now) }
    ensures some { IfOk result (λ count. 0 < length piece.now → 0 < count) }
{
    let mut file = match opened.take() {
        Some(file) => file,
        None => emptied(rt, path)?,
    };
    let answer = write_some(&mut file, piece);
    *opened = Some(file);
    answer
}

/// The file, for this program only, without what it held. What is no regular file, as a device, holds nothing.
fn emptied(rt: &impl Files<File = File>, path: &Text) -> io::Result<File> {
    let mut options = OpenOptions::new();
    let file = options.write(true).create(true).open(rt, path.as_str())?;
    if file.metadata()?.is_file() {
        file.try_lock()?;
        file.set_len(0)?;
    }
    Ok(file)
}

/// Writes a front of the piece, again if a signal cut the call short; taking nothing of a nonempty piece is a failure.
fn write_some(writer: &mut impl Write, piece: &[u8]) -> io::Result<usize>
    ensures within { IfOk result (λ count. count ≤ length piece.now) }
    ensures some { IfOk result (λ count. 0 < length piece.now → 0 < count) }
{
    if piece.is_empty() {
        return Ok(0);
    }
    for _ in 0..u64::MAX {
        match writer.write(piece) {
            Ok(0) => return Err(io::Error::from(ErrorKind::WriteZero)),
            Err(error) if error.kind() == ErrorKind::Interrupted => {}
            answer => return answer,
        }
    }
    Err(io::Error::from(ErrorKind::Interrupted))
}

impl<R: Files<File = File>> Sink for FileSink<R> {
    ghost written = { λ _. None };

    ghost faults = { λ s. s.faults };

    fn write(&mut self, piece: &[u8]) -> Result<usize, Failed> {
        match write_on(&self.rt, &self.path, &mut self.file, piece) {
            Ok(count) => Ok(count),
            Err(_) => {
                self.faults = self.faults.saturating_add(1);
                Err(Failed)
            }
        }
    }
}

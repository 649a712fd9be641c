ghost use Rattle.std.specs.Prelude.{◌≡◌, ◌≤◌, [], All, None, IfOk, IfSome, IsErrOf};
ghost use Rattle.outside.specs.Counts.{next_count};

use crate::FileTail;
use crate::walk::{folder_error, is_absent, list_below};
use outside::{Entry, Folder, FolderError};
use std::alloc::Global;
use std::fs::File;
use std::rt::Files;
use std::{fs, io};
use wire_base::Text;

/// The folders of the machine. Links in a root's own path are the system's; below it none is followed.
#[derive(Drop)]
pub struct DirFolder<R> {
    rt: R,
    open_tails: u64,
    faults: u64,
}

impl<R: Files<File = File>> DirFolder<R> {
    pub fn new(rt: R) -> DirFolder<R>
        ensures tells_nothing { ⟦<DirFolder<R> as Folder>⟧.told result ≡ None }
        ensures no_open_tail { ⟦<DirFolder<R> as Folder>⟧.open_tails result ≡ 0 }
        ensures no_fault { ⟦<DirFolder<R> as Folder>⟧.faults result ≡ 0 }
    {
        DirFolder {
            rt,
            open_tails: 0,
            faults: 0,
        }
    }
}

/// Counts a fault if the answer is that the folder failed.
fn counted_failure<T>(faults: &mut u64, answer: Result<T, FolderError>) -> Result<T, FolderError>
    ensures same { result ≡ answer }
    ensures never_falls { faults.old ≤ faults.new }
    ensures rose { IsErrOf answer FolderError.Failed → faults.new ≡ next_count faults.old }
{
    if let Err(FolderError::Failed) = &answer {
        *faults = faults.saturating_add(1);
    }
    answer
}

/// Opens the regular file that has this path itself, and not by a symbolic link.
fn open_regular(rt: &impl Files<File = File>, path: &Text) -> io::Result<Option<FileTail>>
    ensures { IfOk result (λ found. IfSome found (λ tail. tail.faults ≡ 0)) }
{
    if !fs::symlink_metadata(rt, path.as_str())?.is_file() {
        return Ok(None);
    }
    let file = File::open(rt, path.as_str())?;
    let found = file.metadata()?;
    if !found.is_file() {
        return Ok(None);
    }
    Ok(Some(FileTail::new(file, &found)))
}

/// `None` if nothing has the path, or what has it is no regular file.
fn find_regular(rt: &impl Files<File = File>, path: &Text) -> Result<Option<FileTail>, FolderError>
    ensures { IfOk result (λ found. IfSome found (λ tail. tail.faults ≡ 0)) }
{
    match open_regular(rt, path) {
        Ok(found) => Ok(found),
        Err(error) if is_absent(error.kind()) => Ok(None),
        Err(error) => Err(folder_error(&error)),
    }
}

impl<R: Files<File = File>> Folder for DirFolder<R> {
    type Tail = FileTail;

    ghost told = { λ _. None };

    ghost states = { λ _. [] };

    ghost present = { λ _. [] };

    ghost open_tails = { λ f. f.open_tails };

    ghost faults = { λ f. f.faults };

    fn list(&mut self, alloc: Global, root: &Text, depth: u32) -> Result<Vec<Entry>, FolderError> {
        let answer = list_below(&self.rt, alloc, root, depth);
        counted_failure(&mut self.faults, answer)
    }

    fn open(&mut self, _alloc: Global, path: &Text) -> Result<Option<FileTail>, FolderError> {
        let found = counted_failure(&mut self.faults, find_regular(&self.rt, path))?;
        if found.is_some() {
            self.open_tails = self.open_tails.saturating_add(1);
        }
        Ok(found)
    }

    fn close(&mut self, tail: FileTail) {
        self.open_tails = self.open_tails.saturating_sub(1);
        self.faults = self.faults.saturating_add(tail.faults);
    }
}

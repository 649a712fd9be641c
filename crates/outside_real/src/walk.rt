ghost use Rattle.std.specs.Prelude.{◌≡◌, All, IfOk};
ghost use Rattle.outside.specs.Folders.{IsListable};
ghost use Rattle.wire_base.specs.Ranges.{IsPath};

use crate::marks::{changed_of, numbers_of, size_of};
use outside::{Entry, FolderError};
use std::alloc::Global;
use std::fs::{DirEntry, Metadata};
use std::io::ErrorKind;
use std::rt::Files;
use std::{fs, io, mem};
use wire_base::{MAX_PATH, Text};

/// Whether the system says that nothing has the path.
pub(crate) fn is_absent(kind: ErrorKind) -> bool {
    matches!(kind, ErrorKind::NotFound | ErrorKind::NotADirectory)
}

/// What an error of std is to a folder.
pub(crate) fn folder_error(error: &io::Error) -> FolderError {
    match error.kind() {
        ErrorKind::OutOfMemory => FolderError::NoMemory,
        _ => FolderError::Failed,
    }
}

/// Skips what is not there any more and what cannot be named.
fn pass_over(error: &io::Error) -> Result<(), FolderError> {
    let kind = error.kind();
    if is_absent(kind) || kind == ErrorKind::InvalidFilename {
        Ok(())
    } else {
        Err(folder_error(error))
    }
}

/// What a walk down from a root has found so far.
#[derive(Drop)]
struct Walk {
    alloc: Global,
    entries: Vec<Entry>,
    /// Folders that are still to be read, all of one depth.
    folders: Vec<Text>,
    ghost listable: { All IsListable entries.items },
}

impl Walk {
    /// Keeps a regular file as an entry, and a folder for later.
    fn keep(&mut self, path: &str, found: &Metadata) -> Result<(), FolderError> {
        if found.is_dir() {
            self.folders.push(named(self.alloc, path)?)?;
        } else if found.is_file() && path.len() <= MAX_PATH {
            self.entries.push(entry_of(self.alloc, path, found)?)?;
        }
        Ok(())
    }

    /// Keeps what an entry of a folder is; symbolic links are not followed.
    fn look_at(&mut self, entry: &DirEntry<impl Files>) -> Result<(), FolderError> {
        match entry.metadata() {
            Ok(metadata) => self.keep(entry.path().as_str(), &metadata),
            Err(error) => pass_over(&error),
        }
    }

    /// Looks at what a folder has.
    fn read_folder(&mut self, rt: &impl Files, folder: &Text) -> Result<(), FolderError> {
        let listing = match fs::read_dir(&(rt, self.alloc), folder.as_str()) {
            Ok(listing) => listing,
            Err(error) => return pass_over(&error),
        };
        for found in listing {
            match found {
                Ok(entry) => self.look_at(&entry)?,
                Err(error) => pass_over(&error)?,
            }
        }
        Ok(())
    }

    /// Reads the folders of this depth, and so finds those of the next.
    fn read_depth(&mut self, rt: &impl Files) -> Result<(), FolderError> {
        let folders = mem::replace(&mut self.folders, Vec::new(self.alloc));
        for folder in folders {
            self.read_folder(rt, &folder)?;
        }
        Ok(())
    }

    /// Reads down to a depth, or as far as there are folders.
    fn read_depths(&mut self, rt: &impl Files, depth: u32) -> Result<(), FolderError> {
        for _ in 0..depth {
            if self.folders.is_empty() {
                break;
            }
            self.read_depth(rt)?;
        }
        Ok(())
    }
}

fn named(alloc: Global, path: &str) -> Result<Text, FolderError>
    ensures { IfOk result (λ text. text ≡ path.now) }
{
    Ok(Text::from_string(String::from_str(alloc, path)?))
}

fn entry_of(alloc: Global, path: &str, found: &Metadata) -> Result<Entry, FolderError>
    requires { IsPath path.now }
    ensures { IfOk result IsListable }
{
    Ok(Entry {
        path: named(alloc, path)?,
        size: size_of(found),
        native: numbers_of(found),
        changed: changed_of(found),
    })
}

/// The regular files at most `depth` path parts below `root`. One folder is open at a time.
pub(crate) fn list_below(
    rt: &impl Files,
    alloc: Global,
    root: &Text,
    depth: u32,
) -> Result<Vec<Entry>, FolderError>
    ensures { IfOk result (λ entries. All IsListable entries.items) }
{
    let mut walk = Walk {
        alloc,
        entries: Vec::new(alloc),
        folders: Vec::new(alloc),
    };
    walk.folders.push(root.copy(alloc)?)?;
    walk.read_depths(rt, depth)?;
    Ok(walk.entries)
}

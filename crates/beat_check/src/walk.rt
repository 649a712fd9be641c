use crate::system::{is_absent, words_of};
use findings::{Skipped, Why};
use glob_paths::Glob;
use std::alloc::Global;
use std::fs::{DirEntry, Metadata};
use std::io::ErrorKind;
use std::rt::Files;
use std::{fs, io, mem};
use wire_base::{NoMemory, Text};

/// What a walk down from the root of a glob has found so far.
#[derive(Drop)]
struct Walk {
    alloc: Global,
    skipped: Vec<Skipped>,
    /// Folders that are still to be read, all of one depth.
    folders: Vec<Text>,
}

impl Walk {
    fn skip(&mut self, path: &str, why: Why) -> Result<(), NoMemory> {
        let path = Text::from_string(String::from_str(self.alloc, path)?);
        self.skipped.push(Skipped { path, why })?;
        Ok(())
    }

    /// Keeps that something cannot be read; what is not there any more is passed over.
    fn skip_unreadable(&mut self, path: &str, error: &io::Error) -> Result<(), NoMemory> {
        match error.kind() {
            ErrorKind::OutOfMemory => Err(NoMemory),
            _ if is_absent(error) => Ok(()),
            _ => {
                let reason = words_of(self.alloc, error)?;
                self.skip(path, Why::Unreadable { reason })
            }
        }
    }

    /// Keeps a folder for later, and a symbolic link that the glob covers, or that hides a folder within its reach.
    fn keep(
        &mut self,
        rt: &impl Files,
        glob: &Glob,
        path: &str,
        found: &Metadata,
        is_last: bool,
    ) -> Result<(), NoMemory> {
        if found.is_dir() {
            let folder = Text::from_string(String::from_str(self.alloc, path)?);
            self.folders.push(folder)?;
            return Ok(());
        }
        if !found.is_symlink() {
            return Ok(());
        }
        if glob.covers(path.as_bytes()) || (!is_last && leads_to_folder(rt, path)) {
            return self.skip(path, Why::Link);
        }
        Ok(())
    }

    fn look_at(
        &mut self,
        rt: &impl Files,
        glob: &Glob,
        entry: &DirEntry<impl Files>,
        is_last: bool,
    ) -> Result<(), NoMemory> {
        let path = entry.path();
        match entry.metadata() {
            Ok(found) => self.keep(rt, glob, path.as_str(), &found, is_last),
            Err(error) => self.skip_unreadable(path.as_str(), &error),
        }
    }

    /// Looks at what a folder has.
    fn read_folder(
        &mut self,
        rt: &impl Files,
        glob: &Glob,
        folder: &Text,
        is_last: bool,
    ) -> Result<(), NoMemory> {
        let listing = match fs::read_dir(&(rt, self.alloc), folder.as_str()) {
            Ok(listing) => listing,
            Err(error) => return self.skip_unreadable(folder.as_str(), &error),
        };
        for found in listing {
            match found {
                Ok(entry) => self.look_at(rt, glob, &entry, is_last)?,
                Err(error) if error.kind() == ErrorKind::InvalidFilename => {
                    self.skip(folder.as_str(), Why::NoText)?;
                }
                Err(error) => self.skip_unreadable(folder.as_str(), &error)?,
            }
        }
        Ok(())
    }

    /// Reads the folders of this depth, and so finds those of the next.
    fn read_depth(&mut self, rt: &impl Files, glob: &Glob, is_last: bool) -> Result<(), NoMemory> {
        let folders = mem::replace(&mut self.folders, Vec::new(self.alloc));
        for folder in folders {
            self.read_folder(rt, glob, &folder, is_last)?;
        }
        Ok(())
    }
}

fn leads_to_folder(rt: &impl Files, path: &str) -> bool {
    match fs::metadata(rt, path) {
        Ok(found) => found.is_dir(),
        Err(_) => false,
    }
}

/// What lies within the reach of the glob and is not shipped: each symbolic link that it covers or that leads to a folder on
/// its way, the folder of each name that is not UTF-8, and what cannot be looked at. One folder is open at a time.
pub(crate) fn skipped_by(
    rt: &impl Files,
    alloc: Global,
    glob: &Glob,
) -> Result<Vec<Skipped>, NoMemory> {
    let mut walk = Walk {
        alloc,
        skipped: Vec::new(alloc),
        folders: Vec::new(alloc),
    };
    walk.folders.push(glob.root().copy(alloc)?)?;
    for level in 0..glob.depth() {
        if walk.folders.is_empty() {
            break;
        }
        walk.read_depth(rt, glob, level + 1 == glob.depth())?;
    }
    Ok(walk.skipped)
}

use crate::system::words_of;
use std::alloc::Global;
use std::fs::{File, Metadata, OpenOptions};
use std::io::ErrorKind;
use std::os::unix::fs::MetadataExt;
use std::path::Path;
use std::rt::Files;
use std::{fs, io};
use wire_base::{NoMemory, Text};

/// What shows the process's user and group: its own folder is theirs.
const PROCESS: &str = "/proc/self";

/// The bits of a mode that let its owner, its group and others write.
const OWNER_WRITES: u32 = 0o200;

const GROUP_WRITES: u32 = 0o020;

const OTHERS_WRITE: u32 = 0o002;

/// Why the registry of the folder cannot be written; `None` if it can, as far as that shows without a write.
pub(crate) fn write_refusal(
    rt: &impl Files<File = File>,
    alloc: Global,
    folder: &Text,
) -> Result<Option<Text>, NoMemory> {
    for name in ["/registry.a", "/registry.b"] {
        let mut path = String::from_str(alloc, folder.as_str())?;
        path.push_str(name)?;
        if let Err(error) = try_area(rt, path.as_str(), folder.as_str()) {
            return Ok(Some(words_of(alloc, &error)?));
        }
    }
    Ok(None)
}

/// Opens a registry file for writing, if it is there, and closes it; otherwise looks whether it can be made.
fn try_area(rt: &impl Files<File = File>, path: &str, folder: &str) -> io::Result<()> {
    match OpenOptions::new().read(true).write(true).open(rt, path) {
        Ok(_) => Ok(()),
        Err(error) if error.kind() == ErrorKind::NotFound => try_folder(rt, folder),
        Err(error) => Err(error),
    }
}

/// Looks whether something can be made in the folder or, if it is absent, in the first one above it that is there.
fn try_folder(rt: &impl Files<File = File>, folder: &str) -> io::Result<()> {
    let mut path = Path::new(folder);
    for _ in 0..folder.len() {
        match fs::metadata(rt, named(path)) {
            Ok(found) => return require_writable(rt, &found),
            Err(error) if error.kind() == ErrorKind::NotFound => {}
            Err(error) => return Err(error),
        }
        match path.parent() {
            Some(parent) => path = parent,
            None => break,
        }
    }
    Ok(())
}

/// The empty path stands for the folder that the program runs in.
fn named(path: Path<'_>) -> &str {
    match path.as_str() {
        "" => ".",
        path => path,
    }
}

/// Fails if the bits of the mode show that the process cannot write there. The user 0 can; and of a group that the process
/// has beside its first one nothing is known here, so a folder that its group may write counts as writable.
fn require_writable(rt: &impl Files<File = File>, found: &Metadata) -> io::Result<()> {
    if !found.is_dir() {
        return Err(io::Error::from(ErrorKind::NotADirectory));
    }
    let Ok(process) = fs::metadata(rt, PROCESS) else {
        return Ok(());
    };
    let bits = if found.uid() == process.uid() {
        OWNER_WRITES
    } else if found.gid() == process.gid() {
        GROUP_WRITES
    } else {
        GROUP_WRITES | OTHERS_WRITE
    };
    if process.uid() == 0 || found.mode() & bits != 0 {
        Ok(())
    } else {
        Err(io::Error::from(ErrorKind::PermissionDenied))
    }
}

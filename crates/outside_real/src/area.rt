ghost use Rattle.std.specs.Prelude.{◌+◌, ◌<◌, ◌≤◌, length, IfOk, OnOk};
ghost use Rattle.outside.specs.DiskImages.{reach};
ghost use Rattle.wire_base.specs.Ranges.{IsPlace};

use crate::marks::size_of;
use crate::reserve::Reserve;
use crate::steady::read_some_at;
use std::fs::{File, Metadata, OpenOptions};
use std::io::ErrorKind;
use std::os::unix::fs::FileExt;
use std::path::Path;
use std::rt::Files;
use std::{fs, io};
use wire_base::{MAX_PLACE, Text};

/// The file of a registry area; from the first call that asks the system on it is open and locked.
#[derive(Drop)]
pub(crate) struct Area {
    path: Text,
    file: Option<File>,
    /// How many folders this area made: its own, and those above it that were not there.
    made_folders: usize,
    /// Whether the file's name in its folder outlasts a crash.
    name_synced: bool,
    /// For the folder, which is opened to sync the name.
    reserve: Reserve,
}

impl Area {
    pub(crate) fn new(path: Text) -> Area {
        Area {
            path,
            file: None,
            made_folders: 0,
            name_synced: false,
            reserve: Reserve::none(),
        }
    }

    /// The folder of the file; the empty path stands for the one that the program runs in.
    fn folder(&self) -> Path<'_> {
        match Path::new(self.path.as_str()).parent() {
            Some(folder) => folder,
            None => Path::new(""),
        }
    }

    /// The file, opened if it is not open yet.
    fn file(&mut self, rt: &impl Files<File = File>) -> io::Result<&File> {
        if self.file.is_none() {
            self.file = Some(self.open(rt)?);
            self.reserve.keep(rt);
        }
        match &self.file {
            Some(file) => Ok(file),
            None => Err(io::Error::from(ErrorKind::NotFound)),
        }
    }

    /// Opens the file, made if nothing has its path, and locks it. Two areas that find nothing there at
    /// once do not both make it; a link to nothing is not followed.
    fn open(&mut self, rt: &impl Files<File = File>) -> io::Result<File> {
        let mut options = OpenOptions::new();
        options.read(true).write(true);
        if !is_there(rt, self.path.as_str())? {
            self.make_folder(rt)?;
            options.create_new(true);
        }
        let file = options.open(rt, self.path.as_str())?;
        require_regular(&file.metadata()?)?;
        file.try_lock()?;
        Ok(file)
    }

    fn make_folder(&mut self, rt: &impl Files<File = File>) -> io::Result<()> {
        let missing = count_missing(rt, self.folder());
        if 0 < missing {
            self.made_folders = self.made_folders.max(missing);
            fs::create_dir_all(rt, self.folder())?;
        }
        Ok(())
    }

    pub(crate) fn length(&mut self, rt: &impl Files<File = File>) -> io::Result<u64>
        ensures { IfOk result IsPlace }
    {
        Ok(size_of(&self.file(rt)?.metadata()?))
    }

    pub(crate) fn read(
        &mut self,
        rt: &impl Files<File = File>,
        at: u64,
        into: &mut [u8],
    ) -> io::Result<usize>
        ensures within { IfOk result (λ count. count ≤ length into.old) }
        ensures in_range { IfOk result (λ count. 0 < count → IsPlace (at + count)) }
    {
        read_some_at(self.file(rt)?, at, into)
    }

    /// Writes all of the bytes; a write of none asks the system nothing.
    pub(crate) fn write(
        &mut self,
        rt: &impl Files<File = File>,
        at: u64,
        bytes: &[u8],
    ) -> io::Result<()>
        ensures { OnOk result (IsPlace (reach at (length bytes.now))) }
    {
        if bytes.is_empty() {
            return Ok(());
        }
        if MAX_PLACE.saturating_sub(at) < bytes.len() as u64 {
            return Err(io::Error::from(ErrorKind::FileTooLarge));
        }
        self.file(rt)?.write_all_at(bytes, at)
    }

    /// Looks at the length first: a shorter file stays as it is.
    pub(crate) fn cut(&mut self, rt: &impl Files<File = File>, len: u64) -> io::Result<()> {
        let file = self.file(rt)?;
        if len < file.metadata()?.len() {
            file.set_len(len)?;
        }
        Ok(())
    }

    /// Makes the bytes outlast a crash, and at the first time the file's name, too.
    pub(crate) fn sync(&mut self, rt: &impl Files<File = File>) -> io::Result<()> {
        self.file(rt)?.sync_all()?;
        if !self.name_synced {
            self.reserve.release();
            self.sync_names(rt)?;
            self.name_synced = true;
        }
        Ok(())
    }

    /// Syncs the folder that has the file's name, and each that has the name of a folder made here. Others
    /// need not be readable.
    fn sync_names(&self, rt: &impl Files<File = File>) -> io::Result<()> {
        let folders = self.folder().ancestors();
        for folder in folders.take(self.made_folders.saturating_add(1)) {
            sync_folder(rt, folder)?;
        }
        Ok(())
    }
}

/// Whether a regular file has the path. It is asked before the file is opened, since opening a pipe or a
/// device may wait.
pub(crate) fn is_there(rt: &impl Files<File = File>, path: &str) -> io::Result<bool> {
    match fs::metadata(rt, path) {
        Ok(found) => {
            require_regular(&found)?;
            Ok(true)
        }
        Err(error) if error.kind() == ErrorKind::NotFound => Ok(false),
        Err(error) => Err(error),
    }
}

pub(crate) fn require_regular(found: &Metadata) -> io::Result<()> {
    if found.is_file() {
        Ok(())
    } else {
        Err(io::Error::from(ErrorKind::InvalidInput))
    }
}

/// How many folders of this path are not there, from its end on.
fn count_missing(rt: &impl Files<File = File>, folder: Path<'_>) -> usize {
    let mut missing = 0usize;
    for above in folder.ancestors() {
        if fs::exists(rt, above).unwrap_or(true) {
            break;
        }
        missing = missing.saturating_add(1);
    }
    missing
}

/// The empty path stands for the folder that the program runs in.
fn sync_folder(rt: &impl Files<File = File>, folder: Path<'_>) -> io::Result<()> {
    let path = if folder.as_str().is_empty() {
        "."
    } else {
        folder.as_str()
    };
    File::open(rt, path)?.sync_all()
}

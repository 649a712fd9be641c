ghost use Rattle.std.specs.Prelude.{◌≡◌};
ghost use Rattle.file_progress.specs.Prometheus.{help_of, kind_of, name_of, value_in};

use crate::Progress;

/// What is reported to Prometheus; the first four of each file.
#[derive(Clone, Copy)]
pub(crate) enum Family {
    FileBehind,
    FileOffset,
    FileSize,
    FileRestarts,
    Files,
    Behind,
    Generation,
    Written,
}

impl Family {
    pub(crate) fn name(self) -> &'static [u8]
        ensures { result.now ≡ name_of self }
    {
        match self {
            Family::FileBehind => b"beat_file_behind_bytes",
            Family::FileOffset => b"beat_file_offset_bytes",
            Family::FileSize => b"beat_file_size_bytes",
            Family::FileRestarts => b"beat_file_restarts_total",
            Family::Files => b"beat_files",
            Family::Behind => b"beat_behind_bytes",
            Family::Generation => b"beat_registry_generation",
            Family::Written => b"beat_registry_written_timestamp_seconds",
        }
    }

    pub(crate) fn help(self) -> &'static [u8]
        ensures { result.now ≡ help_of self }
    {
        match self {
            Family::FileBehind =>
                b"Bytes of the file that are neither acknowledged nor dropped yet.",
            Family::FileOffset => b"Place in the file up to which all is acknowledged or dropped.",
            Family::FileSize => b"Size of the file.",
            Family::FileRestarts => b"How often the file was begun again from its start.",
            Family::Files => b"Files by how they and their rows go together.",
            Family::Behind => b"Bytes of all files that are neither acknowledged nor dropped yet.",
            Family::Generation => b"Generation of the registry area that is used.",
            Family::Written => b"When the registry was last written, in Unix time.",
        }
    }

    pub(crate) fn kind(self) -> &'static [u8]
        ensures { result.now ≡ kind_of self }
    {
        match self {
            Family::FileRestarts => b"counter",
            _ => b"gauge",
        }
    }

    /// What a file has in a family of files.
    pub(crate) fn value(self, one: &Progress) -> Option<u64>
        ensures { result ≡ value_in self one.now }
    {
        match self {
            Family::FileBehind => one.behind,
            Family::FileOffset => Some(one.offset),
            Family::FileSize => one.size,
            Family::FileRestarts => Some(u64::from(one.epoch)),
            Family::Files | Family::Behind | Family::Generation | Family::Written => None,
        }
    }
}

use crate::globs::GlobAsked;
use crate::hosts::Trial;
use crate::{Place, Skipped};
use prospect::Listed;
use wire_base::Text;

/// What is seen of one glob.
#[derive(Drop)]
pub struct GlobSeen {
    pub asked: GlobAsked,
    /// How many files it finds; `None` if a folder could not be listed.
    pub files: Option<u64>,
    /// What has the path of its root.
    pub root: Place,
    /// What has the path that the glob spells.
    pub spelled: Place,
    pub skipped: Vec<Skipped>,
}

/// A file that cannot be opened for reading.
#[derive(Drop)]
pub struct Unread {
    pub path: Text,
    pub refusal: Text,
}

/// What is seen of the files that are found.
#[derive(Drop)]
pub struct FilesSeen {
    pub globs: Vec<GlobSeen>,
    /// How many files are found.
    pub files: u64,
    pub unread: Vec<Unread>,
    /// Those that are too small for their fingerprints.
    pub small: Vec<Listed>,
    /// Those with the key of a file before them.
    pub doubled: Vec<Listed>,
    /// Whether a folder could not be listed, or a file not be read.
    pub failed: bool,
}

/// What a check sees.
#[derive(Drop)]
pub struct Seen {
    pub files: FilesSeen,
    pub open_limit: Option<u64>,
    /// Why the registry cannot be written.
    pub write_refusal: Option<Text>,
    /// The hosts that were tried.
    pub trials: Vec<Trial>,
}

ghost use Rattle.std.specs.Prelude.{◌≡◌, All};
ghost use Rattle.outside_mem.specs.MemFolders.{listed_moment};

use crate::folder::MemFolder;
use outside::Folder;

/// A listing shows each file with the moment of change that was set for its path. A law; it computes
/// nothing.
pub fn told_moments_are_listed(folder: &MemFolder)
    ensures { All (λ one. one.entry.changed ≡ listed_moment folder.now one.entry.path)
        (⟦<MemFolder as Folder>⟧.present folder.now) }
{}

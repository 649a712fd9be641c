ghost use Rattle.std.specs.Prelude.{◌≡◌, ◌≢◌, ◌↔◌, ◌⊎◌, Option, Some, None, IsTrue, IfOk, IfErr, slice_get};
ghost use Rattle.wire_base.specs.Path.{parts_of, folder_parts, IsBelow};
ghost use Rattle.glob_paths.specs.Cover.{Covers};
ghost use Rattle.glob_paths.specs.Fault.{fault_of};
ghost use Rattle.glob_paths.specs.Root.{root_of, depth_of, IsWithin, HasNames};
ghost use Rattle.glob_paths.specs.declared.error.GlobError.TheVariants.{NoMemory};

use crate::cover::parts_cover;
use crate::fault::faultless_parts;
use crate::{GlobError, root};
use std::alloc::Global;
use std::marker::Model;
use std::str;
use wire_base::Text;

/// A pattern of absolute paths, seen as its text.
#[derive(Debug, Drop)]
pub struct Glob {
    text: Text,
    root: Text,
    depth: u32,
}

impl Model for Glob {
    ghost use Rattle.std.specs.Prelude.{◌≡◌, List, ℕ, None};
    ghost use Rattle.glob_paths.specs.Fault.{fault_of};
    ghost use Rattle.glob_paths.specs.Root.{root_of, depth_of};

    ghost Value = { List ℕ };

    ghost view = { λ g. g.text };

    ghost invariant = { λ g. (fault_of g.text ≡ None) × (g.root ≡ root_of g.text) × (g.depth ≡ depth_of g.text) };
}

impl Glob {
    /// The glob of a text, or the first fault from the left. `NoMemory` means out of
    /// memory, or a depth above 4,294,967,295.
    pub fn read(alloc: Global, text: &Text) -> Result<Glob, GlobError>
        ensures of_the_text { IfOk result (λ glob. glob ≡ text.now) }
        ensures without_fault { IfOk result (λ _. fault_of text.now ≡ None) }
        ensures first_fault { IfErr result (λ refusal.
            (fault_of text.now ≡ Some refusal) ⊎ ((refusal ≡ NoMemory) × (fault_of text.now ≡ None))) }
    {
        let parts = faultless_parts(text.as_str())?;
        let (folder, others) = root::leading_folder(alloc, parts)?;
        let Some(depth) = root::depth_of(others) else {
            return Err(GlobError::NoMemory);
        };
        Ok(Glob {
            text: text.copy(alloc)?,
            root: root::root_text(folder)?,
            depth,
        })
    }

    /// Takes no memory, and time of the order of the lengths of the glob and the path multiplied; of
    /// a path that does not begin with the root it looks only at that front.
    ///
    /// A path that it covers lies below the root within the depth, if it has no empty part after
    /// its first slash, which a `*` matches too, and is not the root, which a `**` at the end covers.
    pub fn covers(&self, path: &[u8]) -> bool
        ensures covers { IsTrue result ↔ Covers self.now path.now }
        ensures within { IsTrue result → IsWithin (root_of self.now) (depth_of self.now) path.now }
        ensures below { IsTrue result → HasNames path.now → parts_of path.now ≢ folder_parts (root_of self.now)
            → IsBelow (root_of self.now) (depth_of self.now) path.now }
    {
        let text = self.text.as_str();
        if !path.starts_with(self.root.bytes()) {
            return false;
        }
        text_covers(text, path)
    }

    /// The folder to list: the longest row of leading parts without `*`, `?`, `[` and backslash,
    /// never the last, and `/` if there is none.
    pub fn root(&self) -> &Text
        ensures { result.now ≡ root_of self.now }
    {
        &self.root
    }

    /// How many parts below the root to list: one for each other part, and 8 for `**`.
    pub fn depth(&self) -> u32
        ensures { result ≡ depth_of self.now }
    {
        self.depth
    }
}

/// Whether the glob of this text covers the path.
fn text_covers(text: &str, path: &[u8]) -> bool
    ensures { IsTrue result ↔ Covers text.now path.now }
{
    if !is_absolute(path) {
        return false;
    }
    match str::from_utf8(path) {
        Ok(path) => parts_cover(Some(text), Some(path)),
        Err(_) => false,
    }
}

fn is_absolute(path: &[u8]) -> bool
    ensures { IsTrue result ↔ (slice_get path.now 0 ≡ Some 47) }
{
    match path {
        [b'/', ..] => true,
        _ => false,
    }
}

ghost use Rattle.std.specs.Prelude.{◌≡◌, IfOk};
ghost use Rattle.event_tree.specs.Parts.{parts_of, IsNamed};
ghost use Rattle.rules_in_range.specs.Conditions.{IsFieldPath};

use event_tree::{FieldPath, PathError};
use std::alloc::Global;
use std::marker::Model;
use wire_base::{NoMemory, Text};

/// A field path of the settings, seen as its text.
#[derive(Drop)]
pub(crate) struct NamedPath {
    text: Text,
    path: FieldPath,
}

impl Model for NamedPath {
    ghost use Rattle.std.specs.Prelude.{◌≡◌, List, ℕ};
    ghost use Rattle.event_tree.specs.Parts.{parts_of};

    ghost Value = { List ℕ };

    ghost view = { λ p. p.text };

    ghost invariant = { λ p. p.path ≡ parts_of p.text };
}

impl NamedPath {
    /// A text whose form was looked at when the settings were read.
    pub fn of(alloc: Global, text: &Text) -> Result<NamedPath, NoMemory>
        requires { IsFieldPath text.now }
        ensures { IfOk result (λ path. path ≡ text.now) }
    {
        let path = match FieldPath::read(alloc, text) {
            Ok(path) => path,
            Err(PathError::NoMemory) => return Err(NoMemory),
            Err(PathError::EmptyPart { .. }) => unreachable!(),
        };
        let text = text.copy(alloc)?;
        Ok(NamedPath { text, path })
    }

    pub fn text(&self) -> &Text
        ensures { result.now ≡ self.now }
    {
        &self.text
    }

    pub fn path(&self) -> &FieldPath
        ensures parts { result.now ≡ parts_of self.now }
        ensures named { IsNamed (parts_of self.now) }
    {
        let _parts = self.path.parts();
        &self.path
    }
}

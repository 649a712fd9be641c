ghost use Rattle.std.specs.Prelude.{◌≡◌, ◌<◌, None, IfOk, IfErr, OnOk};
ghost use Rattle.event_tree.specs.Parts.{parts_of, empty_place, IsNamed, IsPathRefusal};

use crate::PathError;
use std::alloc::Global;
use std::marker::Model;
use wire_base::Text;

/// The parts of a field path, of which there is at least one, and none empty (Filebeat reference,
/// processors).
#[derive(Debug, Drop)]
pub struct FieldPath {
    parts: Vec<Text>,
}

impl Model for FieldPath {
    ghost use Rattle.event_tree.specs.Paths.{Parts};
    ghost use Rattle.event_tree.specs.Parts.{IsNamed};

    ghost Value = { Parts };

    ghost view = { λ p. p.parts.items };

    ghost invariant = { λ p. IsNamed p.parts.items };
}

impl FieldPath {
    /// The parts between the dots; a text with an empty one is no path.
    pub fn read(alloc: Global, text: &Text) -> Result<FieldPath, PathError>
        ensures parts { IfOk result (λ path. path ≡ parts_of text.now) }
        ensures named { OnOk result (empty_place (parts_of text.now) ≡ None) }
        ensures refused { IfErr result (IsPathRefusal text.now) }
    {
        let mut parts = Vec::new(alloc);
        let mut at: usize = 0;
        for part in text.as_str().split('.') {
            if part.is_empty() {
                return Err(PathError::EmptyPart { at });
            }
            parts.push(Text::from_string(String::from_str(alloc, part)?))?;
            at += part.len() + 1;
        }
        Ok(FieldPath { parts })
    }

    /// The parts, from the first on.
    pub fn parts(&self) -> &[Text]
        ensures parts { result.now ≡ self.now }
        ensures named { IsNamed self.now }
    {
        &self.parts
    }
}

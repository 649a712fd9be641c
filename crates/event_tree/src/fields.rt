ghost use Rattle.std.specs.Prelude.{◌≡◌, ◌≢◌, ◌<◌, ℕ, List, [], ◌∷◌, length, IfOk, IfErr, OnOk, OnErr, slice_get, Some, option_map, None, IfNone};
ghost use Rattle.event_tree.specs.Tree.{value_of, pairs_of};
ghost use Rattle.wire_base.specs.KeyOrder.{IsInOrder, IsAt, IsGap};
ghost use Rattle.event_tree.specs.Keys.{key_of, find, set_field};
ghost use Rattle.event_tree.specs.Paths.{map_of, get_at, put_at, remove_at, blocked_at};
ghost use Rattle.event_tree.specs.Size.{value_size};

use crate::Tree;
use std::alloc::Global;
use std::marker::Model;
use wire_base::{NoMemory, Text};

/// The fields of a map, seen as pairs of a key and a value: keys in byte order, each key once.
#[cycle(tree)]
#[derive(Debug, Drop)]
pub struct Fields {
    entries: Vec<(Text, Tree)>,
}

impl Model for Fields {
    ghost use Rattle.event_tree.specs.Value.{FieldList};
    ghost use Rattle.event_tree.specs.Code.{pairs_code};
    ghost use Rattle.event_tree.specs.Size.{fields_size};

    ghost Value = { FieldList };

    ghost coded = { pairs_code };

    ghost use Rattle.event_tree.specs.Tree.{pairs_of};
    ghost use Rattle.wire_base.specs.KeyOrder.{IsInOrder};
    ghost use Rattle.event_tree.specs.Keys.{key_of};

    ghost view = { λ f. pairs_of f.entries.items };

    ghost invariant = { λ f. IsInOrder key_of (pairs_of f.entries.items) };

    ghost size = { fields_size };

    ghost use Rattle.event_tree.specs.TreeFalls.{fields_fall};

    ghost size_decreases = { λ f h. fields_fall f };
}

impl Fields {
    /// Takes no memory yet, and keeps the allocator.
    pub fn new(alloc: Global) -> Fields
        ensures { result ≡ [] }
    {
        Fields {
            entries: Vec::new(alloc),
        }
    }

    pub fn len(&self) -> usize
        ensures { result ≡ length self.now }
    {
        self.entries.len()
    }

    /// The key and the value at place `i`, counted from 0 in the order of the keys.
    pub fn at(&self, i: usize) -> (&Text, &Tree)
        requires { i < length self.now }
        ensures at { slice_get self.now i ≡ Some (result.0.now, value_of result.1.now) }
        ensures smaller { value_size (value_of result.1.now) < value_size (map_of self.now) }
        ensures in_order { IsInOrder key_of self.now }
    {
        let entry = &self.entries[i];
        (&entry.0, &entry.1)
    }

    pub(crate) fn get(&self, key: &Text) -> Option<&Tree>
        ensures { option_map (λ tree. value_of tree.now) result ≡ find key.now self.now }
    {
        match place(&self.entries, key) {
            Ok(i) => Some(&self.entries[i].1),
            Err(_) => None,
        }
    }

    /// Replaces the key's value. `Err` means out of memory, and gives both back.
    pub fn set(&mut self, key: Text, value: Tree) -> Result<(), (Text, Tree)>
        ensures set { OnOk result (self.new ≡ set_field key (value_of value) self.old) }
        ensures found { OnOk result (find key self.new ≡ Some (value_of value)) }
        ensures others { OnOk result ((other : List ℕ) → other ≢ key → find other self.new ≡ find other self.old) }
        ensures kept { OnErr result (self.new ≡ self.old) }
        ensures given_back { IfErr result (λ back. back ≡ (key, value)) }
    {
        match place(&self.entries, &key) {
            Ok(i) => {
                self.entries[i].1 = value;
                Ok(())
            }
            Err(i) => match self.entries.insert(i, (key, value)) {
                Ok(()) => Ok(()),
                Err(full) => Err(full.value),
            },
        }
    }

    /// Puts the value below the key and the later parts, of which none is blocked.
    #[cycle(put)]
    pub(crate) fn put_below(
        &mut self,
        alloc: Global,
        key: &Text,
        later: &[Text],
        value: Tree,
    ) -> Result<(), NoMemory>
        requires { blocked_at (key.now ∷ later.now) (map_of self.old) ≡ None }
        ensures put { OnOk result (map_of self.new ≡ put_at (key.now ∷ later.now) (value_of value) (map_of self.old)) }
        ensures kept { OnErr result (self.new ≡ self.old) }
    {
        match place(&self.entries, key) {
            Ok(i) => {
                let entry = &mut self.entries[i];
                entry.1.put_parts(alloc, later, value)
            }
            Err(i) => {
                let entry = (key.copy(alloc)?, branch(alloc, later, value)?);
                self.entries.insert(i, entry)?;
                Ok(())
            }
        }
    }

    /// Takes out what is below the key and the later parts.
    #[cycle(take)]
    pub(crate) fn take_below(&mut self, key: &Text, later: &[Text]) -> Option<Tree>
        ensures taken { option_map value_of result ≡ get_at (key.now ∷ later.now) (map_of self.old) }
        ensures left { map_of self.new ≡ remove_at (key.now ∷ later.now) (map_of self.old) }
        ensures kept { IfNone result (self.new ≡ self.old) }
    {
        let Ok(i) = place(&self.entries, key) else {
            return None;
        };
        if later.is_empty() {
            let (_, value) = self.entries.remove(i);
            return Some(value);
        }
        let entry = &mut self.entries[i];
        entry.1.take_parts(later)
    }

    /// Fields of the same keys and values.
    #[cycle(copy)]
    pub fn copy(&self, alloc: Global) -> Result<Fields, NoMemory>
        ensures { IfOk result (λ copy. copy ≡ self.now) }
    {
        let mut entries = Vec::new(alloc);
        for (key, value) in &self.entries {
            entries.push((key.copy(alloc)?, value.copy(alloc)?))?;
        }
        Ok(Fields { entries })
    }
}

/// Where the key is, or where it belongs.
fn place(entries: &[(Text, Tree)], key: &Text) -> Result<usize, usize>
    requires { IsInOrder key_of (pairs_of entries.now) }
    ensures found { IfOk result (IsAt key_of (pairs_of entries.now) key.now) }
    ensures absent { IfErr result (IsGap key_of (pairs_of entries.now) key.now) }
{
    entries.binary_search_by(|entry| entry.0.cmp(key))
}

/// The value below maps of one field each.
fn branch(alloc: Global, parts: &[Text], value: Tree) -> Result<Tree, NoMemory>
    ensures { IfOk result (λ tree. value_of tree ≡ put_at parts.now (value_of value) (map_of [])) }
{
    match parts {
        [] => Ok(value),
        [part, later @ ..] => {
            let mut entries = Vec::new(alloc);
            entries.push((part.copy(alloc)?, branch(alloc, later, value)?))?;
            Ok(Tree::Map(Fields { entries }))
        }
    }
}

ghost use Rattle.std.specs.Prelude.{◌≡◌, ◌<◌, length, Some, None, option_map, IfOk, IfErr, IfNone, OnOk, OnErr};
ghost use Rattle.event_tree.specs.Tree.{value_of};
ghost use Rattle.event_tree.specs.Paths.{Parts, get_at, put_at, blocked_at, remove_at, rename_at, IsApart};
ghost use Rattle.event_tree.specs.Refusals.{IsPutRefusal, IsRenameRefusal, IsRenamable};

use crate::{FieldPath, Fields, PutError, RenameError, Trees};
use std::alloc::Global;
use wire_base::{NoMemory, Text};

/// A value of an event (Filebeat reference, event fields).
#[cycle(tree)]
#[derive(Debug, Drop)]
pub enum Tree {
    Null,
    Flag(bool),
    Int(i64),
    Str(Text),
    List(Trees),
    Map(Fields),
}

impl Tree {
    /// `None` exactly if a part is absent or is in something that is no map.
    pub fn get(&self, path: &FieldPath) -> Option<&Tree>
        ensures { option_map (λ tree. value_of tree.now) result ≡ get_at path.now (value_of self.now) }
    {
        let mut here = self;
        for part in path.parts() {
            let Tree::Map(fields) = here else {
                return None;
            };
            here = fields.get(part)?;
        }
        Some(here)
    }

    /// Puts the value at the path, in place of what is there, and makes the maps on the way that
    /// are missing. A refusal leaves the tree as it was; the value is gone then.
    pub fn put(&mut self, alloc: Global, path: &FieldPath, value: Tree) -> Result<(), PutError>
        ensures put { OnOk result (value_of self.new ≡ put_at path.now (value_of value) (value_of self.old)) }
        ensures free_way { OnOk result (blocked_at path.now (value_of self.old) ≡ None) }
        ensures found { OnOk result (get_at path.now (value_of self.new) ≡ Some (value_of value)) }
        ensures others { OnOk result ((other : Parts) → IsApart path.now other → get_at other (value_of self.new) ≡ get_at other (value_of self.old)) }
        ensures refused { IfErr result (IsPutRefusal path.now (value_of self.old)) }
        ensures kept { OnErr result (value_of self.new ≡ value_of self.old) }
    {
        if let Some(part) = self.blocked(path.parts()) {
            return Err(PutError::NotObject { part });
        }
        self.put_parts(alloc, path.parts(), value)?;
        Ok(())
    }

    /// Puts the value below parts of which none is blocked.
    #[cycle(put)]
    pub(crate) fn put_parts(
        &mut self,
        alloc: Global,
        parts: &[Text],
        value: Tree,
    ) -> Result<(), NoMemory>
        requires { blocked_at parts.now (value_of self.old) ≡ None }
        ensures put { OnOk result (value_of self.new ≡ put_at parts.now (value_of value) (value_of self.old)) }
        ensures kept { OnErr result (value_of self.new ≡ value_of self.old) }
    {
        match parts {
            [] => {
                *self = value;
                Ok(())
            }
            [part, later @ ..] => match self {
                Tree::Map(fields) => fields.put_below(alloc, part, later, value),
                _ => unreachable!(),
            },
        }
    }

    /// Takes what is at the path out of the tree; a holder that is empty then stays. `None`
    /// exactly if `get` is.
    pub fn remove(&mut self, path: &FieldPath) -> Option<Tree>
        ensures taken { option_map value_of result ≡ get_at path.now (value_of self.old) }
        ensures left { value_of self.new ≡ remove_at path.now (value_of self.old) }
        ensures gone { get_at path.now (value_of self.new) ≡ None }
        ensures others { (other : Parts) → IsApart path.now other → get_at other (value_of self.new) ≡ get_at other (value_of self.old) }
        ensures kept { IfNone result (value_of self.new ≡ value_of self.old) }
    {
        self.take_parts(path.parts())
    }

    /// Takes out what is at the parts.
    #[cycle(take)]
    pub(crate) fn take_parts(&mut self, parts: &[Text]) -> Option<Tree>
        requires { 0 < length parts.now }
        ensures taken { option_map value_of result ≡ get_at parts.now (value_of self.old) }
        ensures left { value_of self.new ≡ remove_at parts.now (value_of self.old) }
        ensures kept { IfNone result (value_of self.new ≡ value_of self.old) }
    {
        match parts {
            [] => unreachable!(),
            [part, later @ ..] => match self {
                Tree::Map(fields) => fields.take_below(part, later),
                _ => None,
            },
        }
    }

    /// Moves what is at one path to another. The three refusals are of the tree as it is
    /// before, the first that holds in the order in which they are listed; each leaves the tree as it
    /// was. The tree is copied, so that it stays when out of memory, too.
    pub fn rename(
        &mut self,
        alloc: Global,
        from: &FieldPath,
        to: &FieldPath,
    ) -> Result<(), RenameError>
        ensures renamed { OnOk result (value_of self.new ≡ rename_at from.now to.now (value_of self.old)) }
        ensures renamable { OnOk result (IsRenamable from.now to.now (value_of self.old)) }
        ensures moved { OnOk result (get_at to.now (value_of self.new) ≡ get_at from.now (value_of self.old)) }
        ensures gone { OnOk result (IsApart to.now from.now → get_at from.now (value_of self.new) ≡ None) }
        ensures others { OnOk result ((other : Parts) → IsApart from.now other → IsApart to.now other → get_at other (value_of self.new) ≡ get_at other (value_of self.old)) }
        ensures refused { IfErr result (IsRenameRefusal from.now to.now (value_of self.old)) }
        ensures kept { OnErr result (value_of self.new ≡ value_of self.old) }
    {
        if self.get(from).is_none() {
            return Err(RenameError::Absent);
        }
        if self.get(to).is_some() {
            return Err(RenameError::Present);
        }
        if let Some(part) = self.blocked(to.parts()) {
            return Err(RenameError::NotObject { part });
        }
        let mut next = self.copy(alloc)?;
        let Some(moved) = next.remove(from) else {
            unreachable!()
        };
        next.put_parts(alloc, to.parts(), moved)?;
        *self = next;
        Ok(())
    }

    /// A tree of the same value.
    #[cycle(copy)]
    pub fn copy(&self, alloc: Global) -> Result<Tree, NoMemory>
        ensures { IfOk result (λ copy. value_of copy ≡ value_of self.now) }
    {
        match self {
            Tree::Null => Ok(Tree::Null),
            Tree::Flag(flag) => Ok(Tree::Flag(*flag)),
            Tree::Int(number) => Ok(Tree::Int(*number)),
            Tree::Str(text) => Ok(Tree::Str(text.copy(alloc)?)),
            Tree::List(trees) => Ok(Tree::List(trees.copy(alloc)?)),
            Tree::Map(fields) => Ok(Tree::Map(fields.copy(alloc)?)),
        }
    }

    /// The number of the first part whose holder is there and is no map.
    fn blocked(&self, parts: &[Text]) -> Option<usize>
        ensures { result ≡ blocked_at parts.now (value_of self.now) }
    {
        let mut here = self;
        for (i, part) in parts.iter().enumerate() {
            let Tree::Map(fields) = here else {
                return Some(i);
            };
            here = fields.get(part)?;
        }
        None
    }
}

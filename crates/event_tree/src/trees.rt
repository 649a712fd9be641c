ghost use Rattle.std.specs.Prelude.{◌≡◌, ◌<◌, [], ◌∷◌, ◌++◌, length, IfOk, IfErr, OnOk, OnErr, slice_get, Some};
ghost use Rattle.event_tree.specs.Size.{value_size};
ghost use Rattle.event_tree.specs.Tree.{value_of};
ghost use Rattle.event_tree.specs.Value.{list, as_values};

use crate::Tree;
use std::alloc::Global;
use std::marker::Model;
use wire_base::NoMemory;

/// A list of trees, seen as the list of their values.
#[cycle(tree)]
#[derive(Debug, Drop)]
pub struct Trees {
    trees: Vec<Tree>,
}

impl Model for Trees {
    ghost use Rattle.std.specs.Prelude.{List};
    ghost use Rattle.event_tree.specs.Value.{TreeValue};
    ghost use Rattle.event_tree.specs.Code.{values_code};
    ghost use Rattle.event_tree.specs.Size.{trees_size};

    ghost Value = { List TreeValue };

    ghost coded = { values_code };

    ghost use Rattle.event_tree.specs.Tree.{values_of};

    ghost view = { λ t. values_of t.trees.items };

    ghost size = { trees_size };

    ghost use Rattle.event_tree.specs.TreeFalls.{trees_fall};

    ghost size_decreases = { λ t h. trees_fall t };
}

impl Trees {
    /// Takes no memory yet, and keeps the allocator.
    pub fn new(alloc: Global) -> Trees
        ensures { result ≡ [] }
    {
        Trees {
            trees: Vec::new(alloc),
        }
    }

    pub fn len(&self) -> usize
        ensures { result ≡ length self.now }
    {
        self.trees.len()
    }

    /// The tree at place `i`, counted from 0.
    pub fn at(&self, i: usize) -> &Tree
        requires { i < length self.now }
        ensures at { slice_get self.now i ≡ Some (value_of result.now) }
        ensures smaller { value_size (value_of result.now) < value_size (list (as_values self.now)) }
    {
        &self.trees[i]
    }

    /// `Err` means out of memory, and gives the tree back.
    pub fn push(&mut self, tree: Tree) -> Result<(), Tree>
        ensures pushed { OnOk result (self.new ≡ self.old ++ value_of tree ∷ []) }
        ensures kept { OnErr result (self.new ≡ self.old) }
        ensures given_back { IfErr result (λ back. back ≡ tree) }
    {
        self.trees.push(tree).map_err(|full| full.value)
    }

    /// A list of the same values.
    #[cycle(copy)]
    pub fn copy(&self, alloc: Global) -> Result<Trees, NoMemory>
        ensures { IfOk result (λ copy. copy ≡ self.now) }
    {
        let mut trees = Vec::new(alloc);
        for tree in &self.trees {
            trees.push(tree.copy(alloc)?)?;
        }
        Ok(Trees { trees })
    }
}

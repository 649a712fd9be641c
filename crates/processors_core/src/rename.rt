ghost use Rattle.std.specs.Prelude.{◌≡◌, ◌≤◌, ◌++◌, ◌&&◌, true, codes, length, map, is_none, All, None, IfOk, IfSome, OnOk};
ghost use Rattle.event_tree.specs.Parts.{parts_of};
ghost use Rattle.event_tree.specs.Paths.{get_at, rename_at};
ghost use Rattle.event_tree.specs.Tree.{value_of};
ghost use Rattle.event_tree.specs.declared.processor_rule.Pair.{Pair};
ghost use Rattle.processors_core.specs.Actions.{renamed_by};
ghost use Rattle.processors_core.specs.Attempt.{attempt_of};
ghost use Rattle.processors_core.specs.Error.{settled};
ghost use Rattle.rules_in_range.specs.Processors.{IsRenaming};
ghost use Rattle.processors_core.specs.Pairs.{pair_of};
ghost use Rattle.processors_core.specs.Renamed.{pair_renamed, rename_fault};

use crate::error::{text_at, with_error};
use crate::fields::is_blocked;
use crate::named_path::NamedPath;
use event_tree::{Pair, PutError, Tree};
use std::alloc::Global;
use wire_base::{NoMemory, Text};

/// One field path and another, to which it is renamed.
#[derive(Drop)]
pub(crate) struct NamedPair {
    pub from: NamedPath,
    pub to: NamedPath,
}

/// The pairs of `rename`.
#[derive(Drop)]
pub(crate) struct Renames {
    pub pairs: Vec<NamedPair>,
    pub ignore_missing: bool,
    pub fail_on_error: bool,
}

impl Renames {
    pub fn of(
        alloc: Global,
        pairs: &[Pair],
        ignore_missing: bool,
        fail_on_error: bool,
    ) -> Result<Renames, NoMemory>
        requires { All IsRenaming pairs.now }
        ensures pairs { IfOk result (λ renames. map pair_of renames.pairs.items ≡ pairs.now) }
        ensures ignore_missing { IfOk result (λ renames. renames.ignore_missing ≡ ignore_missing) }
        ensures fail_on_error { IfOk result (λ renames. renames.fail_on_error ≡ fail_on_error) }
    {
        let mut named = Vec::with_capacity(alloc, pairs.len())?;
        for pair in pairs {
            named.push(NamedPair::of(alloc, pair)?)?;
        }
        Ok(Renames {
            pairs: named,
            ignore_missing,
            fail_on_error,
        })
    }

    /// Moves each field. Before several of them that may have to be undone the tree is copied.
    pub fn run(&self, alloc: Global, tree: Tree) -> Result<Tree, NoMemory>
        ensures { IfOk result (λ after.
            value_of after ≡ settled (value_of tree) (renamed_by self.now (value_of tree))) }
    {
        let mut tree = tree;
        if self.fail_on_error && self.pairs.len() > 1 {
            let before = tree.copy(alloc)?;
            return match self.move_all(alloc, &mut tree)? {
                None => Ok(tree),
                Some(text) => with_error(alloc, &text, before),
            };
        }
        match self.move_all(alloc, &mut tree)? {
            None => Ok(tree),
            Some(text) => with_error(alloc, &text, tree),
        }
    }

    /// Moves each field, up to an error that fails; its text is given then.
    fn move_all(&self, alloc: Global, tree: &mut Tree) -> Result<Option<Text>, NoMemory>
        ensures moved { IfOk result (λ error.
            renamed_by self.now (value_of tree.old) ≡ attempt_of error (value_of tree.new)) }
        ensures only_where_it_fails { IfOk result (λ error. IfSome error (λ _.
            self.now.fail_on_error ≡ true)) }
        ensures first_leaves_all { IfOk result (λ error. IfSome error (λ _.
            length self.now.pairs.items ≤ 1 → value_of tree.new ≡ value_of tree.old)) }
    {
        for pair in &self.pairs {
            if let Some(text) = pair.move_field(alloc, self.ignore_missing, tree)? {
                if self.fail_on_error {
                    return Ok(Some(text));
                }
            }
        }
        Ok(None)
    }
}

impl NamedPair {
    fn of(alloc: Global, pair: &Pair) -> Result<NamedPair, NoMemory>
        requires { IsRenaming pair.now }
        ensures { IfOk result (λ named. pair_of named ≡ pair.now) }
    {
        let from = NamedPath::of(alloc, &pair.from)?;
        let to = NamedPath::of(alloc, &pair.to)?;
        Ok(NamedPair { from, to })
    }

    /// Moves the field, or says why not; then the tree is as it was.
    fn move_field(
        &self,
        alloc: Global,
        ignore_missing: bool,
        tree: &mut Tree,
    ) -> Result<Option<Text>, NoMemory>
        ensures moved { IfOk result (λ error.
            pair_renamed ignore_missing true (pair_of self.now) (value_of tree.old)
            ≡ attempt_of error (value_of tree.new)) }
        ensures left { IfOk result (λ error. IfSome error (λ _.
            value_of tree.new ≡ value_of tree.old)) }
    {
        if self.is_passed_over(ignore_missing, tree) {
            return Ok(None);
        }
        let fault = self.fault(alloc, tree)?;
        if fault.is_none() {
            self.move_value(alloc, tree)?;
        }
        Ok(fault)
    }

    fn is_passed_over(&self, ignore_missing: bool, tree: &Tree) -> bool
        ensures { result ≡
            (ignore_missing && is_none (get_at (parts_of self.now.from) (value_of tree.now))) }
    {
        ignore_missing && tree.get(self.from.path()).is_none()
    }

    /// The text of the error, if there is one.
    fn fault(&self, alloc: Global, tree: &Tree) -> Result<Option<Text>, NoMemory>
        ensures { IfOk result (λ fault.
            fault ≡ rename_fault (pair_of self.now) (value_of tree.now)) }
    {
        if tree.get(self.from.path()).is_none() {
            let text = text_at(alloc, "rename: no field ", self.from.text())?;
            return Ok(Some(text));
        }
        if tree.get(self.to.path()).is_some() {
            let text = exists_text(alloc, self.to.text())?;
            return Ok(Some(text));
        }
        if is_blocked(tree, self.to.path()) {
            let text = text_at(alloc, "rename: no map at ", self.to.text())?;
            return Ok(Some(text));
        }
        Ok(None)
    }

    fn move_value(&self, alloc: Global, tree: &mut Tree) -> Result<(), NoMemory>
        requires { rename_fault (pair_of self.now) (value_of tree.old) ≡ None }
        ensures { OnOk result (value_of tree.new
            ≡ rename_at (parts_of self.now.from) (parts_of self.now.to) (value_of tree.old)) }
    {
        let Some(value) = tree.remove(self.from.path()) else {
            unreachable!()
        };
        match tree.put(alloc, self.to.path(), value) {
            Ok(()) => Ok(()),
            Err(PutError::NoMemory) => Err(NoMemory),
            Err(PutError::NotObject { .. }) => unreachable!(),
        }
    }
}

fn exists_text(alloc: Global, path: &Text) -> Result<Text, NoMemory>
    ensures { IfOk result (λ text. text ≡ codes "rename: field " ++ path.now ++ codes " exists") }
{
    let mut text = String::from_str(alloc, "rename: field ")?;
    text.push_str(path.as_str())?;
    text.push_str(" exists")?;
    Ok(Text::from_string(text))
}

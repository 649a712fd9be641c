ghost use Rattle.std.specs.Prelude.{◌≡◌, ◌++◌, [], codes, option_map, IfOk};
ghost use Rattle.event_tree.specs.Tree.{value_of};
ghost use Rattle.processors_core.specs.Actions.{added_by};
ghost use Rattle.processors_core.specs.Added.{fields_added};
ghost use Rattle.processors_core.specs.Error.{settled, with_error};
ghost use Rattle.rules_in_range.specs.Processors.{IsTarget};
ghost use Rattle.processors_core.specs.Over.{map_at};
ghost use Rattle.processors_core.specs.Targets.{target_text};

use crate::error::{text_at, with_error};
use crate::fields::{is_blocked, put_over};
use crate::named_path::NamedPath;
use event_tree::{Fields, PutError, Tree};
use std::alloc::Global;
use wire_base::{NoMemory, Text};

/// Where fields are put.
#[derive(Drop)]
pub(crate) enum Target {
    /// At the top.
    Event,
    Field(NamedPath),
}

/// The fields of `add_fields`.
#[derive(Drop)]
pub(crate) struct FieldAdds {
    pub fields: Fields,
    pub target: Target,
}

impl FieldAdds {
    pub fn of(alloc: Global, fields: &Fields, target: &Text) -> Result<FieldAdds, NoMemory>
        requires { IsTarget target.now }
        ensures fields { IfOk result (λ adds. adds.fields ≡ fields.now) }
        ensures target { IfOk result (λ adds. target_text adds.target ≡ target.now) }
    {
        let fields = fields.copy(alloc)?;
        let target = Target::of(alloc, target)?;
        Ok(FieldAdds { fields, target })
    }

    /// Puts each key of the table under the target.
    pub fn run(&self, alloc: Global, tree: Tree) -> Result<Tree, NoMemory>
        ensures { IfOk result (λ after.
            value_of after ≡ settled (value_of tree) (added_by self.now (value_of tree))) }
    {
        match &self.target {
            Target::Event => put_on_top(alloc, &self.fields, tree),
            Target::Field(path) => put_below(alloc, &self.fields, path, tree),
        }
    }
}

impl Target {
    fn of(alloc: Global, text: &Text) -> Result<Target, NoMemory>
        requires { IsTarget text.now }
        ensures { IfOk result (λ target. target_text target ≡ text.now) }
    {
        if text.as_str().is_empty() {
            return Ok(Target::Event);
        }
        Ok(Target::Field(NamedPath::of(alloc, text)?))
    }
}

fn put_on_top(alloc: Global, added: &Fields, tree: Tree) -> Result<Tree, NoMemory>
    ensures { IfOk result (λ after.
        value_of after ≡ settled (value_of tree) (fields_added added.now [] (value_of tree))) }
{
    match tree {
        Tree::Map(fields) => {
            let mut fields = fields;
            put_over(alloc, added, &mut fields)?;
            Ok(Tree::Map(fields))
        }
        other => {
            let text = Text::from_string(String::from_str(alloc, "add_fields: no map at ")?);
            with_error(alloc, &text, other)
        }
    }
}

fn put_below(
    alloc: Global,
    added: &Fields,
    target: &NamedPath,
    tree: Tree,
) -> Result<Tree, NoMemory>
    ensures { IfOk result (λ after.
        value_of after ≡ settled (value_of tree)
        (fields_added added.now target.now (value_of tree))) }
{
    let mut tree = tree;
    let found = fields_at(alloc, tree.get(target.path()))?;
    if is_blocked(&tree, target.path()) {
        return no_map(alloc, target, tree);
    }
    let Some(fields) = found else {
        return no_map(alloc, target, tree);
    };
    if added.len() == 0 {
        return Ok(tree);
    }
    let mut fields = fields;
    put_over(alloc, added, &mut fields)?;
    match tree.put(alloc, target.path(), Tree::Map(fields)) {
        Ok(()) => Ok(tree),
        Err(PutError::NotObject { .. }) => unreachable!(),
        Err(PutError::NoMemory) => Err(NoMemory),
    }
}

fn no_map(alloc: Global, target: &NamedPath, tree: Tree) -> Result<Tree, NoMemory>
    ensures { IfOk result (λ after.
        value_of after
        ≡ with_error (codes "add_fields: no map at " ++ target.now) (value_of tree)) }
{
    let text = text_at(alloc, "add_fields: no map at ", target.text())?;
    with_error(alloc, &text, tree)
}

/// The fields of the map that is there, none if nothing is.
#[tactic(auto, using(crate::proofs::Ways::pairs_back))]
fn fields_at(alloc: Global, found: Option<&Tree>) -> Result<Option<Fields>, NoMemory>
    ensures { IfOk result (λ fields.
        fields ≡ map_at (option_map (λ tree. value_of tree.now) found.entry)) }
{
    match found {
        None => Ok(Some(Fields::new(alloc))),
        Some(Tree::Map(fields)) => Ok(Some(fields.copy(alloc)?)),
        Some(_) => Ok(None),
    }
}

ghost use Rattle.std.specs.Prelude.{◌≡◌, ◌++◌, codes, map, option_map, IfOk};
ghost use Rattle.event_tree.specs.Tree.{value_of};
ghost use Rattle.event_tree.specs.Value.{str};
ghost use Rattle.rules_in_range.specs.Conditions.{IsFieldPath};
ghost use Rattle.processors_core.specs.Actions.{tagged_by};
ghost use Rattle.processors_core.specs.Error.{settled, with_error};
ghost use Rattle.processors_core.specs.Tagged.{list_at};

use crate::error::{text_at, with_error};
use crate::named_path::NamedPath;
use event_tree::{PutError, Tree, Trees};
use std::alloc::Global;
use wire_base::{NoMemory, Text};

/// The tags of `add_tags`.
#[derive(Drop)]
pub(crate) struct TagAdds {
    pub tags: Vec<Text>,
    pub target: NamedPath,
}

impl TagAdds {
    pub fn of(alloc: Global, tags: &[Text], target: &Text) -> Result<TagAdds, NoMemory>
        requires { IsFieldPath target.now }
        ensures tags { IfOk result (λ adds. adds.tags.items ≡ tags.now) }
        ensures target { IfOk result (λ adds. adds.target ≡ target.now) }
    {
        let mut copies = Vec::with_capacity(alloc, tags.len())?;
        for tag in tags {
            copies.push(tag.copy(alloc)?)?;
        }
        let target = NamedPath::of(alloc, target)?;
        Ok(TagAdds {
            tags: copies,
            target,
        })
    }

    /// Appends the tags to the list at the target.
    pub fn run(&self, alloc: Global, tree: Tree) -> Result<Tree, NoMemory>
        ensures { IfOk result (λ after.
            value_of after ≡ settled (value_of tree) (tagged_by self.now (value_of tree))) }
    {
        let mut tree = tree;
        let Some(list) = trees_at(alloc, tree.get(self.target.path()))? else {
            return no_list(alloc, &self.target, tree);
        };
        let list = with_tags(alloc, list, &self.tags)?;
        match tree.put(alloc, self.target.path(), Tree::List(list)) {
            Ok(()) => Ok(tree),
            Err(PutError::NotObject { .. }) => no_list(alloc, &self.target, tree),
            Err(PutError::NoMemory) => Err(NoMemory),
        }
    }
}

fn with_tags(alloc: Global, list: Trees, tags: &[Text]) -> Result<Trees, NoMemory>
    ensures { IfOk result (λ tagged. tagged ≡ list ++ map str tags.now) }
{
    let mut list = list;
    for tag in tags {
        let tag = tag.copy(alloc)?;
        if list.push(Tree::Str(tag)).is_err() {
            return Err(NoMemory);
        }
    }
    Ok(list)
}

fn no_list(alloc: Global, target: &NamedPath, tree: Tree) -> Result<Tree, NoMemory>
    ensures { IfOk result (λ after.
        value_of after ≡ with_error (codes "add_tags: no list at " ++ target.now) (value_of tree)) }
{
    let text = text_at(alloc, "add_tags: no list at ", target.text())?;
    with_error(alloc, &text, tree)
}

/// The list that is there, an empty one if nothing is.
#[tactic(auto, using(crate::proofs::Tags::values_back))]
fn trees_at(alloc: Global, found: Option<&Tree>) -> Result<Option<Trees>, NoMemory>
    ensures { IfOk result (λ list. list ≡ list_at (option_map (λ tree. value_of tree.now) found.entry)) }
{
    match found {
        None => Ok(Some(Trees::new(alloc))),
        Some(Tree::List(trees)) => Ok(Some(trees.copy(alloc)?)),
        Some(_) => Ok(None),
    }
}

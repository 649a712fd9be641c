ghost use Rattle.std.specs.Prelude.{◌≡◌, true, All, option_map, IfOk};
ghost use Rattle.std.specs.List.{list_any};
ghost use Rattle.event_tree.specs.Parts.{parts_of};
ghost use Rattle.event_tree.specs.Tree.{value_of};
ghost use Rattle.rules_in_range.specs.Conditions.{IsFieldPath};
ghost use Rattle.processors_core.specs.Actions.{dropped_by};
ghost use Rattle.processors_core.specs.Attempt.{Done};
ghost use Rattle.processors_core.specs.Dropped.{fields_dropped, is_left};
ghost use Rattle.processors_core.specs.Error.{settled};
ghost use Rattle.processors_core.specs.Missing.{hides, is_missing, missing_of};

use crate::error::{text_at, with_error};
use crate::named_path::NamedPath;
use event_tree::Tree;
use std::alloc::Global;
use wire_base::{NoMemory, Text};

/// The paths of `drop_fields`.
#[derive(Drop)]
pub(crate) struct FieldDrops {
    pub paths: Vec<NamedPath>,
    pub ignore_missing: bool,
}

impl FieldDrops {
    pub fn of(alloc: Global, texts: &[Text], ignore_missing: bool) -> Result<FieldDrops, NoMemory>
        requires { All IsFieldPath texts.now }
        ensures paths { IfOk result (λ drops. drops.paths.items ≡ texts.now) }
        ensures ignore_missing { IfOk result (λ drops. drops.ignore_missing ≡ ignore_missing) }
    {
        let mut paths = Vec::with_capacity(alloc, texts.len())?;
        for text in texts {
            paths.push(NamedPath::of(alloc, text)?)?;
        }
        Ok(FieldDrops {
            paths,
            ignore_missing,
        })
    }

    /// Removes each path. A path that will be missing is looked for first, so that nothing has to be undone.
    pub fn run(&self, alloc: Global, tree: Tree) -> Result<Tree, NoMemory>
        ensures { IfOk result (λ after.
            value_of after ≡ settled (value_of tree) (dropped_by self.now (value_of tree))) }
    {
        let mut tree = tree;
        if !self.ignore_missing {
            if let Some(path) = first_missing(&self.paths, &tree) {
                let text = text_at(alloc, "drop_fields: no field ", path.text())?;
                return with_error(alloc, &text, tree);
            }
        }
        remove_all(&self.paths, &mut tree);
        Ok(tree)
    }
}

/// Removes each path that is there.
fn remove_all(paths: &[NamedPath], tree: &mut Tree)
    ensures { fields_dropped true paths.now (value_of tree.old) ≡ Done (value_of tree.new) }
{
    for path in paths {
        if !is_left(path) {
            let _removed = tree.remove(path.path());
        }
    }
}

/// The first path that is absent, or will be once the paths before it are removed.
fn first_missing<'a>(paths: &'a [NamedPath], tree: &Tree) -> Option<&'a NamedPath>
    ensures { option_map (λ path. path.now) result ≡ missing_of paths.now (value_of tree.now) }
{
    for (i, path) in paths.iter().enumerate() {
        if is_missing(&paths[..i], path, tree) {
            return Some(path);
        }
    }
    None
}

fn is_missing(earlier: &[NamedPath], path: &NamedPath, tree: &Tree) -> bool
    ensures { result ≡ is_missing earlier.now path.now (value_of tree.now) }
{
    if is_left(path) {
        return false;
    }
    if tree.get(path.path()).is_none() {
        return true;
    }
    is_hidden(earlier, path)
}

/// Whether the removal of an earlier path takes this one away.
fn is_hidden(earlier: &[NamedPath], path: &NamedPath) -> bool
    ensures { result ≡ list_any (λ one. hides one (parts_of path.now)) earlier.now }
{
    for one in earlier {
        if hides(one, path) {
            return true;
        }
    }
    false
}

fn hides(one: &NamedPath, path: &NamedPath) -> bool
    ensures { result ≡ hides one.now (parts_of path.now) }
{
    !is_left(one) && path.path().parts().starts_with(one.path().parts())
}

/// Whether the path is left in silence.
fn is_left(path: &NamedPath) -> bool
    ensures { result ≡ is_left path.now }
{
    let text = path.text().as_str();
    text == "@timestamp" || text == "type"
}

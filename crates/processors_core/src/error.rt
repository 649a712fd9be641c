ghost use Rattle.std.specs.Prelude.{◌≡◌, ◌++◌, codes, option_map, IfOk};
ghost use Rattle.event_tree.specs.Tree.{value_of};
ghost use Rattle.event_tree.specs.Value.{str};
ghost use Rattle.processors_core.specs.Error.{error_path, with_error, with_text};

use event_tree::{FieldPath, PathError, PutError, Tree};
use std::alloc::Global;
use wire_base::{NoMemory, Text};

/// The tree with the text of an error at `error.message`, if it can be there.
pub(crate) fn with_error(alloc: Global, text: &Text, tree: Tree) -> Result<Tree, NoMemory>
    ensures { IfOk result (λ after. value_of after ≡ with_error text.now (value_of tree)) }
{
    let mut tree = tree;
    let path = error_path(alloc)?;
    let Some(texts) = texts_with(alloc, text, tree.get(&path))? else {
        return Ok(tree);
    };
    match tree.put(alloc, &path, Tree::Str(texts)) {
        Ok(()) => Ok(tree),
        Err(PutError::NotObject { .. }) => Ok(tree),
        Err(PutError::NoMemory) => Err(NoMemory),
    }
}

/// The text of an error at a path.
pub(crate) fn text_at(alloc: Global, front: &str, path: &Text) -> Result<Text, NoMemory>
    ensures { IfOk result (λ text. text ≡ front.now ++ path.now) }
{
    let mut text = String::from_str(alloc, front)?;
    text.push_str(path.as_str())?;
    Ok(Text::from_string(text))
}

fn error_path(alloc: Global) -> Result<FieldPath, NoMemory>
    ensures { IfOk result (λ path. path ≡ error_path) }
{
    let text = Text::from_string(String::from_str(alloc, "error.message")?);
    match FieldPath::read(alloc, &text) {
        Ok(path) => Ok(path),
        Err(PathError::NoMemory) => Err(NoMemory),
        Err(PathError::EmptyPart { .. }) => unreachable!(),
    }
}

/// The texts so far and this one, if nothing but a text is there.
fn texts_with(alloc: Global, text: &Text, found: Option<&Tree>) -> Result<Option<Text>, NoMemory>
    ensures { IfOk result (λ texts.
        option_map str texts ≡ with_text text.now (option_map (λ tree. value_of tree.now) found.entry)) }
{
    match found {
        None => Ok(Some(text.copy(alloc)?)),
        Some(Tree::Str(earlier)) => Ok(Some(joined_text(alloc, earlier, text)?)),
        Some(_) => Ok(None),
    }
}

fn joined_text(alloc: Global, earlier: &Text, text: &Text) -> Result<Text, NoMemory>
    ensures { IfOk result (λ joined. joined ≡ earlier.now ++ codes "; " ++ text.now) }
{
    let mut joined = String::from_str(alloc, earlier.as_str())?;
    joined.push_str("; ")?;
    joined.push_str(text.as_str())?;
    Ok(Text::from_string(joined))
}

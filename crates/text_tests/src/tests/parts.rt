use event_tree::{Fields, Tree, Trees};
use std::alloc::Global;
use std::test::Fail;
use wire_base::Text;

/// How many bytes of a message are kept if settings do not say it.
pub const DEFAULT_LIMIT: u64 = 10_485_760;

/// The text of these characters.
pub fn text(alloc: Global, chars: &str) -> Result<Text, Fail> {
    Ok(Text::from_bytes(alloc, chars.as_bytes())?)
}

/// Sets a field.
pub fn set(alloc: Global, fields: &mut Fields, key: &str, value: Tree) -> Result<(), Fail> {
    let key = text(alloc, key)?;
    if fields.set(key, value).is_err() {
        return Err("no memory for a field".into());
    }
    Ok(())
}

/// Adds an item.
pub fn push(trees: &mut Trees, tree: Tree) -> Result<(), Fail> {
    if trees.push(tree).is_err() {
        return Err("no memory for an item".into());
    }
    Ok(())
}

/// A tree that holds no other.
#[derive(Clone, Copy)]
pub enum Leaf {
    Null,
    Flag(bool),
    Int(i64),
    Str(&'static str),
}

/// The tree of a leaf.
fn tree_of(alloc: Global, leaf: Leaf) -> Result<Tree, Fail> {
    Ok(match leaf {
        Leaf::Null => Tree::Null,
        Leaf::Flag(flag) => Tree::Flag(flag),
        Leaf::Int(number) => Tree::Int(number),
        Leaf::Str(chars) => Tree::Str(text(alloc, chars)?),
    })
}

/// Sets a field for each row.
pub fn set_leaves(alloc: Global, fields: &mut Fields, rows: &[(&str, Leaf)]) -> Result<(), Fail> {
    for (key, value) in rows {
        set(alloc, fields, key, tree_of(alloc, *value)?)?;
    }
    Ok(())
}

use crate::tests::parts::{Leaf, set, set_leaves, text};
use event_tree::*;
use std::alloc::Global;
use std::test::Fail;

/// The path of this text.
fn path(alloc: Global, dotted: &str) -> Result<FieldPath, Fail> {
    Ok(FieldPath::read(alloc, &text(alloc, dotted)?)?)
}

/// A map with a message and an empty map.
fn tree(alloc: Global) -> Result<Tree, Fail> {
    let mut fields = Fields::new(alloc);
    set_leaves(alloc, &mut fields, &[("message", Leaf::Str("m"))])?;
    set(alloc, &mut fields, "log", Tree::Map(Fields::new(alloc)))?;
    Ok(Tree::Map(fields))
}

/// The text that is at the path.
fn text_at<'a>(tree: &'a Tree, path: &FieldPath) -> Option<&'a str> {
    match tree.get(path) {
        Some(Tree::Str(text)) => Some(text.as_str()),
        _ => None,
    }
}

#[test]
fn a_value_is_moved(rt: HostRuntime) -> Result<(), Fail> {
    let alloc = rt.alloc();
    let (from, to) = (path(alloc, "message")?, path(alloc, "log.file.text")?);
    let mut tree = tree(alloc)?;
    let moved = tree.rename(alloc, &from, &to);
    assert!(rt; moved.is_ok());
    assert_eq!(rt; text_at(&tree, &to), Some("m"));
    assert_eq!(rt; text_at(&tree, &from), None);
    Ok(())
}

#[test]
fn lists_give_back_what_they_were_made_of(rt: HostRuntime) -> Result<(), Fail> {
    let alloc = rt.alloc();
    let mut texts = Vec::new(alloc);
    texts.push(text(alloc, "a")?)?;
    let texts = Texts::from_vec(texts);
    assert_eq!(rt; texts.as_slice().len(), 1);
    assert_eq!(rt; texts.into_vec().len(), 1);
    Ok(())
}

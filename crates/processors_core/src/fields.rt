ghost use Rattle.std.specs.Prelude.{◌≡◌, is_some, option_map, IfOk, OnOk};
ghost use Rattle.event_tree.specs.Keys.{find};
ghost use Rattle.event_tree.specs.Paths.{blocked_at};
ghost use Rattle.event_tree.specs.Tree.{value_of};
ghost use Rattle.processors_core.specs.Added.{merged};
ghost use Rattle.processors_core.specs.Over.{put_over};

use event_tree::{FieldPath, Fields, Tree};
use std::alloc::Global;
use wire_base::{NoMemory, Text};

/// The value of a key.
pub(crate) fn find<'a>(fields: &'a Fields, key: &Text) -> Option<&'a Tree>
    ensures { option_map (λ tree. value_of tree.now) result ≡ find key.now fields.now }
{
    for i in 0..fields.len() {
        let (name, value) = fields.at(i);
        if name == key {
            return Some(value);
        }
    }
    None
}

/// Whether a part of the path is in something that is no map.
pub(crate) fn is_blocked(tree: &Tree, path: &FieldPath) -> bool
    ensures { result ≡ is_some (blocked_at path.now (value_of tree.now)) }
{
    let mut here = tree;
    for part in path.parts() {
        let Tree::Map(fields) = here else {
            return true;
        };
        let Some(next) = find(fields, part) else {
            return false;
        };
        here = next;
    }
    false
}

/// Puts each member over the fields: maps are merged key by key, and every other value is replaced.
#[cycle(merge)]
pub(crate) fn put_over(alloc: Global, members: &Fields, fields: &mut Fields) -> Result<(), NoMemory>
    ensures { OnOk result (fields.new ≡ put_over members.now fields.old) }
{
    for i in 0..members.len() {
        let (key, value) = members.at(i);
        let next = merged_value(alloc, value, find(fields, key))?;
        let key = key.copy(alloc)?;
        let Ok(()) = fields.set(key, next) else {
            return Err(NoMemory);
        };
    }
    Ok(())
}

/// The value over what is at its place.
#[cycle(merge)]
#[tactic(auto, using(crate::proofs::Overs::map_over))]
fn merged_value(alloc: Global, value: &Tree, old: Option<&Tree>) -> Result<Tree, NoMemory>
    ensures { IfOk result (λ tree.
        value_of tree ≡ merged (value_of value.now) (option_map (λ tree. value_of tree.now) old.entry)) }
{
    let Tree::Map(members) = value else {
        return value.copy(alloc);
    };
    let Some(Tree::Map(fields)) = old else {
        return value.copy(alloc);
    };
    let mut fields = fields.copy(alloc)?;
    put_over(alloc, members, &mut fields)?;
    Ok(Tree::Map(fields))
}

ghost use Rattle.std.specs.Prelude.{OnOk};
ghost use Rattle.event_tree.specs.Tree.{value_of};
ghost use Rattle.event_tree.specs.Paths.{map_of};
ghost use Rattle.event_tree.specs.Value.{list, as_values};
ghost use Rattle.serde_json.specs.Events.{SendsValue};
ghost use Rattle.event_json.specs.Data.{data_of};

use event_tree::{Fields, Tree, Trees};
use serde::{Described, Serialize, Serializer};

/// A tree as `serde_json` takes it.
#[derive(Drop)]
pub(crate) struct JsonTree<'a>(pub(crate) &'a Tree);

impl Described for JsonTree<'_> {
    ghost writes = { λ t. SendsValue (data_of (value_of t.0.now)) };
}

impl Serialize for JsonTree<'_> {
    fn serialize<S: Serializer>(&self, out: &mut S) -> Result<(), S::Error> {
        send(self.0, out)
    }
}

#[cycle(send)]
fn send<S: Serializer>(tree: &Tree, out: &mut S) -> Result<(), S::Error>
    ensures { OnOk result (SendsValue (data_of (value_of tree.now)) (S.written out.old) (S.written out.new)) }
{
    match tree {
        Tree::Null => out.unit(),
        Tree::Flag(flag) => out.bool(*flag),
        Tree::Int(number) => out.i64(*number),
        Tree::Str(text) => out.str(text.as_str()),
        Tree::List(trees) => send_trees(trees, out),
        Tree::Map(fields) => send_fields(fields, out),
    }
}

#[cycle(send)]
fn send_trees<S: Serializer>(trees: &Trees, out: &mut S) -> Result<(), S::Error>
    ensures { OnOk result (SendsValue (data_of (list (as_values trees.now))) (S.written out.old) (S.written out.new)) }
{
    out.begin_seq(Some(trees.len()))?;
    for i in 0..trees.len() {
        send(trees.at(i), out)?;
    }
    out.end_seq()
}

#[cycle(send)]
fn send_fields<S: Serializer>(fields: &Fields, out: &mut S) -> Result<(), S::Error>
    ensures { OnOk result (SendsValue (data_of (map_of fields.now)) (S.written out.old) (S.written out.new)) }
{
    out.begin_map(Some(fields.len()))?;
    for i in 0..fields.len() {
        let (key, tree) = fields.at(i);
        out.key(key.as_str())?;
        send(tree, out)?;
    }
    out.end_map()
}

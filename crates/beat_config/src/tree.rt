#![tactic(auto, unfolding(crate::specs::Finding::note_all))]

ghost use Rattle.std.specs.Prelude.{◌≡◌, [], IfOk, OnOk};
ghost use Rattle.event_tree.specs.Tree.{value_of};
ghost use Rattle.toml.specs.View.{view, table_view, items_view};
ghost use Rattle.beat_config.specs.Finding.{seen_of, note_all};
ghost use Rattle.beat_config.specs.Tree.{tree_of, trees_in, fields_after, tree_findings, tree_item_findings, tree_member_findings};

use crate::SettingsError;
use crate::noted::Noted;
use crate::path::{key_path, member_path};
use event_tree::{Fields, Tree, Trees};
use toml::{Table, Value};
use wire_base::{NoMemory, Text};

impl Noted {
    /// The tree of a value. It recurses as deep as the value is nested, which the reader of TOML bounds.
    #[cycle(tree)]
    pub fn tree(&mut self, key: &Text, value: &Value) -> Result<Tree, NoMemory>
        ensures value { IfOk result (λ tree. value_of tree ≡ tree_of (view value.now)) }
        ensures findings { OnOk result (seen_of self.new ≡ note_all (seen_of self.old) (tree_findings key.now (view value.now))) }
    {
        match value {
            Value::String(text) => Ok(Tree::Str(Text::from_string(String::from_str(
                self.alloc, text,
            )?))),
            Value::Integer(number) => Ok(Tree::Int(*number)),
            Value::Boolean(truth) => Ok(Tree::Flag(*truth)),
            Value::Float(_) | Value::Datetime(_) => {
                let key = key.copy(self.alloc)?;
                self.fault(SettingsError::WrongKind { key });
                Ok(Tree::Null)
            }
            Value::Array(items) => Ok(Tree::List(self.trees(key, items)?)),
            Value::Table(members) => Ok(Tree::Map(self.fields(key, members)?)),
        }
    }

    #[cycle(tree)]
    fn trees(&mut self, key: &Text, items: &[Value]) -> Result<Trees, NoMemory>
        ensures value { IfOk result (λ trees. trees ≡ trees_in (items_view items.now)) }
        ensures findings { OnOk result (seen_of self.new ≡ note_all (seen_of self.old) (tree_item_findings key.now 0 (items_view items.now))) }
    {
        let mut trees = Trees::new(self.alloc);
        for (number, item) in items.iter().enumerate() {
            let key = member_path(self.alloc, key.as_str(), number)?;
            let tree = self.tree(&key, item)?;
            if trees.push(tree).is_err() {
                return Err(NoMemory);
            }
        }
        Ok(trees)
    }

    /// The fields of a table.
    #[cycle(tree)]
    pub fn fields(&mut self, key: &Text, members: &Table) -> Result<Fields, NoMemory>
        ensures value { IfOk result (λ fields. fields ≡ fields_after [] (table_view members.now)) }
        ensures findings { OnOk result (seen_of self.new ≡ note_all (seen_of self.old) (tree_member_findings key.now (table_view members.now))) }
    {
        let mut fields = Fields::new(self.alloc);
        for (name, member) in members.iter() {
            let key = key_path(self.alloc, key.as_str(), name.as_str())?;
            let tree = self.tree(&key, member)?;
            let name = Text::from_string(name.clone()?);
            if fields.set(name, tree).is_err() {
                return Err(NoMemory);
            }
        }
        Ok(fields)
    }
}

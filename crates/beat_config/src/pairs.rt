#![tactic(auto, unfolding(crate::specs::Finding::note_all))]

ghost use Rattle.std.specs.Prelude.{◌≡◌, [], IfOk, OnOk, option_map};
ghost use Rattle.event_tree.specs.Tree.{value_of};
ghost use Rattle.toml.specs.Data.{get_member, no_members, as_str, as_table};
ghost use Rattle.toml.specs.View.{view, table_view, items_view};
ghost use Rattle.beat_config.specs.Finding.{seen_of, note_all};
ghost use Rattle.beat_config.specs.Path.{key_path};
ghost use Rattle.beat_config.specs.Pairs.{scalar_of, scalar_findings, kind_findings, scalars_after, scalars_findings, texts_at_in, texts_at_findings, text_at_findings, integer_of, bound_findings, some_member_findings, some_item_findings, bounds_of, bounds_at, bound_value_findings, bounds_in, bounds_findings, ranges_findings, given_findings};

use crate::SettingsError;
use crate::member::member;
use crate::noted::Noted;
use crate::path::key_path;
use crate::text::Form;
use event_tree::{Bounds, Fields, TextAt, Tree};
use toml::{Table, Value};
use wire_base::{NoMemory, Text};

const BOUNDS: [&str; 4] = ["lt", "lte", "gt", "gte"];

impl Noted {
    /// Notes a table without a member.
    #[tactic(auto, using(crate::proofs::Lists::some_entries), unfolding(crate::specs::Finding::note_all))]
    pub fn check_some_member(&mut self, key: &Text, table: &Table) -> Result<(), NoMemory>
        ensures { OnOk result (seen_of self.new ≡ note_all (seen_of self.old) (some_member_findings key.now (table_view table.now))) }
    {
        if table.is_empty() {
            let key = key.copy(self.alloc)?;
            self.fault(SettingsError::OutOfRange { key, value: 0 });
        }
        Ok(())
    }

    /// Notes a list without a member.
    #[tactic(auto, using(crate::proofs::Lists::some_items), unfolding(crate::specs::Finding::note_all))]
    pub fn check_some_item(&mut self, key: &Text, items: &[Value]) -> Result<(), NoMemory>
        ensures { OnOk result (seen_of self.new ≡ note_all (seen_of self.old) (some_item_findings key.now (items_view items.now))) }
    {
        if items.is_empty() {
            let key = key.copy(self.alloc)?;
            self.fault(SettingsError::OutOfRange { key, value: 0 });
        }
        Ok(())
    }

    /// Values at field paths.
    pub fn scalars(&mut self, key: &Text, table: &Table) -> Result<Fields, NoMemory>
        ensures value { IfOk result (λ fields. fields ≡ scalars_after [] (table_view table.now)) }
        ensures findings { OnOk result (seen_of self.new ≡ note_all (seen_of self.old) (scalars_findings key.now (table_view table.now))) }
    {
        let mut fields = Fields::new(self.alloc);
        for (name, value) in table.iter() {
            let key = key_path(self.alloc, key.as_str(), name.as_str())?;
            let name = Text::from_string(name.clone()?);
            if let Some(value) = self.scalar(&key, &name, value)? {
                if fields.set(name, value).is_err() {
                    return Err(NoMemory);
                }
            }
        }
        Ok(fields)
    }

    #[tactic(auto, unfolding(crate::specs::Finding::note_all, crate::specs::Pairs::scalar_findings))]
    fn scalar(&mut self, key: &Text, name: &Text, value: &Value) -> Result<Option<Tree>, NoMemory>
        ensures value { IfOk result (λ found. option_map value_of found ≡ scalar_of (view value.now)) }
        ensures findings { OnOk result (seen_of self.new ≡ note_all (seen_of self.old) (scalar_findings key.now name.now (view value.now))) }
    {
        self.check_text(key, Form::FieldPath, name)?;
        self.scalar_value(key, value)
    }

    fn scalar_value(&mut self, key: &Text, value: &Value) -> Result<Option<Tree>, NoMemory>
        ensures value { IfOk result (λ found. option_map value_of found ≡ scalar_of (view value.now)) }
        ensures findings { OnOk result (seen_of self.new ≡ note_all (seen_of self.old) (kind_findings key.now (scalar_of (view value.now)))) }
    {
        match value {
            Value::String(text) => Ok(Some(Tree::Str(Text::from_string(String::from_str(
                self.alloc, text,
            )?)))),
            Value::Integer(number) => Ok(Some(Tree::Int(*number))),
            Value::Boolean(truth) => Ok(Some(Tree::Flag(*truth))),
            _ => {
                let key = key.copy(self.alloc)?;
                self.fault(SettingsError::WrongKind { key });
                Ok(None)
            }
        }
    }

    /// Texts or patterns at field paths.
    pub fn texts_at(
        &mut self,
        key: &Text,
        table: &Table,
        form: Form,
    ) -> Result<Vec<TextAt>, NoMemory>
        ensures value { IfOk result (λ texts. texts.items ≡ texts_at_in (table_view table.now)) }
        ensures findings { OnOk result (seen_of self.new ≡ note_all (seen_of self.old) (texts_at_findings form key.now (table_view table.now))) }
    {
        let mut texts = Vec::new(self.alloc);
        for (name, value) in table.iter() {
            let key = key_path(self.alloc, key.as_str(), name.as_str())?;
            let path = Text::from_string(name.clone()?);
            if let Some(text) = self.text_at(&key, &path, value, form)? {
                texts.push(TextAt { path, text })?;
            }
        }
        Ok(texts)
    }

    #[tactic(auto, unfolding(crate::specs::Finding::note_all, crate::specs::Pairs::text_at_findings))]
    fn text_at(
        &mut self,
        key: &Text,
        path: &Text,
        value: &Value,
        form: Form,
    ) -> Result<Option<Text>, NoMemory>
        ensures value { IfOk result (λ text. text ≡ as_str (view value.now)) }
        ensures findings { OnOk result (seen_of self.new ≡ note_all (seen_of self.old) (text_at_findings form key.now path.now (view value.now))) }
    {
        self.check_text(key, Form::FieldPath, path)?;
        self.text_value(key, value, form)
    }

    /// Bounds at field paths.
    pub fn ranges(
        &mut self,
        key: &Text,
        table: &Table,
        empty: &Table,
    ) -> Result<Vec<Bounds>, NoMemory>
        requires { table_view empty.now ≡ no_members }
        ensures value { IfOk result (λ bounds. bounds.items ≡ bounds_in (table_view table.now)) }
        ensures findings { OnOk result (seen_of self.new ≡ note_all (seen_of self.old) (ranges_findings key.now (table_view table.now))) }
    {
        let mut ranges = Vec::new(self.alloc);
        for (name, value) in table.iter() {
            let key = key_path(self.alloc, key.as_str(), name.as_str())?;
            let path = Text::from_string(name.clone()?);
            let bounds = self.bounds(&key, path, value, empty)?;
            ranges.push(bounds)?;
        }
        Ok(ranges)
    }

    #[tactic(auto, unfolding(crate::specs::Finding::note_all, crate::specs::Pairs::bounds_findings, crate::specs::Pairs::bounds_of))]
    fn bounds(
        &mut self,
        key: &Text,
        path: Text,
        value: &Value,
        empty: &Table,
    ) -> Result<Bounds, NoMemory>
        requires { table_view empty.now ≡ no_members }
        ensures value { IfOk result (λ bounds. bounds ≡ bounds_of path (view value.now)) }
        ensures findings { OnOk result (seen_of self.new ≡ note_all (seen_of self.old) (bounds_findings key.now path (view value.now))) }
    {
        self.check_text(key, Form::FieldPath, &path)?;
        let table = self.table(key.as_str(), value, &BOUNDS, &[], empty)?;
        self.check_given(key, value)?;
        self.bound_values(key.as_str(), path, table)
    }

    fn bound_values(&mut self, key: &str, path: Text, table: &Table) -> Result<Bounds, NoMemory>
        ensures value { IfOk result (λ bounds. bounds ≡ bounds_at path (table_view table.now)) }
        ensures findings { OnOk result (seen_of self.new ≡ note_all (seen_of self.old) (bound_value_findings key.now (table_view table.now))) }
    {
        let lt = self.integer(key, table, "lt")?;
        let lte = self.integer(key, table, "lte")?;
        let gt = self.integer(key, table, "gt")?;
        let gte = self.integer(key, table, "gte")?;
        Ok(Bounds {
            path,
            lt,
            lte,
            gt,
            gte,
        })
    }

    fn check_given(&mut self, key: &Text, value: &Value) -> Result<(), NoMemory>
        ensures { OnOk result (seen_of self.new ≡ note_all (seen_of self.old) (given_findings key.now (as_table (view value.now)))) }
    {
        match value.as_table() {
            Some(table) => self.check_some_member(key, table),
            None => Ok(()),
        }
    }

    /// The whole number at a key, any of 64 bits.
    fn integer(&mut self, path: &str, table: &Table, key: &str) -> Result<Option<i64>, NoMemory>
        ensures value { IfOk result (λ number. number ≡ integer_of (get_member key.now (table_view table.now))) }
        ensures findings { OnOk result (seen_of self.new ≡ note_all (seen_of self.old)
            (bound_findings (key_path path.now key.now) (get_member key.now (table_view table.now)))) }
    {
        let Some(value) = member(table, key) else {
            return Ok(None);
        };
        let number = value.as_integer();
        if number.is_none() {
            self.wrong_kind(path, key)?;
        }
        Ok(number)
    }
}

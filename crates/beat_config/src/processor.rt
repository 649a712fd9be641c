#![tactic(auto, unfolding(crate::specs::Finding::note_all))]

ghost use Rattle.std.specs.Prelude.{◌≡◌, [], codes, map, unwrap_or, IfOk, OnOk};
ghost use Rattle.toml.specs.Data.{Members, get_member, no_members};
ghost use Rattle.toml.specs.View.{view, table_view, items_view};
ghost use Rattle.beat_config.specs.Each.{each_findings, AreEach};
ghost use Rattle.beat_config.specs.Finding.{seen_of, note_all};
ghost use Rattle.beat_config.specs.Path.{key_path};
ghost use Rattle.beat_config.specs.Processors.{key_of, kind_of, known_of, required_of, when_findings, IsWhen, fields_findings, pair_of, pair_findings, pairs_in, pair_item_findings, pairs_of, pairs_findings, value_findings, IsOfKind, IsProcessorIn, processor_value_findings, IsKindIn, IsProcessor, of_kind_findings, kind_findings, processor_findings, AreProcessorsOf, processors_findings};
ghost use Rattle.beat_config.specs.Table.{members_at, members_of};
ghost use Rattle.beat_config.specs.Tree.{fields_after};

use crate::SettingsError;
use crate::condition::MOST_LEVELS;
use crate::member::member;
use crate::noted::Noted;
use crate::path::{key_path, member_path};
use crate::single::Limits;
use crate::text::{Form, or_empty};
use event_tree::{ConditionRule, Fields, ListOf, Pair, ProcessorRule};
use std::alloc::Global;
use toml::{Table, Value};
use wire_base::{NoMemory, Text};

/// The kinds of processors, by the one key of their table, in the byte order of the keys.
#[derive(Clone, Copy, Debug)]
pub(crate) enum ProcessorKind {
    AddFields,
    AddTags,
    DropEvent,
    DropFields,
    Rename,
}

const KINDS: [ProcessorKind; 5] = [
    ProcessorKind::AddFields,
    ProcessorKind::AddTags,
    ProcessorKind::DropEvent,
    ProcessorKind::DropFields,
    ProcessorKind::Rename,
];

const PROCESSORS: Limits = Limits { low: 0, high: 64 };

/// Any number of members.
const ANY: Limits = Limits {
    low: 0,
    high: 9_223_372_036_854_775_807,
};

impl ProcessorKind {
    fn key(self) -> &'static str
        ensures { result.now ≡ key_of self }
    {
        match self {
            ProcessorKind::AddFields => "add_fields",
            ProcessorKind::AddTags => "add_tags",
            ProcessorKind::DropEvent => "drop_event",
            ProcessorKind::DropFields => "drop_fields",
            ProcessorKind::Rename => "rename",
        }
    }

    fn known(self) -> &'static [&'static str]
        ensures { map (λ key. key.now) result.now ≡ known_of self }
    {
        match self {
            ProcessorKind::AddFields => &["fields", "target", "when"],
            ProcessorKind::AddTags => &["tags", "target", "when"],
            ProcessorKind::DropEvent => &["when"],
            ProcessorKind::DropFields => &["fields", "ignore_missing", "when"],
            ProcessorKind::Rename => &["fields", "ignore_missing", "fail_on_error", "when"],
        }
    }

    fn required(self) -> &'static [&'static str]
        ensures { map (λ key. key.now) result.now ≡ required_of self }
    {
        match self {
            ProcessorKind::AddTags => &["tags"],
            ProcessorKind::DropEvent => &["when"],
            _ => &["fields"],
        }
    }
}

/// The kind of a table: the first of which it has the key.
#[tactic(auto, unfolding(crate::specs::Processors::kind_of))]
fn kind_of(table: &Table) -> Option<ProcessorKind>
    ensures { result ≡ kind_of (table_view table.now) }
{
    for kind in KINDS {
        if member(table, kind.key()).is_some() {
            return Some(kind);
        }
    }
    None
}

fn text_or(alloc: Global, text: Option<Text>, default: &str) -> Result<Text, NoMemory>
    ensures { IfOk result (λ found. found ≡ unwrap_or text default.now) }
{
    match text {
        Some(text) => Ok(text),
        None => Ok(Text::from_string(String::from_str(alloc, default)?)),
    }
}

impl Noted {
    /// The processors: the list of tables `processors`.
    #[tactic(auto, using(crate::proofs::Lists::count_of_view), unfolding(crate::specs::Finding::note_all))]
    pub fn processors(
        &mut self,
        path: &str,
        document: &Table,
        empty: &Table,
    ) -> Result<Vec<ProcessorRule>, NoMemory>
        requires { table_view empty.now ≡ no_members }
        ensures value { IfOk result (λ rules. AreProcessorsOf (get_member (codes "processors") (table_view document.now)) rules.items) }
        ensures findings { OnOk result (seen_of self.new ≡ note_all (seen_of self.old)
            (processors_findings (key_path path.now (codes "processors")) (get_member (codes "processors") (table_view document.now)))) }
    {
        let Some(value) = member(document, "processors") else {
            return Ok(Vec::new(self.alloc));
        };
        let key = key_path(self.alloc, path, "processors")?;
        let Some(items) = value.as_array() else {
            self.fault(SettingsError::WrongKind { key });
            return Ok(Vec::new(self.alloc));
        };
        self.check_length(&key, items.len(), PROCESSORS)?;
        self.processor_items(&key, items, empty)
    }

    fn processor_items(
        &mut self,
        key: &Text,
        items: &[Value],
        empty: &Table,
    ) -> Result<Vec<ProcessorRule>, NoMemory>
        requires { table_view empty.now ≡ no_members }
        ensures value { IfOk result (λ rules. AreEach IsProcessor (items_view items.now) rules.items) }
        ensures findings { OnOk result (seen_of self.new ≡ note_all (seen_of self.old) (each_findings processor_findings key.now 0 (items_view items.now))) }
    {
        let mut rules = Vec::new(self.alloc);
        for (number, item) in items.iter().enumerate() {
            let key = member_path(self.alloc, key.as_str(), number)?;
            let rule = self.processor(&key, item, empty)?;
            rules.push(rule)?;
        }
        Ok(rules)
    }

    #[tactic(auto, unfolding(crate::specs::Finding::note_all, crate::specs::Processors::processor_findings, crate::specs::Processors::IsProcessor, crate::specs::Processors::kind_of))]
    fn processor(
        &mut self,
        key: &Text,
        value: &Value,
        empty: &Table,
    ) -> Result<ProcessorRule, NoMemory>
        requires { table_view empty.now ≡ no_members }
        ensures value { IfOk result (IsProcessor (view value.now)) }
        ensures findings { OnOk result (seen_of self.new ≡ note_all (seen_of self.old) (processor_findings key.now (view value.now))) }
    {
        match value.as_table() {
            Some(table) => self.processor_table(key, table, empty),
            None => {
                let key = key.copy(self.alloc)?;
                self.fault(SettingsError::WrongKind { key });
                Ok(self.no_processor())
            }
        }
    }

    fn processor_table(
        &mut self,
        key: &Text,
        table: &Table,
        empty: &Table,
    ) -> Result<ProcessorRule, NoMemory>
        requires { table_view empty.now ≡ no_members }
        ensures value { IfOk result (IsKindIn (table_view table.now) (kind_of (table_view table.now))) }
        ensures findings { OnOk result (seen_of self.new ≡ note_all (seen_of self.old) (kind_findings key.now (table_view table.now) (kind_of (table_view table.now)))) }
    {
        let Some(kind) = kind_of(table) else {
            self.check_known(key.as_str(), table, &[])?;
            let key = key_path(self.alloc, key.as_str(), "processor")?;
            self.fault(SettingsError::Missing { key });
            return Ok(self.no_processor());
        };
        self.check_known(key.as_str(), table, &[kind.key()])?;
        self.processor_of_kind(key, kind, table, empty)
    }

    fn processor_of_kind(
        &mut self,
        key: &Text,
        kind: ProcessorKind,
        table: &Table,
        empty: &Table,
    ) -> Result<ProcessorRule, NoMemory>
        requires { table_view empty.now ≡ no_members }
        ensures value { IfOk result (IsProcessorIn kind (members_at (get_member (key_of kind) (table_view table.now)))) }
        ensures findings { OnOk result (seen_of self.new ≡ note_all (seen_of self.old) (of_kind_findings key.now kind (table_view table.now))) }
    {
        let at = key.as_str();
        let name = kind.key();
        let known = kind.known();
        let required = kind.required();
        let inner = self.table_at(at, table, name, known, required, empty)?;
        let path = key_path(self.alloc, at, name)?;
        let below = path.as_str();
        let rule = self.processor_in(kind, below, inner, empty)?;
        Ok(rule)
    }

    fn processor_in(
        &mut self,
        kind: ProcessorKind,
        path: &str,
        table: &Table,
        empty: &Table,
    ) -> Result<ProcessorRule, NoMemory>
        requires { table_view empty.now ≡ no_members }
        ensures value { IfOk result (IsProcessorIn kind (table_view table.now)) }
        ensures findings { OnOk result (seen_of self.new ≡ note_all (seen_of self.old) (processor_value_findings kind path.now (table_view table.now))) }
    {
        let when = self.when(path, table, empty)?;
        let rule = self.rule_of_kind(kind, path, table, when)?;
        Ok(rule)
    }

    /// The condition under which a processor runs.
    fn when(
        &mut self,
        path: &str,
        table: &Table,
        empty: &Table,
    ) -> Result<Option<ConditionRule>, NoMemory>
        requires { table_view empty.now ≡ no_members }
        ensures value { IfOk result (IsWhen (get_member (codes "when") (table_view table.now))) }
        ensures findings { OnOk result (seen_of self.new ≡ note_all (seen_of self.old)
            (when_findings (key_path path.now (codes "when")) (get_member (codes "when") (table_view table.now)))) }
    {
        let Some(value) = member(table, "when") else {
            return Ok(None);
        };
        let key = key_path(self.alloc, path, "when")?;
        let rule = self.condition(&key, value, MOST_LEVELS, empty)?;
        Ok(Some(rule))
    }

    fn rule_of_kind(
        &mut self,
        kind: ProcessorKind,
        path: &str,
        table: &Table,
        when: Option<ConditionRule>,
    ) -> Result<ProcessorRule, NoMemory>
        ensures value { IfOk result (IsOfKind kind (table_view table.now) when) }
        ensures findings { OnOk result (seen_of self.new ≡ note_all (seen_of self.old) (value_findings kind path.now (table_view table.now))) }
    {
        match kind {
            ProcessorKind::AddFields => self.add_fields(path, table, when),
            ProcessorKind::AddTags => self.add_tags(path, table, when),
            ProcessorKind::DropEvent => Ok(self.drop_event(when)),
            ProcessorKind::DropFields => self.drop_fields(path, table, when),
            ProcessorKind::Rename => self.rename(path, table, when),
        }
    }

    fn add_fields(
        &mut self,
        path: &str,
        table: &Table,
        when: Option<ConditionRule>,
    ) -> Result<ProcessorRule, NoMemory>
        ensures value { IfOk result (IsOfKind ProcessorKind.AddFields (table_view table.now) when) }
        ensures findings { OnOk result (seen_of self.new ≡ note_all (seen_of self.old) (value_findings ProcessorKind.AddFields path.now (table_view table.now))) }
    {
        let fields = self.added(path, table)?;
        let target = self.text(path, table, "target", Form::Target)?;
        Ok(ProcessorRule::AddFields {
            fields,
            target: text_or(self.alloc, target, "fields")?,
            when,
        })
    }

    fn add_tags(
        &mut self,
        path: &str,
        table: &Table,
        when: Option<ConditionRule>,
    ) -> Result<ProcessorRule, NoMemory>
        ensures value { IfOk result (IsOfKind ProcessorKind.AddTags (table_view table.now) when) }
        ensures findings { OnOk result (seen_of self.new ≡ note_all (seen_of self.old) (value_findings ProcessorKind.AddTags path.now (table_view table.now))) }
    {
        let tags = self.texts(path, table, "tags", Form::Any, ANY)?;
        let target = self.text(path, table, "target", Form::FieldPath)?;
        Ok(ProcessorRule::AddTags {
            tags: ListOf::from_vec(tags),
            target: text_or(self.alloc, target, "tags")?,
            when,
        })
    }

    fn drop_event(&self, when: Option<ConditionRule>) -> ProcessorRule
        ensures { (table : Members) → IsOfKind ProcessorKind.DropEvent table when result }
    {
        match when {
            Some(when) => ProcessorRule::DropEvent { when },
            None => self.no_processor(),
        }
    }

    fn drop_fields(
        &mut self,
        path: &str,
        table: &Table,
        when: Option<ConditionRule>,
    ) -> Result<ProcessorRule, NoMemory>
        ensures value { IfOk result (IsOfKind ProcessorKind.DropFields (table_view table.now) when) }
        ensures findings { OnOk result (seen_of self.new ≡ note_all (seen_of self.old) (value_findings ProcessorKind.DropFields path.now (table_view table.now))) }
    {
        let fields = self.texts(path, table, "fields", Form::FieldPath, ANY)?;
        let ignore_missing = self.flag(path, table, "ignore_missing", false)?;
        Ok(ProcessorRule::DropFields {
            fields: ListOf::from_vec(fields),
            ignore_missing,
            when,
        })
    }

    fn rename(
        &mut self,
        path: &str,
        table: &Table,
        when: Option<ConditionRule>,
    ) -> Result<ProcessorRule, NoMemory>
        ensures value { IfOk result (IsOfKind ProcessorKind.Rename (table_view table.now) when) }
        ensures findings { OnOk result (seen_of self.new ≡ note_all (seen_of self.old) (value_findings ProcessorKind.Rename path.now (table_view table.now))) }
    {
        let fields = self.pairs(path, table)?;
        let ignore_missing = self.flag(path, table, "ignore_missing", false)?;
        let fail_on_error = self.flag(path, table, "fail_on_error", true)?;
        Ok(ProcessorRule::Rename {
            fields: ListOf::from_vec(fields),
            ignore_missing,
            fail_on_error,
            when,
        })
    }

    fn added(&mut self, path: &str, table: &Table) -> Result<Fields, NoMemory>
        ensures value { IfOk result (λ fields. fields ≡ fields_after [] (members_at (get_member (codes "fields") (table_view table.now)))) }
        ensures findings { OnOk result (seen_of self.new ≡ note_all (seen_of self.old)
            (fields_findings (key_path path.now (codes "fields")) (get_member (codes "fields") (table_view table.now)))) }
    {
        let Some(value) = member(table, "fields") else {
            return Ok(Fields::new(self.alloc));
        };
        let key = key_path(self.alloc, path, "fields")?;
        let Some(fields) = value.as_table() else {
            self.fault(SettingsError::WrongKind { key });
            return Ok(Fields::new(self.alloc));
        };
        self.fields(&key, fields)
    }

    fn pairs(&mut self, path: &str, table: &Table) -> Result<Vec<Pair>, NoMemory>
        ensures value { IfOk result (λ pairs. pairs.items ≡ pairs_of (get_member (codes "fields") (table_view table.now))) }
        ensures findings { OnOk result (seen_of self.new ≡ note_all (seen_of self.old)
            (pairs_findings (key_path path.now (codes "fields")) (get_member (codes "fields") (table_view table.now)))) }
    {
        let Some(value) = member(table, "fields") else {
            return Ok(Vec::new(self.alloc));
        };
        let key = key_path(self.alloc, path, "fields")?;
        let Some(items) = value.as_array() else {
            self.fault(SettingsError::WrongKind { key });
            return Ok(Vec::new(self.alloc));
        };
        self.pair_items(&key, items)
    }

    fn pair_items(&mut self, key: &Text, items: &[Value]) -> Result<Vec<Pair>, NoMemory>
        ensures value { IfOk result (λ pairs. pairs.items ≡ pairs_in (items_view items.now)) }
        ensures findings { OnOk result (seen_of self.new ≡ note_all (seen_of self.old) (pair_item_findings key.now 0 (items_view items.now))) }
    {
        let empty = Table::new(self.alloc);
        let mut pairs = Vec::new(self.alloc);
        for (number, item) in items.iter().enumerate() {
            let key = member_path(self.alloc, key.as_str(), number)?;
            let pair = self.pair(key.as_str(), item, &empty)?;
            pairs.push(pair)?;
        }
        Ok(pairs)
    }

    #[tactic(auto, unfolding(crate::specs::Finding::note_all, crate::specs::Processors::pair_findings))]
    fn pair(&mut self, path: &str, value: &Value, empty: &Table) -> Result<Pair, NoMemory>
        requires { table_view empty.now ≡ no_members }
        ensures value { IfOk result (λ pair. pair ≡ pair_of (view value.now)) }
        ensures findings { OnOk result (seen_of self.new ≡ note_all (seen_of self.old) (pair_findings path.now (view value.now))) }
    {
        let table = self.table(path, value, &["from", "to"], &["from", "to"], empty)?;
        let from = self.text(path, table, "from", Form::FieldPath)?;
        let to = self.text(path, table, "to", Form::FieldPath)?;
        Ok(Pair {
            from: or_empty(self.alloc, from),
            to: or_empty(self.alloc, to),
        })
    }

    fn no_processor(&self) -> ProcessorRule {
        ProcessorRule::AddTags {
            tags: ListOf::from_vec(Vec::new(self.alloc)),
            target: Text::from_string(String::new(self.alloc)),
            when: None,
        }
    }
}

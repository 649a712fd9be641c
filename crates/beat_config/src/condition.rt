#![tactic(auto, unfolding(crate::specs::Finding::note_all))]

ghost use Rattle.std.specs.Prelude.{◌≡◌, ◌∷◌, [], IfOk, OnOk};
ghost use Rattle.std.specs.Global.{Box};
ghost use Rattle.event_tree.specs.declared.condition_rule.ConditionRule.{ConditionRule};
ghost use Rattle.event_tree.specs.declared.condition_rules.ConditionRules.{ConditionRules};
ghost use Rattle.event_tree.specs.Condition.{rules_of};
ghost use Rattle.toml.specs.Data.{get_member, no_members, as_array, as_table};
ghost use Rattle.toml.specs.View.{view, table_view, items_view};
ghost use Rattle.beat_config.specs.Finding.{seen_of, note_all};
ghost use Rattle.beat_config.specs.Each.{each_findings, AreEach};
ghost use Rattle.beat_config.specs.Conditions.{key_of, kind_of, deep_findings, list_findings, table_body, paths_findings, body_findings, kind_findings, condition_findings, AreListed, IsBody, IsOfKind, IsCondition};
ghost use Rattle.beat_config.specs.Pairs.{scalars_after, texts_at_in, bounds_in};
ghost use Rattle.beat_config.specs.Table.{members_of};
ghost use Rattle.beat_config.specs.Text.{list_texts};

use crate::SettingsError;
use crate::member::member;
use crate::noted::Noted;
use crate::path::{key_path, member_path};
use crate::text::Form;
use event_tree::{Bounds, ConditionRule, ConditionRules, Fields, ListOf, TextAt};
use std::alloc::Global;
use toml::{Table, Value};
use wire_base::{NoMemory, Text};

/// The kinds of conditions, by the one key of their table, in the byte order of the keys.
#[derive(Clone, Copy, Debug)]
pub(crate) enum ConditionKind {
    And,
    Contains,
    Equals,
    HasFields,
    Not,
    Or,
    Range,
    Regexp,
}

const KINDS: [ConditionKind; 8] = [
    ConditionKind::And,
    ConditionKind::Contains,
    ConditionKind::Equals,
    ConditionKind::HasFields,
    ConditionKind::Not,
    ConditionKind::Or,
    ConditionKind::Range,
    ConditionKind::Regexp,
];

/// The levels that a document can have: at most 80 by a header, and at most 80 below it.
pub(crate) const MOST_LEVELS: usize = 160;

/// How deep a condition may be nested.
const MOST_CONDITIONS: usize = 16;

/// The fault of one that is nested deeper.
const TOO_DEEP: i64 = 17;

impl ConditionKind {
    fn key(self) -> &'static str
        ensures { result.now ≡ key_of self }
    {
        match self {
            ConditionKind::And => "and",
            ConditionKind::Contains => "contains",
            ConditionKind::Equals => "equals",
            ConditionKind::HasFields => "has_fields",
            ConditionKind::Not => "not",
            ConditionKind::Or => "or",
            ConditionKind::Range => "range",
            ConditionKind::Regexp => "regexp",
        }
    }
}

/// The kind of a table: the first of which it has the key.
#[tactic(auto, unfolding(crate::specs::Conditions::kind_of))]
fn kind_of(table: &Table) -> Option<ConditionKind>
    ensures { result ≡ kind_of (table_view table.now) }
{
    for kind in KINDS {
        if member(table, kind.key()).is_some() {
            return Some(kind);
        }
    }
    None
}

fn and_rule(rules: Vec<ConditionRule>) -> ConditionRule
    ensures { (listed : ConditionRules) × (result ≡ ConditionRule.And listed) × (rules_of listed ≡ rules.items) }
{
    ConditionRule::And(ConditionRules::from_vec(rules))
}

fn or_rule(rules: Vec<ConditionRule>) -> ConditionRule
    ensures { (listed : ConditionRules) × (result ≡ ConditionRule.Or listed) × (rules_of listed ≡ rules.items) }
{
    ConditionRule::Or(ConditionRules::from_vec(rules))
}

fn not_rule(alloc: Global, rule: ConditionRule) -> Result<ConditionRule, NoMemory>
    ensures { IfOk result (λ found. (inner : Box ConditionRule) × (found ≡ ConditionRule.Not inner) × (inner.value ≡ rule)) }
{
    let inner = Box::new(alloc, rule)?;
    Ok(ConditionRule::Not(inner))
}

impl Noted {
    /// A condition that takes one of these levels of the document.
    #[cycle(condition)]
    pub fn condition(
        &mut self,
        key: &Text,
        value: &Value,
        levels: usize,
        empty: &Table,
    ) -> Result<ConditionRule, NoMemory>
        requires { table_view empty.now ≡ no_members }
        ensures value { IfOk result (IsCondition levels (view value.now)) }
        ensures findings { OnOk result (seen_of self.new ≡ note_all (seen_of self.old) (condition_findings levels key.now (view value.now))) }
    {
        if levels == 0 {
            return Ok(self.no_condition());
        }
        self.check_depth(key, levels - 1)?;
        let Some(table) = value.as_table() else {
            let key = key.copy(self.alloc)?;
            self.fault(SettingsError::WrongKind { key });
            return Ok(self.no_condition());
        };
        let rule = self.table_condition(key, table, levels - 1, empty)?;
        Ok(rule)
    }

    #[cycle(condition)]
    fn table_condition(
        &mut self,
        key: &Text,
        table: &Table,
        levels: usize,
        empty: &Table,
    ) -> Result<ConditionRule, NoMemory>
        requires { table_view empty.now ≡ no_members }
        ensures value { IfOk result (IsOfKind (IsCondition levels) (table_view table.now) (kind_of (table_view table.now))) }
        ensures findings { OnOk result (seen_of self.new ≡ note_all (seen_of self.old)
            (kind_findings (condition_findings levels) key.now (table_view table.now) (kind_of (table_view table.now)))) }
    {
        let Some(kind) = kind_of(table) else {
            self.check_known(key.as_str(), table, &[])?;
            let key = key_path(self.alloc, key.as_str(), "condition")?;
            self.fault(SettingsError::Missing { key });
            return Ok(self.no_condition());
        };
        self.check_known(key.as_str(), table, &[kind.key()])?;
        let Some(value) = member(table, kind.key()) else {
            return Ok(self.no_condition());
        };
        let key = key_path(self.alloc, key.as_str(), kind.key())?;
        self.condition_body(&key, kind, value, levels, empty)
    }

    #[cycle(condition)]
    fn condition_body(
        &mut self,
        key: &Text,
        kind: ConditionKind,
        value: &Value,
        levels: usize,
        empty: &Table,
    ) -> Result<ConditionRule, NoMemory>
        requires { table_view empty.now ≡ no_members }
        ensures value { IfOk result (IsBody (IsCondition levels) kind (view value.now)) }
        ensures findings { OnOk result (seen_of self.new ≡ note_all (seen_of self.old)
            (body_findings (condition_findings levels) key.now kind (view value.now))) }
    {
        match kind {
            ConditionKind::And => {
                let rules = self.condition_list(key, value, levels, empty)?;
                Ok(and_rule(rules))
            }
            ConditionKind::Or => {
                let others = self.condition_list(key, value, levels, empty)?;
                Ok(or_rule(others))
            }
            ConditionKind::Not => {
                let rule = self.condition(key, value, levels, empty)?;
                let made = not_rule(self.alloc, rule)?;
                Ok(made)
            }
            ConditionKind::HasFields => {
                let paths = self.has_fields(key, value)?;
                Ok(ConditionRule::HasFields(ListOf::from_vec(paths)))
            }
            ConditionKind::Equals => Ok(ConditionRule::Equals(self.equals(key, value)?)),
            ConditionKind::Contains => {
                let texts = self.contains(key, value)?;
                Ok(ConditionRule::Contains(ListOf::from_vec(texts)))
            }
            ConditionKind::Regexp => {
                let texts = self.regexp(key, value)?;
                Ok(ConditionRule::Regexp(ListOf::from_vec(texts)))
            }
            ConditionKind::Range => {
                let ranges = self.range(key, value, empty)?;
                Ok(ConditionRule::Range(ListOf::from_vec(ranges)))
            }
        }
    }

    #[cycle(condition)]
    fn condition_list(
        &mut self,
        key: &Text,
        value: &Value,
        levels: usize,
        empty: &Table,
    ) -> Result<Vec<ConditionRule>, NoMemory>
        requires { table_view empty.now ≡ no_members }
        ensures value { IfOk result (λ rules. AreListed (IsCondition levels) (as_array (view value.now)) rules.items) }
        ensures findings { OnOk result (seen_of self.new ≡ note_all (seen_of self.old)
            (list_findings (condition_findings levels) key.now (as_array (view value.now)))) }
    {
        let Some(items) = value.as_array() else {
            let key = key.copy(self.alloc)?;
            self.fault(SettingsError::WrongKind { key });
            return Ok(Vec::new(self.alloc));
        };
        self.check_some_item(key, items)?;
        self.condition_items(key, items, levels, empty)
    }

    #[cycle(condition)]
    fn condition_items(
        &mut self,
        key: &Text,
        items: &[Value],
        levels: usize,
        empty: &Table,
    ) -> Result<Vec<ConditionRule>, NoMemory>
        requires { table_view empty.now ≡ no_members }
        ensures value { IfOk result (λ rules. AreEach (IsCondition levels) (items_view items.now) rules.items) }
        ensures findings { OnOk result (seen_of self.new ≡ note_all (seen_of self.old)
            (each_findings (condition_findings levels) key.now 0 (items_view items.now))) }
    {
        let mut rules = Vec::new(self.alloc);
        for (number, item) in items.iter().enumerate() {
            let key = member_path(self.alloc, key.as_str(), number)?;
            let rule = self.condition(&key, item, levels, empty)?;
            rules.push(rule)?;
        }
        Ok(rules)
    }

    /// Notes a condition that is nested too deep, with this many levels left below it.
    #[tactic(auto, unfolding(crate::specs::Finding::note_all, crate::specs::Conditions::deep_findings))]
    fn check_depth(&mut self, key: &Text, levels: usize) -> Result<(), NoMemory>
        ensures { OnOk result (seen_of self.new ≡ note_all (seen_of self.old) (deep_findings levels key.now)) }
    {
        if levels < MOST_LEVELS - MOST_CONDITIONS {
            let key = key.copy(self.alloc)?;
            let value = TOO_DEEP;
            self.fault(SettingsError::OutOfRange { key, value });
        }
        Ok(())
    }

    fn no_condition(&self) -> ConditionRule {
        ConditionRule::HasFields(ListOf::from_vec(Vec::new(self.alloc)))
    }

    fn has_fields(&mut self, key: &Text, value: &Value) -> Result<Vec<Text>, NoMemory>
        ensures value { IfOk result (λ paths. paths.items ≡ list_texts (as_array (view value.now))) }
        ensures findings { OnOk result (seen_of self.new ≡ note_all (seen_of self.old) (paths_findings key.now (as_array (view value.now)))) }
    {
        let Some(items) = value.as_array() else {
            let key = key.copy(self.alloc)?;
            self.fault(SettingsError::WrongKind { key });
            return Ok(Vec::new(self.alloc));
        };
        self.check_some_item(key, items)?;
        self.text_items(key, items, Form::FieldPath)
    }

    fn equals(&mut self, key: &Text, value: &Value) -> Result<Fields, NoMemory>
        ensures value { IfOk result (λ fields. fields ≡ scalars_after [] (members_of (view value.now))) }
        ensures findings { OnOk result (seen_of self.new ≡ note_all (seen_of self.old) (table_body key.now ConditionKind.Equals (as_table (view value.now)))) }
    {
        let Some(table) = value.as_table() else {
            let key = key.copy(self.alloc)?;
            self.fault(SettingsError::WrongKind { key });
            return Ok(Fields::new(self.alloc));
        };
        self.check_some_member(key, table)?;
        self.scalars(key, table)
    }

    fn contains(&mut self, key: &Text, value: &Value) -> Result<Vec<TextAt>, NoMemory>
        ensures value { IfOk result (λ texts. texts.items ≡ texts_at_in (members_of (view value.now))) }
        ensures findings { OnOk result (seen_of self.new ≡ note_all (seen_of self.old) (table_body key.now ConditionKind.Contains (as_table (view value.now)))) }
    {
        let Some(table) = value.as_table() else {
            let key = key.copy(self.alloc)?;
            self.fault(SettingsError::WrongKind { key });
            return Ok(Vec::new(self.alloc));
        };
        self.check_some_member(key, table)?;
        self.texts_at(key, table, Form::Any)
    }

    fn regexp(&mut self, key: &Text, value: &Value) -> Result<Vec<TextAt>, NoMemory>
        ensures value { IfOk result (λ texts. texts.items ≡ texts_at_in (members_of (view value.now))) }
        ensures findings { OnOk result (seen_of self.new ≡ note_all (seen_of self.old) (table_body key.now ConditionKind.Regexp (as_table (view value.now)))) }
    {
        let Some(table) = value.as_table() else {
            let key = key.copy(self.alloc)?;
            self.fault(SettingsError::WrongKind { key });
            return Ok(Vec::new(self.alloc));
        };
        self.check_some_member(key, table)?;
        self.texts_at(key, table, Form::TextPattern)
    }

    fn range(&mut self, key: &Text, value: &Value, empty: &Table) -> Result<Vec<Bounds>, NoMemory>
        requires { table_view empty.now ≡ no_members }
        ensures value { IfOk result (λ ranges. ranges.items ≡ bounds_in (members_of (view value.now))) }
        ensures findings { OnOk result (seen_of self.new ≡ note_all (seen_of self.old) (table_body key.now ConditionKind.Range (as_table (view value.now)))) }
    {
        let Some(table) = value.as_table() else {
            let key = key.copy(self.alloc)?;
            self.fault(SettingsError::WrongKind { key });
            return Ok(Vec::new(self.alloc));
        };
        self.check_some_member(key, table)?;
        self.ranges(key, table, empty)
    }
}

#![tactic(auto, unfolding(crate::specs::Finding::note_all))]

ghost use Rattle.std.specs.Prelude.{◌≡◌, [], codes, IfOk, OnOk};
ghost use Rattle.std.specs.List.{list_any};
ghost use Rattle.std.specs.Str.{bytes_eq};
ghost use Rattle.toml.specs.Data.{get_member, no_members};
ghost use Rattle.toml.specs.View.{view, table_view, items_view};
ghost use Rattle.beat_config.specs.Finding.{seen_of, note_all};
ghost use Rattle.beat_config.specs.Path.{key_path};
ghost use Rattle.beat_config.specs.Table.{members_of};
ghost use Rattle.beat_config.specs.Text.{text_of};
ghost use Rattle.beat_config.specs.Input.{ids_of, id_in, terminator_at, identity_at, identity_in, identity_of, identity_value_findings, identity_findings, input_in, repeated_findings, input_value_findings, input_findings, inputs_in, inputs_item_findings, inputs_of, inputs_findings};

use crate::SettingsError;
use crate::member::member;
use crate::noted::Noted;
use crate::path::{key_path, member_path};
use crate::single::Limits;
use crate::text::{Form, or_empty};
use event_tree::{IdentityRule, InputRule, LineRule, ListOf, Terminator};
use toml::{Table, Value};
use wire_base::{NoMemory, Text};

const INPUT: [&str; 14] = [
    "id",
    "paths",
    "file_identity",
    "fingerprint",
    "check_interval",
    "clean_removed",
    "close_inactive",
    "ignore_older",
    "clean_inactive",
    "line_terminator",
    "message_max_bytes",
    "include_lines",
    "exclude_lines",
    "multiline",
];

const IDENTITIES: [&str; 3] = ["fingerprint", "native", "path"];

const TERMINATORS: [&str; 4] = [
    "auto",
    "line_feed",
    "carriage_return_line_feed",
    "null_terminator",
];

const INPUTS: Limits = Limits { low: 1, high: 64 };

const PATHS: Limits = Limits { low: 1, high: 64 };

const PATTERNS: Limits = Limits { low: 0, high: 64 };

const OFFSET: Limits = Limits {
    low: 0,
    high: 1_048_576,
};

const LENGTH: Limits = Limits {
    low: 64,
    high: 1_048_576,
};

const MESSAGE_MAX_BYTES: Limits = Limits {
    low: 1,
    high: 16_777_216,
};

impl Noted {
    /// The inputs: the list of tables `inputs`.
    #[tactic(auto, using(crate::proofs::Lists::count_of_view), unfolding(crate::specs::Finding::note_all))]
    pub fn inputs(
        &mut self,
        path: &str,
        document: &Table,
        empty: &Table,
    ) -> Result<Vec<InputRule>, NoMemory>
        requires { table_view empty.now ≡ no_members }
        ensures value { IfOk result (λ rules. rules.items ≡ inputs_of (get_member (codes "inputs") (table_view document.now))) }
        ensures findings { OnOk result (seen_of self.new ≡ note_all (seen_of self.old)
            (inputs_findings (key_path path.now (codes "inputs")) (get_member (codes "inputs") (table_view document.now)))) }
    {
        let Some(value) = member(document, "inputs") else {
            return Ok(Vec::new(self.alloc));
        };
        let key = key_path(self.alloc, path, "inputs")?;
        let Some(items) = value.as_array() else {
            self.fault(SettingsError::WrongKind { key });
            return Ok(Vec::new(self.alloc));
        };
        self.check_length(&key, items.len(), INPUTS)?;
        self.input_items(&key, items, empty)
    }

    #[tactic(auto, using(crate::proofs::Inputs::ids_none), unfolding(crate::specs::Finding::note_all))]
    fn input_items(
        &mut self,
        key: &Text,
        items: &[Value],
        empty: &Table,
    ) -> Result<Vec<InputRule>, NoMemory>
        requires { table_view empty.now ≡ no_members }
        ensures value { IfOk result (λ rules. rules.items ≡ inputs_in (items_view items.now)) }
        ensures findings { OnOk result (seen_of self.new ≡ note_all (seen_of self.old) (inputs_item_findings key.now 0 [] (items_view items.now))) }
    {
        let mut rules = Vec::new(self.alloc);
        for (number, item) in items.iter().enumerate() {
            let path = member_path(self.alloc, key.as_str(), number)?;
            let rule = self.input(path.as_str(), item, &rules, empty)?;
            rules.push(rule)?;
        }
        Ok(rules)
    }

    /// One input, after others.
    #[tactic(auto, unfolding(crate::specs::Finding::note_all, crate::specs::Input::input_findings))]
    fn input(
        &mut self,
        path: &str,
        value: &Value,
        earlier: &[InputRule],
        empty: &Table,
    ) -> Result<InputRule, NoMemory>
        requires { table_view empty.now ≡ no_members }
        ensures value { IfOk result (λ rule. rule ≡ input_in (members_of (view value.now))) }
        ensures id { IfOk result (λ rule. rule.id ≡ id_in (members_of (view value.now))) }
        ensures findings { OnOk result (seen_of self.new ≡ note_all (seen_of self.old)
            (input_findings path.now (ids_of earlier.now) (view value.now))) }
    {
        let table = self.table(path, value, &INPUT, &["id", "paths"], empty)?;
        self.check_repeated(path, table, earlier)?;
        self.input_values(path, table, empty)
    }

    #[tactic(auto, unfolding(crate::specs::Finding::note_all, crate::specs::Input::repeated_findings))]
    fn check_repeated(
        &mut self,
        path: &str,
        table: &Table,
        earlier: &[InputRule],
    ) -> Result<(), NoMemory>
        ensures { OnOk result (seen_of self.new ≡ note_all (seen_of self.old)
            (repeated_findings (key_path path.now (codes "id")) (ids_of earlier.now) (text_of (get_member (codes "id") (table_view table.now))))) }
    {
        let Some(value) = member(table, "id") else {
            return Ok(());
        };
        let Some(id) = value.as_str() else {
            return Ok(());
        };
        if has_id(earlier, id) {
            self.bad_text(path, "id")?;
        }
        Ok(())
    }

    fn input_values(
        &mut self,
        path: &str,
        table: &Table,
        empty: &Table,
    ) -> Result<InputRule, NoMemory>
        requires { table_view empty.now ≡ no_members }
        ensures value { IfOk result (λ rule. rule ≡ input_in (table_view table.now)) }
        ensures id { IfOk result (λ rule. rule.id ≡ id_in (table_view table.now)) }
        ensures findings { OnOk result (seen_of self.new ≡ note_all (seen_of self.old) (input_value_findings path.now (table_view table.now))) }
    {
        let id = self.text(path, table, "id", Form::Id)?;
        let paths = self.texts(path, table, "paths", Form::Glob, PATHS)?;
        let file_identity = self.identity(path, table, empty)?;
        let times = self.times(path, table)?;
        let clean_removed = self.flag(path, table, "clean_removed", true)?;
        let terminator = self.choice(path, table, "line_terminator", &TERMINATORS, 0)?;
        let message_max_bytes = self.whole(
            path,
            table,
            "message_max_bytes",
            MESSAGE_MAX_BYTES,
            10_485_760,
        )?;
        let include_lines = self.texts(path, table, "include_lines", Form::LinePattern, PATTERNS)?;
        let exclude_lines = self.texts(path, table, "exclude_lines", Form::LinePattern, PATTERNS)?;
        let multiline = self.group(path, table, message_max_bytes, empty)?;
        Ok(InputRule {
            id: or_empty(self.alloc, id),
            paths: ListOf::from_vec(paths),
            file_identity,
            check_interval: times.check_interval,
            clean_removed,
            close_inactive: times.close_inactive,
            ignore_older: times.ignore_older,
            clean_inactive: times.clean_inactive,
            lines: LineRule {
                terminator: terminator_at(terminator),
                message_max_bytes,
            },
            include_lines: ListOf::from_vec(include_lines),
            exclude_lines: ListOf::from_vec(exclude_lines),
            multiline,
        })
    }

    #[tactic(auto, unfolding(crate::specs::Finding::note_all, crate::specs::Input::identity_findings, crate::specs::Input::identity_of))]
    fn identity(
        &mut self,
        path: &str,
        table: &Table,
        empty: &Table,
    ) -> Result<IdentityRule, NoMemory>
        requires { table_view empty.now ≡ no_members }
        ensures value { IfOk result (λ rule. rule ≡ identity_of (table_view table.now)) }
        ensures findings { OnOk result (seen_of self.new ≡ note_all (seen_of self.old) (identity_findings path.now (table_view table.now))) }
    {
        let fingerprint = self.table_at(
            path,
            table,
            "fingerprint",
            &["offset", "length"],
            &[],
            empty,
        )?;
        let inner = key_path(self.alloc, path, "fingerprint")?;
        let rule = self.identity_values(path, table, inner.as_str(), fingerprint)?;
        Ok(rule)
    }

    fn identity_values(
        &mut self,
        path: &str,
        table: &Table,
        inner: &str,
        fingerprint: &Table,
    ) -> Result<IdentityRule, NoMemory>
        ensures value { IfOk result (λ rule. rule ≡ identity_in (table_view table.now) (table_view fingerprint.now)) }
        ensures findings { OnOk result (seen_of self.new ≡ note_all (seen_of self.old)
            (identity_value_findings path.now inner.now (table_view table.now) (table_view fingerprint.now))) }
    {
        let place = self.choice(path, table, "file_identity", &IDENTITIES, 0)?;
        let offset = self.whole(inner, fingerprint, "offset", OFFSET, 0)?;
        let length = self.whole(inner, fingerprint, "length", LENGTH, 1_024)?;
        Ok(identity_at(place, offset, length))
    }
}

#[tactic(auto, unfolding(crate::specs::Input::ids_of))]
fn has_id(rules: &[InputRule], id: &str) -> bool
    ensures { result ≡ list_any (λ earlier. bytes_eq earlier id.now) (ids_of rules.now) }
{
    for rule in rules {
        if rule.id.as_str() == id {
            return true;
        }
    }
    false
}

fn terminator_at(place: usize) -> Terminator
    ensures { result ≡ terminator_at place }
{
    match place {
        1 => Terminator::LineFeed,
        2 => Terminator::CarriageReturnLineFeed,
        3 => Terminator::NullTerminator,
        _ => Terminator::Auto,
    }
}

fn identity_at(place: usize, offset: u64, length: u64) -> IdentityRule
    ensures { result ≡ identity_at place offset length }
{
    match place {
        1 => IdentityRule::Native,
        2 => IdentityRule::Path,
        _ => IdentityRule::Fingerprint { offset, length },
    }
}

#![tactic(auto, unfolding(crate::specs::Finding::note_all))]

ghost use Rattle.std.specs.Prelude.{◌≡◌, map, IfOk, OnOk};
ghost use Rattle.toml.specs.Data.{get_member, no_members};
ghost use Rattle.toml.specs.View.{view, table_view};
ghost use Rattle.beat_config.specs.Finding.{seen_of, note_all};
ghost use Rattle.beat_config.specs.Path.{key_path};
ghost use Rattle.beat_config.specs.Table.{unknown_findings, missing_findings, keys_findings, members_of, members_at, table_findings, table_at_findings};

use crate::SettingsError;
use crate::member::member;
use crate::names::name_place;
use crate::noted::Noted;
use crate::path::key_path;
use toml::{Table, Value};
use wire_base::NoMemory;

impl Noted {
    /// The table that a value is, or the empty one.
    pub fn table<'a>(
        &mut self,
        path: &str,
        value: &'a Value,
        known: &[&str],
        required: &[&str],
        empty: &'a Table,
    ) -> Result<&'a Table, NoMemory>
        requires { table_view empty.now ≡ no_members }
        ensures value { IfOk result (λ table. table_view table.now ≡ members_of (view value.now)) }
        ensures findings { OnOk result (seen_of self.new ≡ note_all (seen_of self.old)
            (table_findings path.now (map (λ key. key.now) known.now) (map (λ key. key.now) required.now) (view value.now))) }
    {
        match value.as_table() {
            Some(table) => {
                self.check_keys(path, table, known, required)?;
                Ok(table)
            }
            None => {
                let key = key_path(self.alloc, "", path)?;
                self.fault(SettingsError::WrongKind { key });
                Ok(empty)
            }
        }
    }

    /// The table at a key, or the empty one.
    pub fn table_at<'a>(
        &mut self,
        path: &str,
        table: &'a Table,
        key: &str,
        known: &[&str],
        required: &[&str],
        empty: &'a Table,
    ) -> Result<&'a Table, NoMemory>
        requires { table_view empty.now ≡ no_members }
        ensures value { IfOk result (λ inner. table_view inner.now ≡ members_at (get_member key.now (table_view table.now))) }
        ensures findings { OnOk result (seen_of self.new ≡ note_all (seen_of self.old)
            (table_at_findings (key_path path.now key.now) (map (λ key. key.now) known.now) (map (λ key. key.now) required.now)
            (get_member key.now (table_view table.now)))) }
    {
        let Some(value) = member(table, key) else {
            return Ok(empty);
        };
        let path = key_path(self.alloc, path, key)?;
        self.table(path.as_str(), value, known, required, empty)
    }

    /// Notes the keys of a table that are not known, and the required ones that are absent.
    pub fn check_keys(
        &mut self,
        path: &str,
        table: &Table,
        known: &[&str],
        required: &[&str],
    ) -> Result<(), NoMemory>
        ensures { OnOk result (seen_of self.new ≡ note_all (seen_of self.old)
            (keys_findings path.now (map (λ key. key.now) known.now) (map (λ key. key.now) required.now) (table_view table.now))) }
    {
        self.check_known(path, table, known)?;
        self.check_required(path, table, required)
    }

    /// Notes the keys of a table that are not known.
    pub fn check_known(&mut self, path: &str, table: &Table, known: &[&str]) -> Result<(), NoMemory>
        ensures { OnOk result (seen_of self.new ≡ note_all (seen_of self.old)
            (unknown_findings path.now (map (λ key. key.now) known.now) (table_view table.now))) }
    {
        for (key, _) in table.iter() {
            if name_place(known, key.as_str()).is_none() {
                let key = key_path(self.alloc, path, key.as_str())?;
                self.fault(SettingsError::Unknown { key });
            }
        }
        Ok(())
    }

    fn check_required(
        &mut self,
        path: &str,
        table: &Table,
        required: &[&str],
    ) -> Result<(), NoMemory>
        ensures { OnOk result (seen_of self.new ≡ note_all (seen_of self.old)
            (missing_findings path.now (map (λ key. key.now) required.now) (table_view table.now))) }
    {
        for key in required {
            if member(table, key).is_none() {
                let key = key_path(self.alloc, path, key)?;
                self.fault(SettingsError::Missing { key });
            }
        }
        Ok(())
    }
}

#![tactic(auto, unfolding(crate::specs::Finding::note_all))]

ghost use Rattle.std.specs.Prelude.{◌≡◌, ◌≤◌, [], ◌∷◌, map, IfSome, IfOk, OnOk};
ghost use Rattle.toml.specs.Data.{get_member};
ghost use Rattle.toml.specs.View.{table_view};
ghost use Rattle.beat_config.specs.Finding.{seen_of, note_all};
ghost use Rattle.beat_config.specs.declared.settings_error.SettingsError.TheVariants.{WrongKind, BadText, OutOfRange};
ghost use Rattle.beat_config.specs.Path.{key_path};
ghost use Rattle.beat_config.specs.Single.{flag_of, flag_findings, whole_of, whole_findings, number_in, duration_of, duration_findings, choice_of, choice_findings};

use crate::SettingsError;
use crate::duration::milliseconds;
use crate::member::member;
use crate::names::name_place;
use crate::noted::Noted;
use crate::path::key_path;
use toml::Table;
use wire_base::NoMemory;

/// The least and the greatest number that is taken.
#[derive(Clone, Copy, Debug)]
pub(crate) struct Limits {
    pub low: u64,
    pub high: u64,
}

impl Noted {
    /// The truth value at a key.
    pub fn flag(
        &mut self,
        path: &str,
        table: &Table,
        key: &str,
        default: bool,
    ) -> Result<bool, NoMemory>
        ensures value { IfOk result (λ flag. flag ≡ flag_of default (get_member key.now (table_view table.now))) }
        ensures findings { OnOk result (seen_of self.new ≡ note_all (seen_of self.old)
            (flag_findings (key_path path.now key.now) (get_member key.now (table_view table.now)))) }
    {
        let Some(value) = member(table, key) else {
            return Ok(default);
        };
        match value.as_bool() {
            Some(flag) => Ok(flag),
            None => {
                self.wrong_kind(path, key)?;
                Ok(default)
            }
        }
    }

    /// The whole number at a key.
    pub fn whole(
        &mut self,
        path: &str,
        table: &Table,
        key: &str,
        limits: Limits,
        default: u64,
    ) -> Result<u64, NoMemory>
        ensures value { IfOk result (λ number. number ≡ whole_of limits default (get_member key.now (table_view table.now))) }
        ensures within { default ≤ limits.high → IfOk result (λ number. number ≤ limits.high) }
        ensures findings { OnOk result (seen_of self.new ≡ note_all (seen_of self.old)
            (whole_findings limits (key_path path.now key.now) (get_member key.now (table_view table.now)))) }
    {
        let Some(value) = member(table, key) else {
            return Ok(default);
        };
        let Some(number) = value.as_integer() else {
            self.wrong_kind(path, key)?;
            return Ok(default);
        };
        match number_in(limits, number) {
            Some(number) => Ok(number),
            None => {
                self.out_of_range(path, key, number)?;
                Ok(default)
            }
        }
    }

    /// The milliseconds of the duration at a key.
    pub fn duration(
        &mut self,
        path: &str,
        table: &Table,
        key: &str,
        limits: Limits,
        default: u64,
    ) -> Result<u64, NoMemory>
        ensures value { IfOk result (λ number. number ≡ duration_of limits default (get_member key.now (table_view table.now))) }
        ensures findings { OnOk result (seen_of self.new ≡ note_all (seen_of self.old)
            (duration_findings limits (key_path path.now key.now) (get_member key.now (table_view table.now)))) }
    {
        let Some(value) = member(table, key) else {
            return Ok(default);
        };
        let Some(text) = value.as_str() else {
            self.wrong_kind(path, key)?;
            return Ok(default);
        };
        let Some(number) = milliseconds(text.as_bytes()) else {
            self.bad_text(path, key)?;
            return Ok(default);
        };
        match number_in(limits, number) {
            Some(number) => Ok(number),
            None => {
                self.out_of_range(path, key, number)?;
                Ok(default)
            }
        }
    }

    /// The place among the names of the text at a key.
    pub fn choice(
        &mut self,
        path: &str,
        table: &Table,
        key: &str,
        names: &[&str],
        default: usize,
    ) -> Result<usize, NoMemory>
        ensures value { IfOk result (λ place. place ≡ choice_of (map (λ name. name.now) names.now) default (get_member key.now (table_view table.now))) }
        ensures findings { OnOk result (seen_of self.new ≡ note_all (seen_of self.old)
            (choice_findings (map (λ name. name.now) names.now) (key_path path.now key.now) (get_member key.now (table_view table.now)))) }
    {
        let Some(value) = member(table, key) else {
            return Ok(default);
        };
        let Some(text) = value.as_str() else {
            self.wrong_kind(path, key)?;
            return Ok(default);
        };
        match name_place(names, text) {
            Some(place) => Ok(place),
            None => {
                self.bad_text(path, key)?;
                Ok(default)
            }
        }
    }

    pub fn wrong_kind(&mut self, path: &str, key: &str) -> Result<(), NoMemory>
        ensures { OnOk result (seen_of self.new ≡ note_all (seen_of self.old) (WrongKind (key_path path.now key.now) ∷ [])) }
    {
        let key = key_path(self.alloc, path, key)?;
        self.fault(SettingsError::WrongKind { key });
        Ok(())
    }

    pub fn bad_text(&mut self, path: &str, key: &str) -> Result<(), NoMemory>
        ensures { OnOk result (seen_of self.new ≡ note_all (seen_of self.old) (BadText (key_path path.now key.now) ∷ [])) }
    {
        let key = key_path(self.alloc, path, key)?;
        self.fault(SettingsError::BadText { key });
        Ok(())
    }

    pub fn out_of_range(&mut self, path: &str, key: &str, value: i64) -> Result<(), NoMemory>
        ensures { OnOk result (seen_of self.new ≡ note_all (seen_of self.old) (OutOfRange (key_path path.now key.now) value ∷ [])) }
    {
        let key = key_path(self.alloc, path, key)?;
        self.fault(SettingsError::OutOfRange { key, value });
        Ok(())
    }
}

pub(crate) fn number_in(limits: Limits, number: i64) -> Option<u64>
    ensures value { result ≡ number_in limits number }
    ensures within { IfSome result (λ number. number ≤ limits.high) }
{
    match u64::try_from(number) {
        Ok(number) if limits.low <= number && number <= limits.high => Some(number),
        _ => None,
    }
}

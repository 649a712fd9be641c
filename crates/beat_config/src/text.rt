#![tactic(auto, unfolding(crate::specs::Finding::note_all))]

ghost use Rattle.std.specs.Prelude.{◌≡◌, ◌<◌, ◌^◌, [], ◌∷◌, pos, unwrap_or, IfOk, OnOk};
ghost use Rattle.event_tree.specs.Parts.{parts_of, empty_place};
ghost use Rattle.glob_paths.specs.Fault.{fault_of};
ghost use Rattle.toml.specs.Data.{get_member, as_str};
ghost use Rattle.toml.specs.View.{view, table_view, items_view};
ghost use Rattle.beat_config.specs.Finding.{seen_of, note_all};
ghost use Rattle.beat_config.specs.declared.settings_error.SettingsError.TheVariants.{WrongKind, BadText, OutOfRange, BadPattern};
ghost use Rattle.beat_config.specs.Path.{key_path};
ghost use Rattle.beat_config.specs.Single.{range_findings};
ghost use Rattle.beat_config.specs.Text.{text_findings, value_findings, text_of, key_findings, texts_in, member_findings, texts_of, texts_findings};

use crate::SettingsError;
use crate::member::member;
use crate::names::is_name;
use crate::noted::Noted;
use crate::path::{key_path, member_path};
use crate::single::{Limits, number_in};
use event_tree::PathError;
use glob_paths::GlobError;
use patterns::{is_line_pattern, is_text_pattern};
use std::alloc::Global;
use toml::{Table, Value};
use wire_base::{NoMemory, Text};

/// The most bytes of an id.
const MAX_ID: usize = 64;

/// The text, or the empty one.
pub(crate) fn or_empty(alloc: Global, text: Option<Text>) -> Text
    ensures { result ≡ unwrap_or text [] }
{
    match text {
        Some(text) => text,
        None => Text::from_string(String::new(alloc)),
    }
}

/// What a text has to be.
#[derive(Clone, Copy, Debug)]
pub(crate) enum Form {
    Any,
    Id,
    Glob,
    /// For lines, which may be any bytes.
    LinePattern,
    TextPattern,
    FieldPath,
    /// A field path, or the empty text.
    Target,
}

impl Noted {
    /// The text at a key.
    pub fn text(
        &mut self,
        path: &str,
        table: &Table,
        key: &str,
        form: Form,
    ) -> Result<Option<Text>, NoMemory>
        ensures value { IfOk result (λ text. text ≡ text_of (get_member key.now (table_view table.now))) }
        ensures findings { OnOk result (seen_of self.new ≡ note_all (seen_of self.old)
            (key_findings form (key_path path.now key.now) (get_member key.now (table_view table.now)))) }
    {
        let Some(value) = member(table, key) else {
            return Ok(None);
        };
        let key = key_path(self.alloc, path, key)?;
        self.text_value(&key, value, form)
    }

    /// The texts of the list at a key.
    #[tactic(auto, using(crate::proofs::Lists::count_of_view), unfolding(crate::specs::Finding::note_all))]
    pub fn texts(
        &mut self,
        path: &str,
        table: &Table,
        key: &str,
        form: Form,
        limits: Limits,
    ) -> Result<Vec<Text>, NoMemory>
        ensures value { IfOk result (λ texts. texts.items ≡ texts_of (get_member key.now (table_view table.now))) }
        ensures findings { OnOk result (seen_of self.new ≡ note_all (seen_of self.old)
            (texts_findings form limits (key_path path.now key.now) (get_member key.now (table_view table.now)))) }
    {
        let Some(value) = member(table, key) else {
            return Ok(Vec::new(self.alloc));
        };
        let key = key_path(self.alloc, path, key)?;
        let Some(items) = value.as_array() else {
            self.fault(SettingsError::WrongKind { key });
            return Ok(Vec::new(self.alloc));
        };
        self.check_length(&key, items.len(), limits)?;
        self.text_items(&key, items, form)
    }

    /// The texts among the members of a list.
    pub fn text_items(
        &mut self,
        key: &Text,
        items: &[Value],
        form: Form,
    ) -> Result<Vec<Text>, NoMemory>
        ensures value { IfOk result (λ texts. texts.items ≡ texts_in (items_view items.now)) }
        ensures findings { OnOk result (seen_of self.new ≡ note_all (seen_of self.old) (member_findings form key.now 0 (items_view items.now))) }
    {
        let mut texts = Vec::new(self.alloc);
        for (number, item) in items.iter().enumerate() {
            let key = member_path(self.alloc, key.as_str(), number)?;
            if let Some(text) = self.text_value(&key, item, form)? {
                texts.push(text)?;
            }
        }
        Ok(texts)
    }

    /// The text that a value is.
    pub fn text_value(
        &mut self,
        key: &Text,
        value: &Value,
        form: Form,
    ) -> Result<Option<Text>, NoMemory>
        ensures value { IfOk result (λ text. text ≡ as_str (view value.now)) }
        ensures findings { OnOk result (seen_of self.new ≡ note_all (seen_of self.old) (value_findings form key.now (view value.now))) }
    {
        let Some(text) = value.as_str() else {
            let key = key.copy(self.alloc)?;
            self.fault(SettingsError::WrongKind { key });
            return Ok(None);
        };
        let text = Text::from_string(String::from_str(self.alloc, text)?);
        self.check_text(key, form, &text)?;
        Ok(Some(text))
    }

    /// Notes what is wrong with a text of this form.
    pub fn check_text(&mut self, key: &Text, form: Form, text: &Text) -> Result<(), NoMemory>
        ensures { OnOk result (seen_of self.new ≡ note_all (seen_of self.old) (text_findings form key.now text.now)) }
    {
        match form {
            Form::Any => Ok(()),
            Form::Id => self.check_id(key, text),
            Form::Glob => self.check_glob(key, text),
            Form::LinePattern => self.check_line_pattern(key, text),
            Form::TextPattern => self.check_text_pattern(key, text),
            Form::FieldPath => self.check_field_path(key, text),
            Form::Target => self.check_target(key, text),
        }
    }

    fn check_id(&mut self, key: &Text, text: &Text) -> Result<(), NoMemory>
        ensures { OnOk result (seen_of self.new ≡ note_all (seen_of self.old) (text_findings Form.Id key.now text.now)) }
    {
        if is_name(text.bytes(), MAX_ID) {
            return Ok(());
        }
        self.bad_value(key)
    }

    fn check_glob(&mut self, key: &Text, text: &Text) -> Result<(), NoMemory>
        ensures { OnOk result (seen_of self.new ≡ note_all (seen_of self.old) (text_findings Form.Glob key.now text.now)) }
    {
        match glob_paths::Glob::read(self.alloc, text) {
            Ok(_) => Ok(()),
            Err(GlobError::NoMemory) => Err(NoMemory),
            Err(fault) => {
                let key = key.copy(self.alloc)?;
                self.fault(SettingsError::BadGlob { key, fault });
                Ok(())
            }
        }
    }

    fn check_line_pattern(&mut self, key: &Text, text: &Text) -> Result<(), NoMemory>
        ensures { OnOk result (seen_of self.new ≡ note_all (seen_of self.old) (text_findings Form.LinePattern key.now text.now)) }
    {
        if is_line_pattern(self.alloc, text.as_str())? {
            return Ok(());
        }
        self.bad_pattern(key)
    }

    fn check_text_pattern(&mut self, key: &Text, text: &Text) -> Result<(), NoMemory>
        ensures { OnOk result (seen_of self.new ≡ note_all (seen_of self.old) (text_findings Form.TextPattern key.now text.now)) }
    {
        if is_text_pattern(self.alloc, text.as_str())? {
            return Ok(());
        }
        self.bad_pattern(key)
    }

    fn bad_pattern(&mut self, key: &Text) -> Result<(), NoMemory>
        ensures { OnOk result (seen_of self.new ≡ note_all (seen_of self.old) (BadPattern key.now ∷ [])) }
    {
        let key = key.copy(self.alloc)?;
        self.fault(SettingsError::BadPattern { key });
        Ok(())
    }

    fn check_target(&mut self, key: &Text, text: &Text) -> Result<(), NoMemory>
        ensures { OnOk result (seen_of self.new ≡ note_all (seen_of self.old) (text_findings Form.Target key.now text.now)) }
    {
        if text.as_str().is_empty() {
            return Ok(());
        }
        self.check_field_path(key, text)
    }

    fn check_field_path(&mut self, key: &Text, text: &Text) -> Result<(), NoMemory>
        ensures { OnOk result (seen_of self.new ≡ note_all (seen_of self.old) (text_findings Form.FieldPath key.now text.now)) }
    {
        match event_tree::FieldPath::read(self.alloc, text) {
            Ok(_) => Ok(()),
            Err(PathError::NoMemory) => Err(NoMemory),
            Err(PathError::EmptyPart { .. }) => self.bad_value(key),
        }
    }

    pub fn bad_value(&mut self, key: &Text) -> Result<(), NoMemory>
        ensures { OnOk result (seen_of self.new ≡ note_all (seen_of self.old) (BadText key.now ∷ [])) }
    {
        let key = key.copy(self.alloc)?;
        self.fault(SettingsError::BadText { key });
        Ok(())
    }

    /// Notes a length that is out of its limits.
    pub fn check_length(
        &mut self,
        key: &Text,
        length: usize,
        limits: Limits,
    ) -> Result<(), NoMemory>
        requires { length < 2 ^ 63 }
        ensures { OnOk result (seen_of self.new ≡ note_all (seen_of self.old) (range_findings limits key.now (pos length))) }
    {
        let value = length as i64;
        if number_in(limits, value).is_none() {
            let key = key.copy(self.alloc)?;
            self.fault(SettingsError::OutOfRange { key, value });
        }
        Ok(())
    }
}

#![tactic(auto, unfolding(crate::specs::Finding::note_all))]

ghost use Rattle.std.specs.Prelude.{◌≡◌, ◌⊎◌, [], IfOk, IfErr, OnOk};
ghost use Rattle.toml.specs.Data.{no_members};
ghost use Rattle.toml.specs.View.{table_view};
ghost use Rattle.beat_config.specs.Document.{document_findings, AreSettings};
ghost use Rattle.beat_config.specs.Finding.{seen_of, note_all, IsFirst};
ghost use Rattle.beat_config.specs.InRange.{AreInRange};

use crate::SettingsError;
use crate::noted::Noted;
use event_tree::{ListOf, Settings};
use std::alloc::Global;
use toml::Table;
use wire_base::NoMemory;

const DOCUMENT: [&str; 5] = ["inputs", "output", "processors", "queue", "harvest"];

/// The settings of a document, or its first fault.
#[tactic(auto, using(crate::proofs::First::none_noted, crate::proofs::First::first_noted), unfolding(crate::specs::Finding::seen_of))]
pub(crate) fn settings_of(alloc: Global, document: &Table) -> Result<Settings, SettingsError>
    ensures settings { IfOk result (AreSettings (table_view document.now)) }
    ensures in_range { IfOk result AreInRange }
    ensures faultless { OnOk result (document_findings (table_view document.now) ≡ []) }
    ensures first_fault { IfErr result (λ fault. (fault ≡ SettingsError.NoMemory) ⊎ IsFirst (document_findings (table_view document.now)) fault) }
{
    let empty = Table::new(alloc);
    let mut noted = Noted::new(alloc);
    let Ok(settings) = noted.document(document, &empty) else {
        return Err(SettingsError::NoMemory);
    };
    match noted.first {
        None => Ok(settings),
        Some(fault) => Err(fault),
    }
}

impl Noted {
    fn document(&mut self, document: &Table, empty: &Table) -> Result<Settings, NoMemory>
        requires { table_view empty.now ≡ no_members }
        ensures value { IfOk result (AreSettings (table_view document.now)) }
        ensures findings { OnOk result (seen_of self.new ≡ note_all (seen_of self.old) (document_findings (table_view document.now))) }
    {
        self.check_keys("", document, &DOCUMENT, &["inputs", "output"])?;
        let inputs = self.inputs("", document, empty)?;
        let output = self.output("", document, empty)?;
        let processors = self.processors("", document, empty)?;
        let events = self.events("", document, empty)?;
        let lanes = self.lanes("", document, empty)?;
        Ok(Settings {
            inputs: ListOf::from_vec(inputs),
            output,
            processors: ListOf::from_vec(processors),
            events,
            lanes,
        })
    }
}

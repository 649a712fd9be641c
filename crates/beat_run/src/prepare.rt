ghost use Rattle.std.specs.Prelude.{◌≡◌, [], ℕ, List, take, IfErr, IfOk, IfSome, IsErrOf, MatchResult, OnOk};
ghost use Rattle.beat_config.specs.Document.{AreSettingsOf, IsFirstFault};
ghost use Rattle.beat_config.specs.InRange.{AreInRange};
ghost use Rattle.command_line.specs.Words.{IsNoCommand};
ghost use Rattle.prospect.specs.Lacks.{IsFirstLack, lacks_of};
ghost use Rattle.beat_run.specs.Ends.{IsLackEnd, IsPreparingEnd, IsWordsEnd, RefusesKey, RefusesLack, RefusesSettings, RefusesWords};
ghost use Rattle.beat_run.specs.Asked.{AskFor, AskForOnce, IsAsked};
ghost use Rattle.beat_run.specs.Named.{IsNamed};
ghost use Rattle.beat_run.specs.declared.settings.TheConstants.{LIMIT};

use crate::settings::read_source;
use beat_config::{SettingsError, settings_or_one_first_fault};
use command_line::read_words;
use event_tree::Settings;
use outside::Source;
use prospect::first_lack;
use report::{Lack, Status};
use std::alloc::Global;
use wire_base::{NoMemory, Text};

/// Everything before the registry: the arguments, the settings, and what they ask for.
pub fn prepare<R: Source>(alloc: Global, words: &[Text], source: &mut R) -> Result<Settings, Status>
    ensures settings { IfOk result (IsNamed (R.left source.old)) }
    ensures in_range { IfOk result AreInRange }
    ensures nothing_lacks { IfOk result (λ settings. lacks_of settings ≡ []) }
    ensures once { OnOk result (AskForOnce words.now) }
    ensures usage_only { IsErrOf result Status.Usage → IsNoCommand words.now }
    ensures other_words_refused { IsNoCommand words.now →
        MatchResult result (λ _. ⊥) RefusesWords }
    ensures unbuilt_only { (lack : Lack) → IsErrOf result (Status.Unbuilt lack) →
        IsAsked words.now (R.left source.old) lack }
    ensures unbuilt_refused { (lack : Lack) → AskFor words.now lack →
        MatchResult result (λ _. ⊥) (RefusesLack lack) }
    ensures fault_only { (fault : SettingsError) → IsErrOf result (Status.Settings fault) →
        IfSome (R.left source.old) (λ bytes. IsFirstFault (take LIMIT bytes) fault) }
    ensures fault_refused { (fault : SettingsError) → IfSome (R.left source.old) (λ bytes.
        IsFirstFault (take LIMIT bytes) fault →
        MatchResult result (λ _. ⊥) (RefusesSettings fault)) }
    ensures key_refused { (settings : Settings) (key : List ℕ) →
        IfSome (R.left source.old) (λ bytes. AreSettingsOf (take LIMIT bytes) settings →
        IsFirstLack settings key → MatchResult result (λ _. ⊥) (RefusesKey key)) }
    ensures ends { IfErr result (IsPreparingEnd (R.faults source.old) (R.faults source.new)) }
{
    match check_words(alloc, words) {
        Ok(()) => {}
        Err(status) => return Err(status),
    }
    settings_or_one_first_fault();
    let settings = match read_source(alloc, source) {
        Ok(settings) => settings,
        Err(status) => return Err(status),
    };
    match check_keys(alloc, &settings) {
        Ok(()) => Ok(settings),
        Err(status) => Err(status),
    }
}

/// Answers Ok if the arguments ask for files that are read once.
fn check_words(alloc: Global, words: &[Text]) -> Result<(), Status>
    ensures once { OnOk result (AskForOnce words.now) }
    ensures usage_only { IsErrOf result Status.Usage → IsNoCommand words.now }
    ensures other_words_refused { IsNoCommand words.now →
        MatchResult result (λ _. ⊥) RefusesWords }
    ensures lack_only { (lack : Lack) → IsErrOf result (Status.Unbuilt lack) →
        AskFor words.now lack }
    ensures lack_refused { (lack : Lack) → AskFor words.now lack →
        MatchResult result (λ _. ⊥) (RefusesLack lack) }
    ensures ends { IfErr result IsWordsEnd }
{
    match read_words(alloc, words) {
        Ok(Some(asked)) if !asked.once => Err(Status::Unbuilt { what: Lack::Follow }),
        Ok(Some(_)) => Ok(()),
        Ok(None) => Err(Status::Usage),
        Err(NoMemory) => Err(Status::NoMemory),
    }
}

/// Answers Ok if the settings ask for nothing that is not built.
fn check_keys(alloc: Global, settings: &Settings) -> Result<(), Status>
    ensures none { OnOk result (lacks_of settings.now ≡ []) }
    ensures only { (key : List ℕ) → IsErrOf result (Status.Unbuilt (Lack.Key key)) →
        IsFirstLack settings.now key }
    ensures ends { IfErr result IsLackEnd }
{
    match first_lack(alloc, settings) {
        Ok(None) => Ok(()),
        Ok(Some(key)) => Err(Status::Unbuilt {
            what: Lack::Key(key),
        }),
        Err(NoMemory) => Err(Status::NoMemory),
    }
}

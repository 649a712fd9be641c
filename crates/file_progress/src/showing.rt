ghost use Rattle.std.specs.Prelude.{◌≡◌, ◌≢◌, ◌-◌, ◌^◌, ◌<◌, ℕ, IfOk, IfSome, List, Ok, Some, take};
ghost use Rattle.beat_config.specs.Document.{IsFirstFault};
ghost use Rattle.file_progress.specs.Causes.{IsEnd, IsOfScan};
ghost use Rattle.file_progress.specs.Looks.{ListsTooMuch, faults_of, told_by};
ghost use Rattle.file_progress.specs.OnlyReads.{IsOnlyReadBy};
ghost use Rattle.file_progress.specs.Shown.{IsTextOf, Shows};
ghost use Rattle.file_progress.specs.declared.settings.TheConstants.{LIMIT};
ghost use Rattle.registry_store.specs.Choice.{IsChoice, Refused};
ghost use Rattle.wire_base.specs.declared.limits.Which.{Which};

use crate::json::json_text;
use crate::overview::{Outside, Overview, look};
use crate::prometheus::prometheus_text;
use crate::table::table_text;
use beat_config::SettingsError;
use outside::{Clock, Disk, Folder, Sink, Source};
use registry_store::one_choice;
use report::{Status, write_all};
use std::alloc::Global;
use wire_base::{Moment, NoMemory};

/// How a look is printed.
#[derive(Clone, Copy, Debug, PartialEq, Eq)]
pub enum Format {
    /// Lines of 100 columns for a reader.
    Table,
    /// One JSON object.
    Json,
    /// The text format of Prometheus.
    Prometheus,
}

/// Finds how far each file is, and prints that. `committed` is when a registry area was last written, if that is known.
///
/// It ends with `Done`, or with the status by which a run would refuse the same settings, areas or folder; then nothing is
/// printed, but that a sink which fails may have taken a part.
pub fn show<R: Source, F: Folder, D: Disk, K: Clock, S: Sink>(
    alloc: Global,
    format: Format,
    settings: &mut R,
    outside: &mut Outside<F, D, K>,
    committed: Option<Moment>,
    out: &mut S,
) -> Status
    // What is printed.
    ensures shown { result ≡ Status.Done → Shows format committed
        (told_by F.Folder D.Disk K.Clock (R.left settings.old) outside.old outside.new)
        (S.written out.old) (S.written out.new) }

    // Which status comes, and what causes it.
    ensures settings_fault_only_of_such_bytes { (fault : SettingsError) →
        result ≡ Status.Settings fault →
        IfSome (R.left settings.old) (λ bytes. IsFirstFault (take LIMIT bytes) fault) }
    ensures registry_bad_only_where_the_areas_are_refused { (first second : List ℕ)
        (area : Which) (at : ℕ) →
        D.contents outside.old.area_a ≡ Some first → D.contents outside.old.area_b ≡ Some second →
        result ≡ Status.RegistryBad area at → IsChoice first second (Refused area at) }
    ensures refused_areas_are_never_shown { (first second : List ℕ) (area : Which) (at : ℕ) →
        D.contents outside.old.area_a ≡ Some first → D.contents outside.old.area_b ≡ Some second →
        IsChoice first second (Refused area at) → result ≢ Status.Done }
    ensures too_much_only_where_it_is_listed { IsOfScan result → ListsTooMuch
        (told_by F.Folder D.Disk K.Clock (R.left settings.old) outside.old outside.new) result }
    ensures each_status_only_for_its_cause { IsEnd
        (faults_of F.Folder D.Disk (R.faults settings.old) outside.old)
        (faults_of F.Folder D.Disk (R.faults settings.new) outside.new)
        (record { before = S.faults out.old; now = S.faults out.new }) result }

    // Nothing is written.
    ensures first_area_only_read { IsOnlyReadBy D.Disk outside.old.area_a outside.new.area_a }
    ensures second_area_only_read { IsOnlyReadBy D.Disk outside.old.area_b outside.new.area_b }
    ensures tails_closed { F.open_tails outside.old.folder < 2 ^ 64 - 1 →
        F.open_tails outside.new.folder ≡ F.open_tails outside.old.folder }
{
    one_choice();
    let overview = match look(alloc, settings, outside, committed) {
        Ok(overview) => overview,
        Err(status) => return status,
    };
    let Ok(text) = text_of(alloc, format, overview) else {
        return Status::NoMemory;
    };
    match write_all(out, &text) {
        Ok(()) => Status::Done,
        Err(_) => Status::OutFault,
    }
}

fn text_of(alloc: Global, format: Format, overview: Overview) -> Result<Vec<u8>, NoMemory>
    ensures { IfOk result (λ text. IsTextOf format overview text.items) }
{
    match format {
        Format::Table => table_text(alloc, overview),
        Format::Json => json_text(alloc, &overview),
        Format::Prometheus => prometheus_text(alloc, &overview),
    }
}

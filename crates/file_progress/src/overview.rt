ghost use Rattle.std.specs.Prelude.{◌≡◌, ◌-◌, ◌^◌, ◌<◌, ℕ, IfErr, IfOk, IfSome, IsErrOf, List, Some, take};
ghost use Rattle.beat_config.specs.Document.{IsFirstFault};
ghost use Rattle.file_progress.specs.Causes.{IsLookEnd, IsOfScan};
ghost use Rattle.file_progress.specs.Looks.{ListsTooMuch, Looks, faults_of, told_by};
ghost use Rattle.file_progress.specs.OnlyReads.{IsOnlyReadBy};
ghost use Rattle.file_progress.specs.Registry.{IsRefusedAs};
ghost use Rattle.file_progress.specs.declared.settings.TheConstants.{LIMIT};

use crate::Progress;
use crate::joining::join;
use crate::registry::read_registry;
use crate::scan::scan_files;
use crate::settings::read_source;
use beat_config::SettingsError;
use outside::{Clock, Disk, Folder, Source};
use report::Status;
use std::alloc::Global;
use wire_base::Moment;

/// What is looked at beside the settings.
#[derive(Drop)]
pub struct Outside<F, D, K> {
    pub folder: F,
    pub area_a: D,
    pub area_b: D,
    pub clock: K,
}

/// What one look shows.
#[derive(Drop)]
pub struct Overview {
    pub files: Vec<Progress>,
    /// That of the area that is used; `None` if the registry is empty.
    pub generation: Option<u64>,
    /// The moment of the look.
    pub moment: Moment,
    /// When a registry area was last written, if that is known.
    pub committed: Option<Moment>,
}

/// Reads the settings and the registry, and scans as a run does.
pub(crate) fn look<R: Source, F: Folder, D: Disk, K: Clock>(
    alloc: Global,
    settings: &mut R,
    outside: &mut Outside<F, D, K>,
    committed: Option<Moment>,
) -> Result<Overview, Status>
    ensures shown { IfOk result (Looks
        (told_by F.Folder D.Disk K.Clock (R.left settings.old) outside.old outside.new)) }
    ensures committed { IfOk result (λ overview. overview.committed ≡ committed) }
    ensures fault { (fault : SettingsError) → IsErrOf result (Status.Settings fault) →
        IfSome (R.left settings.old) (λ bytes. IsFirstFault (take LIMIT bytes) fault) }
    ensures refused { (first second : List ℕ) →
        D.contents outside.old.area_a ≡ Some first → D.contents outside.old.area_b ≡ Some second →
        IfErr result (IsRefusedAs first second) }
    ensures too_much { IfErr result (λ status. IsOfScan status → ListsTooMuch
        (told_by F.Folder D.Disk K.Clock (R.left settings.old) outside.old outside.new) status) }
    ensures a_only_read { IsOnlyReadBy D.Disk outside.old.area_a outside.new.area_a }
    ensures b_only_read { IsOnlyReadBy D.Disk outside.old.area_b outside.new.area_b }
    ensures ends { IfErr result (IsLookEnd
        (faults_of F.Folder D.Disk (R.faults settings.old) outside.old)
        (faults_of F.Folder D.Disk (R.faults settings.new) outside.new)) }
    ensures open_tails_kept { F.open_tails outside.old.folder < 2 ^ 64 - 1 →
        F.open_tails outside.new.folder ≡ F.open_tails outside.old.folder }
{
    let settings = read_source(alloc, settings)?;
    let registry = read_registry(
        alloc,
        &mut outside.area_a,
        &mut outside.area_b,
        &mut outside.clock,
    )?;
    let moment = outside.clock.now();
    let scan = scan_files(alloc, &mut outside.folder, settings.inputs.as_slice())?;
    let files = join(alloc, &registry.rows, scan)?;
    Ok(Overview {
        files,
        generation: registry.generation,
        moment,
        committed,
    })
}

ghost use Rattle.std.specs.Prelude.{◌≡◌, ◌<◌, ◌≤◌, ◌-◌, ◌^◌, ℕ, IfErr, IfOk, IfSome, List};
ghost use Rattle.file_progress.specs.Causes.{IsScanEnd, ShowsScanEnd, StandsFor};
ghost use Rattle.file_progress.specs.Scanning.{TellsScan};
ghost use Rattle.prospect.specs.AskedFiles.{AreAskable};
ghost use Rattle.prospect.specs.Doubled.{PartsDoubled};
ghost use Rattle.prospect.specs.Members.{HaveGlobs};

use event_tree::InputRule;
use outside::{Folder, FolderError};
use prospect::{Keyed, Listed, ScanError, ask_files, list_files, part_doubled};
use report::Status;
use std::alloc::Global;

/// The files that a scan found, each list in the order of the scan.
#[derive(Drop)]
pub struct Scan {
    /// The first file of each key.
    pub files: Vec<Listed>,
    /// Those with the key of a file before them.
    pub doubled: Vec<Listed>,
    /// Those that are too small for their fingerprints.
    pub small: Vec<Listed>,
}

/// The files that the inputs name now, asked for their keys. A file that was gone before it was asked is left out.
pub(crate) fn scan_files<F: Folder>(
    alloc: Global,
    folder: &mut F,
    inputs: &[InputRule],
) -> Result<Scan, Status>
    requires globs { HaveGlobs inputs.now }
    requires askable { AreAskable inputs.now }
    ensures scanned { IfOk result (λ scan. IfSome (F.told folder.old)
        (λ told. TellsScan inputs.now told scan (F.told folder.new))) }
    ensures shows { IfErr result (λ status. IfSome (F.told folder.old)
        (λ told. ShowsScanEnd inputs.now told status (F.told folder.new))) }
    ensures ends { IfErr result (IsScanEnd (F.faults folder.old) (F.faults folder.new)) }
    ensures open_tails_kept { F.open_tails folder.old < 2 ^ 64 - 1 →
        F.open_tails folder.new ≡ F.open_tails folder.old }
    ensures faults_never_fall { F.faults folder.old ≤ F.faults folder.new }
{
    let listed = match list_files(alloc, folder, inputs) {
        Ok(listed) => listed,
        Err(error) => return Err(status_of_scan(error)),
    };
    match ask_files(alloc, folder, inputs, listed) {
        Ok(keyed) => parted(alloc, keyed),
        Err(FolderError::Failed) => Err(Status::FolderFault),
        Err(FolderError::NoMemory) => Err(Status::NoMemory),
    }
}

/// The files that were asked for their keys, parted into the first of each key and the others.
fn parted(alloc: Global, keyed: Keyed) -> Result<Scan, Status>
    ensures parts { IfOk result (λ scan.
        PartsDoubled keyed.files.items scan.files.items scan.doubled.items) }
    ensures small { IfOk result (λ scan. scan.small ≡ keyed.small) }
    ensures refused { IfErr result (λ status. status ≡ Status.NoMemory) }
{
    match part_doubled(alloc, keyed.files) {
        Ok(parted) => Ok(Scan {
            files: parted.files,
            doubled: parted.doubled,
            small: keyed.small,
        }),
        Err(_) => Err(Status::NoMemory),
    }
}

fn status_of_scan(error: ScanError) -> Status
    ensures { StandsFor error result }
{
    match error {
        ScanError::Failed => Status::FolderFault,
        ScanError::NoMemory => Status::NoMemory,
        ScanError::NoNative { path } => Status::NoNative { path },
    }
}

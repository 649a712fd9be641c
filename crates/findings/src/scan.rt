ghost use Rattle.std.specs.Prelude.{◌≡◌, ◌<◌, ◌≤◌, ◌-◌, ◌^◌, IfErr, IfOk, IfSome, All, length, true, false, []};
ghost use Rattle.findings.specs.Scanning.{IsMarksEnd, IsScanEnd, IsTooManyEnd, ListsSo, ShowsEnd, ShowsMarksEnd, TellsMarks};
ghost use Rattle.prospector_core.specs.declared.limits.TheConstants.{MAX_FILES};
ghost use Rattle.outside.specs.Counts.{Rose};
ghost use Rattle.prospect.specs.AskedFiles.{AreAskable};
ghost use Rattle.prospect.specs.Members.{HaveGlobs};

use event_tree::InputRule;
use outside::{Folder, FolderError};
use prospect::{Keyed, Listed, Parted, ScanError, ask_files, list_files, part_doubled};
use prospector_core::MAX_FILES;
use report::Status;
use std::alloc::Global;
use wire_base::Full;

/// The files that the inputs name now; `None` if a folder could not be listed.
pub(crate) fn listed_files<F: Folder>(
    alloc: Global,
    folder: &mut F,
    inputs: &[InputRule],
) -> Result<Option<Vec<Listed>>, Status>
    requires { HaveGlobs inputs.now }
    ensures listed { IfOk result (λ listed. IfSome (F.told folder.old)
        (λ told. ListsSo inputs.now told listed (F.told folder.new))) }
    ensures shows { IfErr result (λ status. IfSome (F.told folder.old)
        (λ told. ShowsEnd inputs.now told status (F.told folder.new))) }
    ensures ends { IfErr result IsScanEnd }
    ensures of_inputs { IfOk result (λ listed. IfSome listed
        (λ files. All (λ one. one.input < length inputs.now) files.items)) }
    ensures none_only_where_faults_rose { IfOk result (λ listed. listed ≡ None →
        Rose (F.faults folder.old) (F.faults folder.new)) }
    ensures open_tails_kept { F.open_tails folder.new ≡ F.open_tails folder.old }
    ensures faults_never_fall { F.faults folder.old ≤ F.faults folder.new }
{
    match list_files(alloc, folder, inputs) {
        Ok(listed) => Ok(Some(listed)),
        Err(ScanError::Failed) => Ok(None),
        Err(ScanError::NoMemory) => Err(Status::NoMemory),
        Err(ScanError::NoNative { path }) => Err(Status::NoNative { path }),
    }
}

/// Which of the listed files are not followed.
#[derive(Drop)]
pub struct Marks {
    /// Those that are too small for their fingerprints.
    pub small: Vec<Listed>,
    /// Those with the key of a file before them.
    pub doubled: Vec<Listed>,
    /// Whether a file could not be read; then none is reported.
    pub failed: bool,
}

/// Asks the listed files for their keys, and says which of them are not followed.
pub(crate) fn marks_of<F: Folder>(
    alloc: Global,
    folder: &mut F,
    inputs: &[InputRule],
    listed: Vec<Listed>,
) -> Result<Marks, Status>
    requires askable { AreAskable inputs.now }
    requires of_inputs { All (λ one. one.input < length inputs.now) listed.items }
    ensures marked { IfOk result (λ marks. IfSome (F.told folder.old)
        (λ told. TellsMarks inputs.now told listed.items marks (F.told folder.new))) }
    ensures shows { IfErr result (λ status. IfSome (F.told folder.old)
        (λ told. ShowsMarksEnd inputs.now told listed.items status (F.told folder.new))) }
    ensures ends { IfErr result IsMarksEnd }
    ensures failed_only_where_faults_rose { IfOk result (λ marks. marks.failed ≡ true →
        Rose (F.faults folder.old) (F.faults folder.new)) }
    ensures open_tails_kept { F.open_tails folder.old < 2 ^ 64 - 1 →
        F.open_tails folder.new ≡ F.open_tails folder.old }
    ensures faults_never_fall { F.faults folder.old ≤ F.faults folder.new }
{
    match ask_files(alloc, folder, inputs, listed) {
        Ok(Keyed { files, small, .. }) => match part_doubled(alloc, files) {
            Ok(Parted { files, doubled }) => {
                few_followed(alloc, files.as_slice())?;
                Ok(Marks {
                    small,
                    doubled,
                    failed: false,
                })
            }
            Err(_) => Err(Status::NoMemory),
        },
        Err(FolderError::Failed) => Ok(Marks {
            small: Vec::new(alloc),
            doubled: Vec::new(alloc),
            failed: true,
        }),
        Err(FolderError::NoMemory) => Err(Status::NoMemory),
    }
}

/// Whether a run can know so many files. `Err` is `TooMany` with the path of the first file beyond them, and `NoMemory`.
fn few_followed(alloc: Global, files: &[Listed]) -> Result<(), Status>
    ensures few { IfOk result (λ _. length files.now ≤ MAX_FILES) }
    ensures ends { IfErr result (IsTooManyEnd files.now) }
{
    if files.len() <= MAX_FILES {
        return Ok(());
    }
    let path = files[MAX_FILES].path.copy(alloc)?;
    Err(Status::TooMany {
        what: Full::Files,
        path,
    })
}

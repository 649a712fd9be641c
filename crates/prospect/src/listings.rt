ghost use Rattle.std.specs.Prelude.{◌≡◌, ◌≢◌, ◌<◌, ◌≤◌, ◌∷◌, [], length, All, IfErr, IfOk, IfSome, None, OnErr, OnOk};
ghost use Rattle.prospect.specs.ListedFiles.{AreApart, AreInOrder, EndsAs, IsKeyed, IsListedInRange, ScansFiles};
ghost use Rattle.prospect.specs.Members.{HaveGlobs, HaveShortIds, globs_of};
ghost use Rattle.prospect.specs.PastFaults.{IsNoWholeList, ServesFiles, ServesNoFiles, TriesSome};
ghost use Rattle.prospect.specs.Readings.{globs_read};
ghost use Rattle.prospect.specs.Scan.{TellsPath};
ghost use Rattle.prospect.specs.Trying.{FailMoreOnlyByFaults, TriesMore};

use crate::by_path::list_entries;
use crate::entries::{Entries, add_entries};
use crate::scan_input::{ScanInput, number_inputs};
use crate::{Listed, ScanError};
use event_tree::InputRule;
use glob_paths::Glob;
use outside::{Folder, FolderError};
use std::alloc::Global;
use wire_base::{NoMemory, Text};

/// What the listings of a scan came to that goes on past those that fail.
#[derive(Debug, Drop)]
pub struct Listings {
    /// The files that the served listings showed, as `list_files` reports them; or the `NoNative` for
    /// which there is no such list.
    pub files: Result<Vec<Listed>, ScanError>,
    /// The roots whose listings failed, one for each, in the order of the settings. The scan is
    /// whole only if there is none; the first is the first fault.
    pub failed: Vec<Text>,
}

/// Lists the root of each glob once, in the order of the settings, also after a listing that
/// failed, and reports what the served listings showed together.
///
/// `NoMemory` means out of memory, or more than 4,294,967,296 inputs.
pub fn list_past_faults<F: Folder>(
    alloc: Global,
    folder: &mut F,
    inputs: &[InputRule],
) -> Result<Listings, NoMemory>
    requires globs { HaveGlobs inputs.now }

    // What was listed, and what failed, if the folder is known.
    ensures served { IfOk result (λ all. IfOk all.files (λ files. IfSome (F.told folder.old)
        (λ told. ServesFiles inputs.now told all.failed.items files.items
        (F.faults folder.new) (F.told folder.new)))) }
    ensures refused { IfOk result (λ all. IfErr all.files (λ error. IfSome (F.told folder.old)
        (λ told. ServesNoFiles inputs.now told all.failed.items error
        (F.faults folder.new) (F.told folder.new)))) }
    ensures ended { OnErr result (IfSome (F.told folder.old) (λ told.
        TriesSome (globs_of inputs.now) told (F.faults folder.new) (F.told folder.new))) }
    ensures untold { F.told folder.old ≡ None → F.told folder.new ≡ None }

    // If none failed the list is that of a whole scan, and else it is none.
    ensures whole { IfOk result (λ all. all.failed.items ≡ [] → IfOk all.files (λ files.
        IfSome (F.told folder.old)
        (λ told. ScansFiles inputs.now told files.items (F.told folder.new)))) }
    ensures whole_where_refused { IfOk result (λ all. all.failed.items ≡ [] → IfErr all.files
        (λ error. IfSome (F.told folder.old)
        (λ told. EndsAs inputs.now told error (F.told folder.new)))) }
    ensures partial { IfOk result (λ all. all.failed.items ≢ [] → IfSome (F.told folder.old)
        (λ told. IsNoWholeList (globs_of inputs.now) told (F.told folder.new))) }

    // What is known of the files, whether or not the folder is known.
    ensures in_order { IfOk result (λ all. IfOk all.files (λ files. AreInOrder files.items)) }
    ensures apart { IfOk result (λ all. IfOk all.files (λ files. AreApart files.items)) }
    ensures keyed { IfOk result (λ all. IfOk all.files (λ files.
        All (IsKeyed inputs.now) files.items)) }
    ensures of_inputs { IfOk result (λ all. IfOk all.files (λ files.
        All (λ one. one.input < length inputs.now) files.items)) }
    ensures in_range { IfOk result (λ all. IfOk all.files (λ files.
        HaveShortIds inputs.now → All IsListedInRange files.items)) }
    ensures path_in_range { IfOk result (λ all. IfErr all.files TellsPath) }

    ensures failed_only_where_faults_rose { IfOk result (λ all.
        FailMoreOnlyByFaults [] all.failed.items (F.faults folder.old) (F.faults folder.new)) }
    ensures open_tails_kept { F.open_tails folder.new ≡ F.open_tails folder.old }
    ensures faults_never_fall { F.faults folder.old ≤ F.faults folder.new }
{
    let inputs = number_inputs(alloc, inputs)?;
    let mut tried = Tried {
        entries: Entries::new(alloc),
        failed: Vec::new(alloc),
    };
    try_inputs(alloc, folder, &inputs, &mut tried)?;
    let Tried { entries, failed } = tried;
    match list_entries(alloc, &inputs, entries) {
        Ok(files) => Ok(Listings {
            files: Ok(files),
            failed,
        }),
        Err(error) => {
            if error == ScanError::NoMemory {
                return Err(NoMemory);
            }
            Ok(Listings {
                files: Err(error),
                failed,
            })
        }
    }
}

/// What the listings so far showed, and the roots of those that failed.
#[derive(Drop)]
struct Tried {
    entries: Entries,
    failed: Vec<Text>,
}

/// Lists for each glob of each input.
fn try_inputs<F: Folder>(
    alloc: Global,
    folder: &mut F,
    inputs: &[ScanInput],
    tried: &mut Tried,
) -> Result<(), NoMemory>
    ensures tried { OnOk result (TriesMore (globs_read inputs.now) (F.told folder.old)
        tried.old tried.new (F.faults folder.new) (F.told folder.new)) }
    ensures some { OnErr result (IfSome (F.told folder.old) (λ told.
        TriesSome (globs_read inputs.now) told (F.faults folder.new) (F.told folder.new))) }
    ensures untold { F.told folder.old ≡ None → F.told folder.new ≡ None }
    ensures failed_only_where_faults_rose { FailMoreOnlyByFaults
        tried.old.failed.items tried.new.failed.items
        (F.faults folder.old) (F.faults folder.new) }
    ensures open_tails_kept { F.open_tails folder.new ≡ F.open_tails folder.old }
    ensures faults_never_fall { F.faults folder.old ≤ F.faults folder.new }
{
    for input in inputs {
        try_globs(alloc, folder, &input.globs, tried)?;
    }
    Ok(())
}

/// Lists for each of the globs.
fn try_globs<F: Folder>(
    alloc: Global,
    folder: &mut F,
    globs: &[Glob],
    tried: &mut Tried,
) -> Result<(), NoMemory>
    ensures tried { OnOk result (TriesMore globs.now (F.told folder.old)
        tried.old tried.new (F.faults folder.new) (F.told folder.new)) }
    ensures some { OnErr result (IfSome (F.told folder.old) (λ told.
        TriesSome globs.now told (F.faults folder.new) (F.told folder.new))) }
    ensures untold { F.told folder.old ≡ None → F.told folder.new ≡ None }
    ensures failed_only_where_faults_rose { FailMoreOnlyByFaults
        tried.old.failed.items tried.new.failed.items
        (F.faults folder.old) (F.faults folder.new) }
    ensures open_tails_kept { F.open_tails folder.new ≡ F.open_tails folder.old }
    ensures faults_never_fall { F.faults folder.old ≤ F.faults folder.new }
{
    for glob in globs {
        try_glob(alloc, folder, glob, tried)?;
    }
    Ok(())
}

/// Lists for a glob; a listing that fails is kept.
fn try_glob<F: Folder>(
    alloc: Global,
    folder: &mut F,
    glob: &Glob,
    tried: &mut Tried,
) -> Result<(), NoMemory>
    ensures tried { OnOk result (TriesMore (glob.now ∷ []) (F.told folder.old)
        tried.old tried.new (F.faults folder.new) (F.told folder.new)) }
    ensures some { OnErr result (IfSome (F.told folder.old) (λ told.
        TriesSome (glob.now ∷ []) told (F.faults folder.new) (F.told folder.new))) }
    ensures untold { F.told folder.old ≡ None → F.told folder.new ≡ None }
    ensures failed_only_where_faults_rose { FailMoreOnlyByFaults
        tried.old.failed.items tried.new.failed.items
        (F.faults folder.old) (F.faults folder.new) }
    ensures open_tails_kept { F.open_tails folder.new ≡ F.open_tails folder.old }
    ensures faults_never_fall { F.faults folder.old ≤ F.faults folder.new }
{
    match folder.list(alloc, glob.root(), glob.depth()) {
        Ok(shown) => add_entries(alloc, &mut tried.entries, shown),
        Err(FolderError::Failed) => {
            tried.failed.push(glob.root().copy(alloc)?)?;
            Ok(())
        }
        Err(FolderError::NoMemory) => Err(NoMemory),
    }
}

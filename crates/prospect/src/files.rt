ghost use Rattle.std.specs.Prelude.{◌≡◌, ◌<◌, ◌≤◌, ◌∷◌, [], length, All, IfOk, IfErr, IfSome, IsErrOf, OnOk, OnErr};
ghost use Rattle.outside.specs.Counts.{Rose};
ghost use Rattle.prospect.specs.Entries.{Lists};
ghost use Rattle.prospect.specs.ListedFiles.{AreApart, AreInOrder, EndsAs, IsKeyed, IsListedInRange, ScansFiles};
ghost use Rattle.prospect.specs.Members.{HaveGlobs, HaveShortIds};
ghost use Rattle.prospect.specs.Readings.{globs_read};
ghost use Rattle.prospect.specs.Scan.{TellsPath};
ghost use Rattle.prospect.specs.Unfinished.{ListsSome};

use crate::by_path::list_entries;
use crate::entries::{Entries, add_entries};
use crate::scan_input::{ScanInput, number_inputs};
use crate::{Listed, ScanError};
use event_tree::InputRule;
use glob_paths::Glob;
use outside::{Folder, FolderError};
use std::alloc::Global;

/// Lists the root of each glob once, in the order of the settings, and reports each path that a glob
/// covers once for its input, in byte order of the paths and then by the inputs' places. A path
/// that two listings showed with other native numbers is reported once for each of them to an input
/// that knows its files by these.
///
/// What all listings showed together decides. `NoNative` has the first path in that order whose
/// input asks for native numbers that were not given. `NoMemory` means out of memory, or more than
/// 4,294,967,296 inputs. A path is matched once with each glob, however often it is shown with the
/// same native numbers.
pub fn list_files<F: Folder>(
    alloc: Global,
    folder: &mut F,
    inputs: &[InputRule],
) -> Result<Vec<Listed>, ScanError>
    requires globs { HaveGlobs inputs.now }
    ensures scanned { IfOk result (λ listed. IfSome (F.told folder.old)
        (λ told. ScansFiles inputs.now told listed.items (F.told folder.new))) }
    ensures refused { IfErr result (λ error. IfSome (F.told folder.old)
        (λ told. EndsAs inputs.now told error (F.told folder.new))) }
    ensures in_order { IfOk result (λ listed. AreInOrder listed.items) }
    ensures apart { IfOk result (λ listed. AreApart listed.items) }
    ensures keyed { IfOk result (λ listed. All (IsKeyed inputs.now) listed.items) }
    ensures of_inputs { IfOk result
        (λ listed. All (λ one. one.input < length inputs.now) listed.items) }
    ensures in_range { IfOk result
        (λ listed. HaveShortIds inputs.now → All IsListedInRange listed.items) }
    ensures path_in_range { IfErr result TellsPath }
    ensures failed_only_where_faults_rose { IsErrOf result ScanError.Failed
        → Rose (F.faults folder.old) (F.faults folder.new) }
    ensures open_tails_kept { F.open_tails folder.new ≡ F.open_tails folder.old }
    ensures faults_never_fall { F.faults folder.old ≤ F.faults folder.new }
{
    let Ok(inputs) = number_inputs(alloc, inputs) else {
        return Err(ScanError::NoMemory);
    };
    let mut entries = Entries::new(alloc);
    match list_inputs(alloc, folder, &inputs, &mut entries) {
        Ok(()) => list_entries(alloc, &inputs, entries),
        Err(error) => Err(error.into()),
    }
}

/// Lists for each glob of each input.
fn list_inputs<F: Folder>(
    alloc: Global,
    folder: &mut F,
    inputs: &[ScanInput],
    entries: &mut Entries,
) -> Result<(), FolderError>
    ensures listed { OnOk result
        (Lists (globs_read inputs.now) (F.told folder.old)
        entries.old entries.new (F.told folder.new)) }
    ensures lists_some { OnErr result (IfSome (F.told folder.old)
        (λ told. ListsSome (globs_read inputs.now) told (F.told folder.new))) }
    ensures failed_only_where_faults_rose { IsErrOf result FolderError.Failed
        → Rose (F.faults folder.old) (F.faults folder.new) }
    ensures open_tails_kept { F.open_tails folder.new ≡ F.open_tails folder.old }
    ensures faults_never_fall { F.faults folder.old ≤ F.faults folder.new }
{
    for input in inputs {
        list_globs(alloc, folder, &input.globs, entries)?;
    }
    Ok(())
}

/// Lists for each of the globs.
fn list_globs<F: Folder>(
    alloc: Global,
    folder: &mut F,
    globs: &[Glob],
    entries: &mut Entries,
) -> Result<(), FolderError>
    ensures listed { OnOk result
        (Lists globs.now (F.told folder.old) entries.old entries.new (F.told folder.new)) }
    ensures lists_some { OnErr result (IfSome (F.told folder.old)
        (λ told. ListsSome globs.now told (F.told folder.new))) }
    ensures failed_only_where_faults_rose { IsErrOf result FolderError.Failed
        → Rose (F.faults folder.old) (F.faults folder.new) }
    ensures open_tails_kept { F.open_tails folder.new ≡ F.open_tails folder.old }
    ensures faults_never_fall { F.faults folder.old ≤ F.faults folder.new }
{
    for glob in globs {
        list_glob(alloc, folder, glob, entries)?;
    }
    Ok(())
}

fn list_glob<F: Folder>(
    alloc: Global,
    folder: &mut F,
    glob: &Glob,
    entries: &mut Entries,
) -> Result<(), FolderError>
    ensures listed { OnOk result
        (Lists (glob.now ∷ []) (F.told folder.old) entries.old entries.new (F.told folder.new)) }
    ensures lists_some { OnErr result (IfSome (F.told folder.old)
        (λ told. ListsSome (glob.now ∷ []) told (F.told folder.new))) }
    ensures failed_only_where_faults_rose { IsErrOf result FolderError.Failed
        → Rose (F.faults folder.old) (F.faults folder.new) }
    ensures open_tails_kept { F.open_tails folder.new ≡ F.open_tails folder.old }
    ensures faults_never_fall { F.faults folder.old ≤ F.faults folder.new }
{
    let shown = match folder.list(alloc, glob.root(), glob.depth()) {
        Ok(shown) => shown,
        Err(error) => return Err(error),
    };
    match add_entries(alloc, entries, shown) {
        Ok(()) => Ok(()),
        Err(_) => Err(FolderError::NoMemory),
    }
}

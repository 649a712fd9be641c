ghost use Rattle.std.specs.Prelude.{◌≡◌, ◌≢◌, ◌∷◌, ◌-◌, ◌<◌, ◌≤◌, ◌^◌, [], List, length, All, IfOk, IfSome, IsSome, None, OnErr, OnOk};
ghost use Rattle.prospect.specs.AskedFiles.{AreAskable, AsksFiles, KeepsFiles, ReadNoFile};
ghost use Rattle.prospect.specs.Asking.{KeepsNext};
ghost use Rattle.prospect.specs.ListedFiles.{IsKeyed, IsListedInRange};
ghost use Rattle.prospect.specs.Members.{HaveShortIds};
ghost use Rattle.prospect.specs.PastFaults.{TriesFiles, TriesSomeFiles};
ghost use Rattle.prospect.specs.Trying.{FailMoreOnlyByFaults, TriesNext};

use crate::Listed;
use crate::asking::{Keyed, ask, put};
use event_tree::InputRule;
use outside::{Folder, FolderError};
use std::alloc::Global;
use wire_base::NoMemory;

/// What asking listed files for their keys gave that goes on past those whose asking fails.
#[derive(Debug, Drop)]
pub struct Askings {
    pub keyed: Keyed,
    /// Those whose opening failed, or a read of them, in the order of the list. The scan is whole
    /// only if there is none.
    pub failed: Vec<Listed>,
}

/// Asks each listed file for its key as `ask_files` does; a file whose opening or reading fails is
/// left out, and the others are asked.
///
/// `NoMemory` means out of memory. No file stays open.
pub fn ask_past_faults<F: Folder>(
    alloc: Global,
    folder: &mut F,
    inputs: &[InputRule],
    listed: Vec<Listed>,
) -> Result<Askings, NoMemory>
    requires askable { AreAskable inputs.now }
    requires of_inputs { All (λ one. one.input < length inputs.now) listed.items }

    // What was done, if the folder is known.
    ensures tried { IfOk result (λ askings. IfSome (F.told folder.old)
        (λ told. TriesFiles inputs.now told listed.items askings (F.told folder.new))) }
    ensures ended { OnErr result (IfSome (F.told folder.old)
        (λ told. TriesSomeFiles inputs.now told listed.items (F.told folder.new))) }
    ensures untold { F.told folder.old ≡ None → F.told folder.new ≡ None }
    ensures whole { IfOk result (λ askings. askings.failed.items ≡ [] → IfSome (F.told folder.old)
        (λ told. AsksFiles inputs.now told listed.items askings.keyed (F.told folder.new))) }

    // Which files are left.
    ensures keeps { IfOk result
        (λ askings. KeepsFiles inputs.now listed.items askings.keyed.files.items) }
    ensures few { IfOk result (λ askings. length askings.keyed.files.items ≤ length listed.items) }
    ensures all_where_no_file_is_read { IfOk result
        (λ askings. ReadNoFile inputs.now → askings.keyed.files.items ≡ listed.items) }
    ensures keyed { IfOk result (λ askings. All (IsKeyed inputs.now) listed.items
        → All (λ one. IsSome one.key) askings.keyed.files.items) }
    ensures kept_of_inputs { IfOk result
        (λ askings. All (λ one. one.input < length inputs.now) askings.keyed.files.items) }
    ensures in_range { IfOk result (λ askings. HaveShortIds inputs.now
        → All IsListedInRange listed.items → All IsListedInRange askings.keyed.files.items) }

    ensures failed_only_where_faults_rose { IfOk result (λ askings.
        FailMoreOnlyByFaults [] askings.failed.items (F.faults folder.old) (F.faults folder.new)) }
    ensures open_tails_kept { F.open_tails folder.old < 2 ^ 64 - 1
        → F.open_tails folder.new ≡ F.open_tails folder.old }
    ensures faults_never_fall { F.faults folder.old ≤ F.faults folder.new }
{
    let mut askings = Askings {
        keyed: Keyed {
            files: Vec::new(alloc),
            gone: Vec::new(alloc),
            small: Vec::new(alloc),
        },
        failed: Vec::new(alloc),
    };
    for one in listed {
        try_next(alloc, folder, inputs, &mut askings, one)?;
    }
    Ok(askings)
}

/// Asks a file for its key, and puts it where its answer belongs, or among those that failed.
fn try_next<F: Folder>(
    alloc: Global,
    folder: &mut F,
    inputs: &[InputRule],
    askings: &mut Askings,
    one: Listed,
) -> Result<(), NoMemory>
    requires askable { AreAskable inputs.now }
    requires of_inputs { one.input < length inputs.now }
    ensures tried { OnOk result (IfSome (F.told folder.old) (λ told.
        TriesNext inputs.now told one askings.old askings.new (F.told folder.new))) }
    ensures ended { OnErr result (IfSome (F.told folder.old) (λ told. (others : List Listed)
        → TriesSomeFiles inputs.now told (one ∷ others) (F.told folder.new))) }
    ensures untold { F.told folder.old ≡ None → F.told folder.new ≡ None }
    ensures keeps { OnOk result (KeepsNext inputs.now one
        askings.old.keyed.files.items askings.new.keyed.files.items) }
    ensures failed_only_where_faults_rose { FailMoreOnlyByFaults
        askings.old.failed.items askings.new.failed.items
        (F.faults folder.old) (F.faults folder.new) }
    ensures open_tails_kept { F.open_tails folder.old < 2 ^ 64 - 1
        → F.open_tails folder.new ≡ F.open_tails folder.old }
    ensures faults_never_fall { F.faults folder.old ≤ F.faults folder.new }
{
    match ask(alloc, folder, &inputs[one.input as usize], &one) {
        Ok(asked) => put(&mut askings.keyed, one, asked),
        Err(FolderError::Failed) => {
            askings.failed.push(one)?;
            Ok(())
        }
        Err(FolderError::NoMemory) => Err(NoMemory),
    }
}

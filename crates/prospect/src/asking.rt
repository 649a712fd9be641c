ghost use Rattle.std.specs.Prelude.{◌≡◌, ◌∷◌, ◌-◌, ◌<◌, ◌≤◌, ◌^◌, List, length, All, IfOk, IfSome, IsErrOf, IsSome, None, OnErr, OnOk};
ghost use Rattle.file_identity.specs.Answers.{IsAskable, IsFingerprint};
ghost use Rattle.outside.specs.Counts.{Rose};
ghost use Rattle.prospect.specs.AskedFiles.{AreAskable, AsksFiles, AsksSome, KeepsFiles, ReadNoFile};
ghost use Rattle.prospect.specs.Asking.{AsksNext, IsAnswerFor, IsAnswered, KeepsNext, PutsAs, TellsAnswer};
ghost use Rattle.prospect.specs.ListedFiles.{IsKeyed, IsListedInRange};
ghost use Rattle.prospect.specs.Members.{HaveShortIds};

use crate::Listed;
use event_tree::{IdentityRule, InputRule};
use file_identity::{Identity, IdentityError, opened_key};
use outside::{Folder, FolderError};
use std::alloc::Global;
use wire_base::{NoMemory, Text};

/// What asking listed files for their keys gave, each in the order of the list.
#[derive(Debug, Drop)]
pub struct Keyed {
    /// Those whose keys are known.
    pub files: Vec<Listed>,
    /// Those that were not there any more as they were to be opened.
    pub gone: Vec<Listed>,
    /// Those that are too small for their fingerprint.
    pub small: Vec<Listed>,
}

/// Opens each listed file whose input knows its files by fingerprints, asks it for its key, and
/// closes it again, one file after another. A file of another input is not opened, and keeps the
/// key with which it was listed.
///
/// `Failed` means that an opening or a read failed, and that the folder's count of faults rose;
/// `NoMemory` means out of memory. No file stays open.
pub fn ask_files<F: Folder>(
    alloc: Global,
    folder: &mut F,
    inputs: &[InputRule],
    listed: Vec<Listed>,
) -> Result<Keyed, FolderError>
    requires askable { AreAskable inputs.now }
    requires of_inputs { All (λ one. one.input < length inputs.now) listed.items }

    // What was done, if the folder is known.
    ensures asked { IfOk result (λ keyed. IfSome (F.told folder.old)
        (λ told. AsksFiles inputs.now told listed.items keyed (F.told folder.new))) }
    ensures ended { OnErr result (IfSome (F.told folder.old)
        (λ told. AsksSome inputs.now told listed.items (F.told folder.new))) }

    // Which files are left.
    ensures keeps { IfOk result
        (λ keyed. KeepsFiles inputs.now listed.items keyed.files.items) }
    ensures few { IfOk result (λ keyed. length keyed.files.items ≤ length listed.items) }
    ensures all_where_no_file_is_read { IfOk result
        (λ keyed. ReadNoFile inputs.now → keyed.files.items ≡ listed.items) }
    ensures keyed { IfOk result (λ keyed. All (IsKeyed inputs.now) listed.items
        → All (λ one. IsSome one.key) keyed.files.items) }
    ensures kept_of_inputs { IfOk result
        (λ keyed. All (λ one. one.input < length inputs.now) keyed.files.items) }
    ensures in_range { IfOk result (λ keyed. HaveShortIds inputs.now
        → All IsListedInRange listed.items → All IsListedInRange keyed.files.items) }

    ensures failed_only_where_faults_rose { IsErrOf result FolderError.Failed
        → Rose (F.faults folder.old) (F.faults folder.new) }
    ensures open_tails_kept { F.open_tails folder.old < 2 ^ 64 - 1
        → F.open_tails folder.new ≡ F.open_tails folder.old }
    ensures faults_never_fall { F.faults folder.old ≤ F.faults folder.new }
{
    let mut keyed = Keyed {
        files: Vec::new(alloc),
        gone: Vec::new(alloc),
        small: Vec::new(alloc),
    };
    for one in listed {
        ask_next(alloc, folder, inputs, &mut keyed, one)?;
    }
    Ok(keyed)
}

/// Asks a file for its key, and puts it where its answer belongs.
fn ask_next<F: Folder>(
    alloc: Global,
    folder: &mut F,
    inputs: &[InputRule],
    keyed: &mut Keyed,
    one: Listed,
) -> Result<(), FolderError>
    requires askable { AreAskable inputs.now }
    requires of_inputs { one.input < length inputs.now }
    ensures asked { OnOk result (IfSome (F.told folder.old)
        (λ told. AsksNext inputs.now told one keyed.old keyed.new (F.told folder.new))) }
    ensures ended { OnErr result (IfSome (F.told folder.old) (λ told. (others : List Listed)
        → AsksSome inputs.now told (one ∷ others) (F.told folder.new))) }
    ensures keeps { OnOk result
        (KeepsNext inputs.now one keyed.old.files.items keyed.new.files.items) }
    ensures failed_only_where_faults_rose { IsErrOf result FolderError.Failed
        → Rose (F.faults folder.old) (F.faults folder.new) }
    ensures open_tails_kept { F.open_tails folder.old < 2 ^ 64 - 1
        → F.open_tails folder.new ≡ F.open_tails folder.old }
    ensures faults_never_fall { F.faults folder.old ≤ F.faults folder.new }
{
    let asked = ask(alloc, folder, &inputs[one.input as usize], &one)?;
    match put(keyed, one, asked) {
        Ok(()) => Ok(()),
        Err(NoMemory) => Err(FolderError::NoMemory),
    }
}

/// What asking a listed file for its key came to.
#[derive(Drop)]
pub(crate) enum Asked {
    /// Its entry gave the key.
    Told,
    Known(Text),
    Small,
    Gone,
}

pub(crate) fn put(keyed: &mut Keyed, one: Listed, asked: Asked) -> Result<(), NoMemory>
    ensures { OnOk result (PutsAs one asked keyed.old keyed.new) }
{
    match asked {
        Asked::Told => keyed.files.push(one)?,
        Asked::Known(key) => keyed.files.push(Listed {
            key: Some(key),
            ..one
        })?,
        Asked::Small => keyed.small.push(one)?,
        Asked::Gone => keyed.gone.push(one)?,
    }
    Ok(())
}

/// Asks a file of this input for its key. One that is opened is closed again.
pub(crate) fn ask<F: Folder>(
    alloc: Global,
    folder: &mut F,
    rule: &InputRule,
    one: &Listed,
) -> Result<Asked, FolderError>
    requires { IsAskable rule.now.file_identity }
    ensures told { IfSome (F.told folder.old)
        (λ told. TellsAnswer rule.now one.now told result (F.told folder.new)) }
    ensures untold { F.told folder.old ≡ None → F.told folder.new ≡ None }
    ensures answer { IfOk result (IsAnswerFor rule.now one.now) }
    ensures refused { OnErr result (IsFingerprint rule.now.file_identity) }
    ensures failed_only_where_faults_rose { IsErrOf result FolderError.Failed
        → Rose (F.faults folder.old) (F.faults folder.new) }
    ensures open_tails_kept { F.open_tails folder.old < 2 ^ 64 - 1
        → F.open_tails folder.new ≡ F.open_tails folder.old }
    ensures faults_never_fall { F.faults folder.old ≤ F.faults folder.new }
{
    let IdentityRule::Fingerprint { .. } = rule.file_identity else {
        return Ok(Asked::Told);
    };
    match folder.open(alloc, &one.path) {
        Ok(Some(mut tail)) => {
            let key = opened_key(alloc, &rule.id, &rule.file_identity, &one.path, &mut tail);
            folder.close(tail);
            answer(key)
        }
        Ok(None) => Ok(Asked::Gone),
        Err(error) => Err(error),
    }
}

/// What an open file reported of its key, as the answer of the folder. A fingerprint lacks no native
/// numbers.
fn answer(key: Result<Identity, IdentityError>) -> Result<Asked, FolderError>
    ensures { IsAnswered key result }
{
    match key {
        Ok(Identity::Key(key)) => Ok(Asked::Known(key)),
        Ok(Identity::TooSmall(_)) => Ok(Asked::Small),
        Err(IdentityError::ReadFault) => Err(FolderError::Failed),
        Err(IdentityError::NoNative | IdentityError::NoMemory) => Err(FolderError::NoMemory),
    }
}

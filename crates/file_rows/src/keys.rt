ghost use Rattle.std.specs.Prelude.{◌≡◌, ◌↔◌, IfOk, IsTrue, Some};
ghost use Rattle.kept_rows.specs.Followed.{IsKeyOf};
ghost use Rattle.file_rows.specs.Removed.{HasListedKeys, IsCleaned, IsCleanedBeside, SomeMayGo};

use event_tree::InputRule;
use prospect::Listed;
use std::alloc::Global;
use std::collections::BTreeSet;
use wire_base::{NoMemory, Text};

/// Whether a row may go at all: some input cleans the rows of removed files, and the key of each listed file is known.
pub fn some_may_go(inputs: &[InputRule], listed: &[Listed]) -> bool
    ensures { IsTrue result ↔ SomeMayGo inputs.now listed.now }
{
    inputs.iter().any(|rule| rule.clean_removed) && listed.iter().all(|one| one.key.is_some())
}

/// The keys of the listed files that have one. `Err` means out of memory.
pub fn listed_keys(alloc: Global, listed: &[Listed]) -> Result<BTreeSet<Text>, NoMemory>
    ensures { IfOk result (HasListedKeys listed.now) }
{
    let mut keys = BTreeSet::new(alloc);
    for one in listed {
        if let Some(key) = &one.key {
            keys.insert(key.copy(alloc)?)?;
        }
    }
    Ok(keys)
}

/// Whether the row of this key goes, if the listed files have these keys and some row may go.
pub fn goes(inputs: &[InputRule], listed: &BTreeSet<Text>, key: &Text) -> bool
    ensures { IsTrue result ↔ IsCleanedBeside inputs.now listed.now key.now }
{
    is_cleaned(inputs, key) && !listed.contains(key)
}

/// Whether the key is of an input that cleans the rows of removed files.
fn is_cleaned(inputs: &[InputRule], key: &Text) -> bool
    ensures { IsTrue result ↔ IsCleaned inputs.now key.now }
{
    inputs
        .iter()
        .any(|rule| rule.clean_removed && is_key_of(&rule.id, key))
}

/// Whether the key is of the input of this id: it begins with `filestream::`, the id and `::`.
fn is_key_of(id: &Text, key: &Text) -> bool
    ensures { IsTrue result ↔ IsKeyOf id.now key.now }
{
    let Some(behind) = key.bytes().strip_prefix(b"filestream::") else {
        return false;
    };
    let Some(rest) = behind.strip_prefix(id.bytes()) else {
        return false;
    };
    rest.starts_with(b"::")
}

/// Whether an opened file has the key with which it was listed. One that was listed without a key has another.
pub fn is_same_key(listed: &Option<Text>, opened: &Text) -> bool
    ensures { IsTrue result ↔ listed.now ≡ Some opened.now }
{
    match listed {
        Some(listed) => *listed == *opened,
        None => false,
    }
}

ghost use Rattle.std.specs.Prelude.{◌≡◌, ◌∷◌, [], ℕ, List, IfOk, OnOk};
ghost use Rattle.std.specs.BTreeMap.{get};
ghost use Rattle.std.specs.Option.{option_or};
ghost use Rattle.file_progress.specs.Progress.{file_of};
ghost use Rattle.wire_base.specs.KeyOrder.{compare};

use prospect::Listed;
use std::alloc::Global;
use std::collections::BTreeMap;
use wire_base::{NoMemory, Text};

/// Files by their keys: of several with one key the first.
pub(crate) fn by_key(alloc: Global, files: Vec<Listed>) -> Result<BTreeMap<Text, Listed>, NoMemory>
    ensures { IfOk result (λ found. (key : List ℕ) →
        get compare found key ≡ file_of files.items key) }
{
    let mut found = BTreeMap::new(alloc);
    for one in files {
        add_file(alloc, &mut found, one)?;
    }
    Ok(found)
}

/// Adds a file, if it has a key that no file before it has.
fn add_file(alloc: Global, found: &mut BTreeMap<Text, Listed>, one: Listed) -> Result<(), NoMemory>
    ensures { OnOk result ((key : List ℕ) → get compare found.new key
        ≡ option_or (get compare found.old key) (file_of (one ∷ []) key)) }
{
    let Some(key) = &one.key else {
        return Ok(());
    };
    if found.contains_key(key) {
        return Ok(());
    }
    let key = key.copy(alloc)?;
    found.insert(key, one)?;
    Ok(())
}

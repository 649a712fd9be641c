ghost use Rattle.std.specs.Prelude.{◌≡◌, ◌<◌, ◌^◌, ◌∷◌, [], map, IfOk, IfErr, OnOk};
ghost use Rattle.std.specs.BTreeMap.{IsOrdered, values};
ghost use Rattle.prospect.specs.Covered.{AddsCovered, AreCovered, AreNumbers, CoversEntry, IsFileOf, IsKeyless, StopsAt, file_of, pair_of, pairs_for, pairs_of, pairs_with};
ghost use Rattle.file_identity.specs.Key.{listed_key};
ghost use Rattle.prospect.specs.ListedFiles.{KeyIsTold};
ghost use Rattle.prospect.specs.Readings.{reading_of};
ghost use Rattle.wire_base.specs.KeyOrder.{compare};

use crate::entries::Entries;
use crate::scan_input::ScanInput;
use crate::showing::Showing;
use crate::{Listed, ScanError};
use event_tree::IdentityRule;
use file_identity::{IdentityError, listed_key};
use outside::Entry;
use std::alloc::Global;
use wire_base::Text;

/// What the inputs cover of the entries, by path and then by input.
pub fn list_entries(
    alloc: Global,
    inputs: &[ScanInput],
    entries: Entries,
) -> Result<Vec<Listed>, ScanError>
    ensures covered { IfOk result
        (λ listed. AreCovered (pairs_of (map reading_of inputs.now) (values entries))
        listed.items) }
    ensures stops { IfErr result
        (StopsAt (pairs_of (map reading_of inputs.now) (values entries))) }
    ensures ordered { IsOrdered compare entries }
{
    let mut listed = Vec::new(alloc);
    for (_path, showing) in entries {
        list_showing(alloc, inputs, &showing, &mut listed)?;
    }
    Ok(listed)
}

/// Reports what was shown of a path for each input that covers it.
fn list_showing(
    alloc: Global,
    inputs: &[ScanInput],
    showing: &Showing,
    listed: &mut Vec<Listed>,
) -> Result<(), ScanError>
    ensures covered { OnOk result
        (AddsCovered (pairs_with (map reading_of inputs.now) showing.now)
        listed.old.items listed.new.items) }
    ensures stops { IfErr result
        (StopsAt (pairs_with (map reading_of inputs.now) showing.now)) }
{
    for input in inputs {
        list_for(alloc, input, showing, listed)?;
    }
    Ok(())
}

/// Reports what was shown of a path for an input, if it covers the path. Only native numbers distinguish
/// files of one path.
fn list_for(
    alloc: Global,
    input: &ScanInput,
    showing: &Showing,
    listed: &mut Vec<Listed>,
) -> Result<(), ScanError>
    ensures covered { OnOk result
        (AddsCovered (pairs_for showing.now (reading_of input.now))
        listed.old.items listed.new.items) }
    ensures stops { IfErr result
        (StopsAt (pairs_for showing.now (reading_of input.now))) }
{
    list_entry(alloc, input, &showing.first, listed)?;
    match input.identity {
        IdentityRule::Native => list_others(alloc, input, &showing.others, listed),
        _ => Ok(()),
    }
}

fn list_others(
    alloc: Global,
    input: &ScanInput,
    others: &[Entry],
    listed: &mut Vec<Listed>,
) -> Result<(), ScanError>
    ensures covered { OnOk result
        (AddsCovered (map (λ entry. pair_of entry (reading_of input.now)) others.now)
        listed.old.items listed.new.items) }
    ensures stops { IfErr result
        (StopsAt (map (λ entry. pair_of entry (reading_of input.now)) others.now)) }
{
    for entry in others {
        list_entry(alloc, input, entry, listed)?;
    }
    Ok(())
}

/// Reports an entry for an input, if it covers it.
fn list_entry(
    alloc: Global,
    input: &ScanInput,
    entry: &Entry,
    listed: &mut Vec<Listed>,
) -> Result<(), ScanError>
    ensures covered { OnOk result
        (AddsCovered (pair_of entry.now (reading_of input.now) ∷ [])
        listed.old.items listed.new.items) }
    ensures stops { IfErr result
        (StopsAt (pair_of entry.now (reading_of input.now) ∷ [])) }
{
    if !input.covers(&entry.path) {
        return Ok(());
    }
    let file = file_of(alloc, input, entry)?;
    listed.push(file)?;
    Ok(())
}

fn file_of(alloc: Global, input: &ScanInput, entry: &Entry) -> Result<Listed, ScanError>
    requires { CoversEntry (pair_of entry.now (reading_of input.now)) }
    ensures file { IfOk result (λ file. file ≡ file_of (pair_of entry.now (reading_of input.now))) }
    ensures is_one { IfOk result (λ file. IsFileOf (pair_of entry.now (reading_of input.now))) }
    ensures untold { IfErr result (IsKeyless (pair_of entry.now (reading_of input.now))) }
{
    numbers_fit(entry.native);
    Ok(Listed {
        input: input.number,
        key: entry_key(alloc, input, entry)?,
        path: entry.path.copy(alloc)?,
        size: entry.size,
        changed: entry.changed,
    })
}

/// The key, as far as the entry gives it.
fn entry_key(alloc: Global, input: &ScanInput, entry: &Entry) -> Result<Option<Text>, ScanError>
    ensures key { IfOk result (λ key. key ≡ listed_key input.now.id input.now.identity entry.now) }
    ensures told { IfOk result (KeyIsTold input.now.identity) }
    ensures untold { IfErr result (IsKeyless (pair_of entry.now (reading_of input.now))) }
{
    match listed_key(alloc, &input.id, &input.identity, entry) {
        Ok(key) => Ok(key),
        Err(IdentityError::NoNative) => Err(ScanError::NoNative {
            path: entry.path.copy(alloc)?,
        }),
        Err(_) => Err(ScanError::NoMemory),
    }
}

/// Inode and device have at most 64 bits each. It computes nothing.
fn numbers_fit(native: Option<(u64, u64)>)
    ensures { AreNumbers native }
{
    if let Some((inode, device)) = native {
        both_fit(inode, device);
    }
}

fn both_fit(inode: u64, device: u64)
    ensures inode { inode < 2 ^ 64 }
    ensures device { device < 2 ^ 64 }
{}

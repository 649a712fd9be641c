ghost use Rattle.std.specs.Prelude.{◌≡◌, ◌∷◌, [], None, OnOk};
ghost use Rattle.std.specs.BTreeMap.{get};
ghost use Rattle.prospect.specs.Entries.{Adds};
ghost use Rattle.wire_base.specs.KeyOrder.{compare};

use crate::showing::Showing;
use outside::Entry;
use std::alloc::Global;
use std::collections::BTreeMap;
use wire_base::{NoMemory, Text};

/// What the listings showed, by the paths.
pub type Entries = BTreeMap<Text, Showing>;

/// Adds the entries of a listing.
pub fn add_entries(alloc: Global, entries: &mut Entries, shown: Vec<Entry>) -> Result<(), NoMemory>
    ensures { OnOk result (Adds shown.items entries.old entries.new) }
{
    for entry in shown {
        add_entry(alloc, entries, entry)?;
    }
    Ok(())
}

/// Adds an entry, if none with its path and its native numbers is there.
fn add_entry(alloc: Global, entries: &mut Entries, entry: Entry) -> Result<(), NoMemory>
    ensures { OnOk result (Adds (entry ∷ []) entries.old entries.new) }
{
    match entries.get_mut(&entry.path) {
        Some(showing) => showing.add(entry),
        None => add_path(alloc, entries, entry),
    }
}

/// Adds an entry with a new path.
fn add_path(alloc: Global, entries: &mut Entries, entry: Entry) -> Result<(), NoMemory>
    requires { get compare entries.old entry.path ≡ None }
    ensures { OnOk result (Adds (entry ∷ []) entries.old entries.new) }
{
    let path = entry.path.copy(alloc)?;
    entries.insert(
        path,
        Showing {
            first: entry,
            others: Vec::new(alloc),
        },
    )?;
    Ok(())
}

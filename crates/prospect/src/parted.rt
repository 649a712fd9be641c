ghost use Rattle.std.specs.Prelude.{IfOk, OnOk};
ghost use Rattle.prospect.specs.Doubled.{PartsDoubled};
ghost use Rattle.prospect.specs.Parting.{AddsKey, HasKeysOf, PartsOne};

use crate::Listed;
use std::alloc::Global;
use std::collections::BTreeSet;
use wire_base::{NoMemory, Text};

/// Listed files, parted by whether an earlier one has the same key.
#[derive(Debug, Drop)]
pub struct Parted {
    /// The first file of each key, and files without a key, in the order in which they were listed.
    pub files: Vec<Listed>,
    /// The others, in that order.
    pub doubled: Vec<Listed>,
}

/// Parts listed files into those that are followed, and those whose key an earlier one has. A file
/// whose key is not known is followed.
pub fn part_doubled(alloc: Global, listed: Vec<Listed>) -> Result<Parted, NoMemory>
    ensures parted { IfOk result
        (λ parted. PartsDoubled listed.items parted.files.items parted.doubled.items) }
{
    let mut keys = BTreeSet::new(alloc);
    let mut parted = Parted {
        files: Vec::new(alloc),
        doubled: Vec::new(alloc),
    };
    for one in listed {
        part_one(alloc, &mut keys, &mut parted, one)?;
    }
    Ok(parted)
}

/// Puts a file after the others, if the keys are those of the files that are followed.
fn part_one(
    alloc: Global,
    keys: &mut BTreeSet<Text>,
    parted: &mut Parted,
    one: Listed,
) -> Result<(), NoMemory>
    requires { HasKeysOf parted.old.files.items keys.old }
    ensures keys { OnOk result (HasKeysOf parted.new.files.items keys.new) }
    ensures parted { OnOk result (PartsOne one parted.old parted.new) }
{
    if add_key(alloc, keys, &one.key)? {
        parted.files.push(one)?;
    } else {
        parted.doubled.push(one)?;
    }
    Ok(())
}

/// Adds the key, and answers whether it is new; a file without a key is always new.
fn add_key(alloc: Global, keys: &mut BTreeSet<Text>, key: &Option<Text>) -> Result<bool, NoMemory>
    ensures { IfOk result (λ added. AddsKey key.now keys.old keys.new added) }
{
    match key {
        Some(key) => Ok(keys.insert(key.copy(alloc)?)?),
        None => Ok(true),
    }
}

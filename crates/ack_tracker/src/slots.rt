ghost use Rattle.std.specs.Prelude.{◌≡◌, [], ◌∷◌, ◌++◌, None, OnOk, OnErr};
ghost use Rattle.ack_tracker.specs.Files.{file_of};
ghost use Rattle.ack_tracker.specs.Keys.{has_key, is_begun, later, latest_of, stands};

use crate::file::File;
use std::alloc::Global;
use std::collections::BTreeMap;
use std::marker::Model;
use wire_base::{NoMemory, Text};

/// The slots that Begins gave to one key.
#[derive(Debug, Drop)]
pub(crate) struct Slots {
    slots: Vec<u32>,
}

impl Model for Slots {
    ghost use Rattle.std.specs.Prelude.{ℕ, List};

    ghost Value = { List ℕ };

    ghost view = { λ s. s.slots.items };
}

impl Slots {
    pub(crate) fn new(alloc: Global) -> Slots
        ensures { result ≡ [] }
    {
        Slots {
            slots: Vec::new(alloc),
        }
    }

    pub(crate) fn add(&mut self, slot: u32) -> Result<(), NoMemory>
        ensures added { OnOk result (self.new ≡ self.old ++ slot ∷ []) }
        ensures kept { OnErr result (self.new ≡ self.old) }
    {
        self.slots.push(slot)?;
        Ok(())
    }

    /// Whether one of them began with the key.
    pub(crate) fn is_begun(&self, files: &BTreeMap<u32, File>, key: &Text) -> bool
        ensures { result ≡ is_begun files.now.entries key.now self.now }
    {
        is_begun(files, key, &self.slots)
    }

    /// The greatest of them whose row is there.
    pub(crate) fn latest(&self, files: &BTreeMap<u32, File>, key: &Text) -> Option<u32>
        ensures { result ≡ latest_of files.now.entries key.now None self.now }
    {
        latest_of(files, key, &self.slots)
    }
}

fn is_begun(files: &BTreeMap<u32, File>, key: &Text, slots: &[u32]) -> bool
    ensures { result ≡ is_begun files.now.entries key.now slots.now }
{
    for slot in slots {
        if has_key(files, *slot, key) {
            return true;
        }
    }
    false
}

fn latest_of(files: &BTreeMap<u32, File>, key: &Text, slots: &[u32]) -> Option<u32>
    ensures { result ≡ latest_of files.now.entries key.now None slots.now }
{
    let mut latest = None;
    for slot in slots {
        if stands(files, *slot, key) {
            latest = later(latest, *slot);
        }
    }
    latest
}

fn has_key(files: &BTreeMap<u32, File>, slot: u32, key: &Text) -> bool
    ensures { result ≡ has_key (file_of files.now.entries slot) key.now }
{
    match files.get(&slot) {
        Some(file) => file.has_key(key),
        None => false,
    }
}

fn stands(files: &BTreeMap<u32, File>, slot: u32, key: &Text) -> bool
    ensures { result ≡ stands (file_of files.now.entries slot) key.now }
{
    match files.get(&slot) {
        Some(file) => file.has_key(key) && !file.is_gone(),
        None => false,
    }
}

fn later(latest: Option<u32>, slot: u32) -> Option<u32>
    ensures { result ≡ later latest slot }
{
    match latest {
        Some(other) => Some(other.max(slot)),
        None => Some(slot),
    }
}

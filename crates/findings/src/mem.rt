ghost use Rattle.std.specs.Prelude.{◌≡◌, IfOk, Some, map};
ghost use Rattle.std.specs.Option.{option_copied};
ghost use Rattle.findings.specs.Mem.{told_by};

use crate::{Hosts, Place, Skipped, System, Trial, Why};
use glob_paths::Glob;
use std::alloc::Global;
use std::collections::BTreeMap;
use wire_base::{Host, NoMemory, Text};

/// A system in memory, all of it known.
#[derive(Drop)]
pub struct MemSystem {
    /// What has which path; nothing has any other.
    pub places: BTreeMap<Text, Place>,
    /// What is not shipped below which root.
    pub skipped: BTreeMap<Text, Vec<Skipped>>,
    /// Why which file cannot be read.
    pub refusals: BTreeMap<Text, Text>,
    /// Why which folder's registry cannot be written.
    pub write_refusals: BTreeMap<Text, Text>,
    pub open_limit: Option<u64>,
}

impl System for MemSystem {
    ghost told = { λ system. Some (told_by system) };

    fn place(&self, path: &Text) -> Place {
        match self.places.get(path) {
            Some(place) => *place,
            None => Place::Nothing,
        }
    }

    fn skipped(&self, alloc: Global, glob: &Glob) -> Result<Vec<Skipped>, NoMemory> {
        match self.skipped.get(glob.root()) {
            Some(skipped) => copy_all(alloc, skipped),
            None => Ok(Vec::new(alloc)),
        }
    }

    fn refusal(&self, alloc: Global, path: &Text) -> Result<Option<Text>, NoMemory> {
        copy_found(alloc, self.refusals.get(path))
    }

    fn write_refusal(&self, alloc: Global, folder: &Text) -> Result<Option<Text>, NoMemory> {
        copy_found(alloc, self.write_refusals.get(folder))
    }

    fn open_limit(&self) -> Option<u64> {
        self.open_limit
    }
}

fn copy_found(alloc: Global, found: Option<&Text>) -> Result<Option<Text>, NoMemory>
    ensures { IfOk result (λ copied. copied ≡ option_copied found.entry) }
{
    match found {
        Some(text) => Ok(Some(text.copy(alloc)?)),
        None => Ok(None),
    }
}

fn copy_all(alloc: Global, skipped: &[Skipped]) -> Result<Vec<Skipped>, NoMemory>
    ensures { IfOk result (λ copied. copied.items ≡ skipped.now) }
{
    let mut copied = Vec::new(alloc);
    for one in skipped {
        copied.push(copy_of(alloc, one)?)?;
    }
    Ok(copied)
}

fn copy_of(alloc: Global, one: &Skipped) -> Result<Skipped, NoMemory>
    ensures { IfOk result (λ copied. copied ≡ one.now) }
{
    let path = one.path.copy(alloc)?;
    match &one.why {
        Why::Link => Ok(Skipped {
            path,
            why: Why::Link,
        }),
        Why::NoText => Ok(Skipped {
            path,
            why: Why::NoText,
        }),
        Why::Unreadable { reason } => Ok(Skipped {
            path,
            why: Why::Unreadable {
                reason: reason.copy(alloc)?,
            },
        }),
    }
}

/// Hosts in memory, all of them known.
#[derive(Drop)]
pub struct MemHosts {
    /// Why which port does not connect; each other does.
    pub refusals: BTreeMap<u16, Text>,
    /// What was tried so far.
    pub tried: Vec<Trial>,
}

impl Hosts for MemHosts {
    ghost tried = { λ hosts. Some hosts.tried.items };

    fn try_host(&mut self, alloc: Global, host: &Host) -> Result<Option<Text>, NoMemory> {
        let refusal = copy_found(alloc, self.refusals.get(&host.port))?;
        let noted = Trial {
            host: Host {
                name: host.name.copy(alloc)?,
                port: host.port,
            },
            refusal: copy_found(alloc, refusal.as_ref())?,
        };
        self.tried.push(noted)?;
        Ok(refusal)
    }
}

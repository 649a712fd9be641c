ghost use Rattle.std.specs.Prelude.{◌≡◌, ◌++◌, IfOk, OnOk, map};
ghost use Rattle.std.specs.List.{flat_map};
ghost use Rattle.findings.specs.Findings.{foreign_findings, fruit_findings, glob_findings, is_folder, is_zero, only_if, rotated_findings, skipped_finding};

use crate::finding::{Finding, Note};
use crate::foreign::{ends_with_star, is_foreign};
use crate::kind::Kind;
use crate::seen::GlobSeen;
use crate::{Place, Skipped, Why};
use event_tree::IdentityRule;
use std::alloc::Global;
use wire_base::{NoMemory, Text};

pub(crate) fn put_globs(
    alloc: Global,
    found: &mut Vec<Finding>,
    globs: &[GlobSeen],
) -> Result<(), NoMemory>
    ensures { OnOk result (found.new.items ≡ found.old.items ++ flat_map glob_findings globs.now) }
{
    for one in globs {
        put_glob(alloc, found, one)?;
    }
    Ok(())
}

fn put_glob(alloc: Global, found: &mut Vec<Finding>, one: &GlobSeen) -> Result<(), NoMemory>
    ensures { OnOk result (found.new.items ≡ found.old.items ++ glob_findings one.now) }
{
    put_skipped(alloc, found, &one.skipped)?;
    put_fruit(alloc, found, one)?;
    put_foreign(alloc, found, one)?;
    put_rotated(alloc, found, one)?;
    Ok(())
}

fn put_skipped(alloc: Global, found: &mut Vec<Finding>, skipped: &[Skipped]) -> Result<(), NoMemory>
    ensures { OnOk result (found.new.items ≡ found.old.items ++ map skipped_finding skipped.now) }
{
    for one in skipped {
        found.push(skipped_finding(alloc, one)?)?;
    }
    Ok(())
}

fn skipped_finding(alloc: Global, one: &Skipped) -> Result<Finding, NoMemory>
    ensures { IfOk result (λ finding. finding ≡ skipped_finding one.now) }
{
    let name = one.path.copy(alloc)?;
    match &one.why {
        Why::Link => Ok(Finding {
            kind: Kind::Link,
            name,
            note: Note::Nothing,
        }),
        Why::NoText => Ok(Finding {
            kind: Kind::NoText,
            name,
            note: Note::Nothing,
        }),
        Why::Unreadable { reason } => Ok(Finding {
            kind: Kind::Unreadable,
            name,
            note: Note::Reason(reason.copy(alloc)?),
        }),
    }
}

/// Puts that the root is absent, or that no file is found.
fn put_fruit(alloc: Global, found: &mut Vec<Finding>, one: &GlobSeen) -> Result<(), NoMemory>
    ensures { OnOk result (found.new.items
        ≡ found.old.items ++ fruit_findings one.now.root one.now.files one.now.asked.text) }
{
    let text = &one.asked.text;
    match one.root {
        Place::Nothing => put_if(alloc, found, true, Kind::Rootless, text),
        _ => put_if(alloc, found, is_zero(one.files), Kind::Fruitless, text),
    }
}

fn is_zero(files: Option<u64>) -> bool
    ensures { result ≡ is_zero files }
{
    match files {
        Some(files) => files == 0,
        None => false,
    }
}

fn put_foreign(alloc: Global, found: &mut Vec<Finding>, one: &GlobSeen) -> Result<(), NoMemory>
    ensures { OnOk result (found.new.items
        ≡ found.old.items ++ foreign_findings one.now.spelled one.now.asked.text) }
{
    let text = &one.asked.text;
    let foreign = is_foreign(text.bytes()) || is_folder(one.spelled);
    put_if(alloc, found, foreign, Kind::Foreign, text)
}

fn is_folder(place: Place) -> bool
    ensures { result ≡ is_folder place }
{
    match place {
        Place::Folder => true,
        _ => false,
    }
}

fn put_rotated(alloc: Global, found: &mut Vec<Finding>, one: &GlobSeen) -> Result<(), NoMemory>
    ensures { OnOk result (found.new.items
        ≡ found.old.items ++ rotated_findings one.now.asked.identity one.now.asked.text) }
{
    let text = &one.asked.text;
    match one.asked.identity {
        IdentityRule::Path => {
            put_if(
                alloc,
                found,
                ends_with_star(text.bytes()),
                Kind::Rotated,
                text,
            )
        }
        _ => Ok(()),
    }
}

fn put_if(
    alloc: Global,
    found: &mut Vec<Finding>,
    holds: bool,
    kind: Kind,
    name: &Text,
) -> Result<(), NoMemory>
    ensures { OnOk result (found.new.items ≡ found.old.items ++ only_if holds kind name.now) }
{
    if holds {
        found.push(Finding {
            kind,
            name: name.copy(alloc)?,
            note: Note::Nothing,
        })?;
    }
    Ok(())
}

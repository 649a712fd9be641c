ghost use Rattle.std.specs.Prelude.{◌≡◌, ◌++◌, IfOk, OnOk, drop, map};
ghost use Rattle.std.specs.Option.{option_copied};
ghost use Rattle.findings.specs.Findings.{doubled_finding, file_findings, findings_of, idle_finding, many_findings, small_finding, trial_finding, unread_finding, wanted_of, write_findings};

use crate::finding::{Finding, Note};
use crate::glob_findings::put_globs;
use crate::hosts::Trial;
use crate::kind::Kind;
use crate::seen::{Seen, Unread};
use crate::text::host_text;
use event_tree::{IdentityRule, InputRule, Settings};
use prospect::Listed;
use std::alloc::Global;
use wire_base::{Host, NoMemory, Text};

/// So many files a run may have open beside those that it follows: the standard streams, the registry, links, and the folder
/// that is listed.
pub const BESIDE_FILES: u64 = 32;

/// What a check finds in what it saw, for the registry of this folder.
pub(crate) fn findings_of(
    alloc: Global,
    folder: &Text,
    settings: &Settings,
    seen: &Seen,
) -> Result<Vec<Finding>, NoMemory>
    ensures { IfOk result (λ found. found.items ≡ findings_of folder.now settings.now seen.now) }
{
    let mut found = Vec::new(alloc);
    put_files(alloc, &mut found, settings.inputs.as_slice(), seen)?;
    let hosts = settings.output.hosts.as_slice();
    put_idle(
        alloc,
        &mut found,
        hosts.get(settings.output.workers as usize..).unwrap_or(&[]),
    )?;
    put_many(alloc, &mut found, seen.files.files, seen.open_limit)?;
    put_write(alloc, &mut found, folder, &seen.write_refusal)?;
    put_trials(alloc, &mut found, &seen.trials)?;
    Ok(found)
}

fn put_files(
    alloc: Global,
    found: &mut Vec<Finding>,
    inputs: &[InputRule],
    seen: &Seen,
) -> Result<(), NoMemory>
    ensures { OnOk result
        (found.new.items ≡ found.old.items ++ file_findings inputs.now seen.now) }
{
    put_globs(alloc, found, &seen.files.globs)?;
    put_unread(alloc, found, &seen.files.unread)?;
    put_small(alloc, found, inputs, &seen.files.small)?;
    put_doubled(alloc, found, &seen.files.doubled)?;
    Ok(())
}

fn put_unread(alloc: Global, found: &mut Vec<Finding>, unread: &[Unread]) -> Result<(), NoMemory>
    ensures { OnOk result (found.new.items ≡ found.old.items ++ map unread_finding unread.now) }
{
    for one in unread {
        found.push(Finding {
            kind: Kind::Unreadable,
            name: one.path.copy(alloc)?,
            note: Note::Reason(one.refusal.copy(alloc)?),
        })?;
    }
    Ok(())
}

fn put_small(
    alloc: Global,
    found: &mut Vec<Finding>,
    inputs: &[InputRule],
    small: &[Listed],
) -> Result<(), NoMemory>
    ensures { OnOk result
        (found.new.items ≡ found.old.items ++ map (small_finding inputs.now) small.now) }
{
    for one in small {
        found.push(small_finding(alloc, inputs, one)?)?;
    }
    Ok(())
}

fn small_finding(alloc: Global, inputs: &[InputRule], one: &Listed) -> Result<Finding, NoMemory>
    ensures { IfOk result (λ finding. finding ≡ small_finding inputs.now one.now) }
{
    let wanted = wanted_of(inputs.get(one.input as usize));
    Ok(Finding {
        kind: Kind::Small,
        name: one.path.copy(alloc)?,
        note: Note::Bytes {
            size: one.size,
            wanted,
        },
    })
}

/// So many bytes the fingerprint of a file of the input reads.
fn wanted_of(rule: Option<&InputRule>) -> u64
    ensures { result ≡ wanted_of (option_copied rule.entry) }
{
    match rule {
        Some(rule) => match rule.file_identity {
            IdentityRule::Fingerprint { offset, length } => offset.saturating_add(length),
            _ => 0,
        },
        None => 0,
    }
}

fn put_doubled(alloc: Global, found: &mut Vec<Finding>, doubled: &[Listed]) -> Result<(), NoMemory>
    ensures { OnOk result (found.new.items ≡ found.old.items ++ map doubled_finding doubled.now) }
{
    for one in doubled {
        found.push(Finding {
            kind: Kind::Doubled,
            name: one.path.copy(alloc)?,
            note: Note::Nothing,
        })?;
    }
    Ok(())
}

fn put_idle(alloc: Global, found: &mut Vec<Finding>, idle: &[Host]) -> Result<(), NoMemory>
    ensures { OnOk result (found.new.items ≡ found.old.items ++ map idle_finding idle.now) }
{
    for host in idle {
        found.push(Finding {
            kind: Kind::Idle,
            name: host_text(alloc, host)?,
            note: Note::Nothing,
        })?;
    }
    Ok(())
}

fn put_many(
    alloc: Global,
    found: &mut Vec<Finding>,
    files: u64,
    limit: Option<u64>,
) -> Result<(), NoMemory>
    ensures { OnOk result (found.new.items ≡ found.old.items ++ many_findings files limit) }
{
    let Some(limit) = limit else {
        return Ok(());
    };
    if limit < files.saturating_add(BESIDE_FILES) {
        found.push(Finding {
            kind: Kind::ManyFiles,
            name: Text::from_string(String::from_str(alloc, "ulimit -n")?),
            note: Note::Files {
                found: files,
                limit,
            },
        })?;
    }
    Ok(())
}

fn put_write(
    alloc: Global,
    found: &mut Vec<Finding>,
    folder: &Text,
    refusal: &Option<Text>,
) -> Result<(), NoMemory>
    ensures { OnOk result
        (found.new.items ≡ found.old.items ++ write_findings folder.now refusal.now) }
{
    if let Some(reason) = refusal {
        found.push(Finding {
            kind: Kind::Unwritable,
            name: folder.copy(alloc)?,
            note: Note::Reason(reason.copy(alloc)?),
        })?;
    }
    Ok(())
}

fn put_trials(alloc: Global, found: &mut Vec<Finding>, trials: &[Trial]) -> Result<(), NoMemory>
    ensures { OnOk result (found.new.items ≡ found.old.items ++ map trial_finding trials.now) }
{
    for trial in trials {
        found.push(trial_finding(alloc, trial)?)?;
    }
    Ok(())
}

fn trial_finding(alloc: Global, trial: &Trial) -> Result<Finding, NoMemory>
    ensures { IfOk result (λ finding. finding ≡ trial_finding trial.now) }
{
    let name = host_text(alloc, &trial.host)?;
    match &trial.refusal {
        None => Ok(Finding {
            kind: Kind::Connected,
            name,
            note: Note::Nothing,
        }),
        Some(reason) => Ok(Finding {
            kind: Kind::Unconnected,
            name,
            note: Note::Reason(reason.copy(alloc)?),
        }),
    }
}

ghost use Rattle.std.specs.Prelude.{◌≡◌, ◌≢◌, ◌<◌, ◌-◌, ◌^◌, IfErr, IfOk, OnOk, false};
ghost use Rattle.beat_config.specs.InRange.{AreInRange};
ghost use Rattle.findings.specs.Checks.{Checks, IsEnd, IsNamed, IsSeeingEnd, IsSettingsEnd, IsTellingEnd, Prints, Sees, TriesIf, streams_of, told_by};
ghost use Rattle.findings.specs.Ends.{IsShown};
ghost use Rattle.report.specs.declared.status.Status.{Status};

use crate::ending::Ending;
use crate::fault_place::place_text;
use crate::finding_list::findings_of;
use crate::page::{ending_of, page_of, reasons_of};
use crate::seeing::{see_files, see_hosts};
use crate::seen::Seen;
use crate::settings::read_source;
use crate::{Asked, Hosts, System, Trial};
use beat_config::{SettingsError, read_settings};
use event_tree::Settings;
use outside::{Folder, Sink, Source};
use prospect::first_lack;
use report::{Lack, Status, write_all};
use std::alloc::Global;
use wire_base::{Host, NoMemory, Text};

/// What is looked at beside the settings.
#[derive(Drop)]
pub struct Outside<F, Y, H> {
    pub folder: F,
    pub system: Y,
    pub hosts: H,
}

/// Checks the settings, the files that they name and, if that is asked for, the hosts, and prints what is found to `out`,
/// and why the check ends as it does to `err`.
///
/// If it is `Refused`, nothing is printed to `out`, except that a sink which fails may have taken a part; and `err` has the
/// place of a fault of the settings, as far as it can be found, or why they cannot be read.
pub fn check<R: Source, F: Folder, Y: System, H: Hosts, S: Sink, E: Sink>(
    alloc: Global,
    asked: &Asked,
    source: &mut R,
    outside: &mut Outside<F, Y, H>,
    out: &mut S,
    err: &mut E,
) -> Ending
    // What is printed.
    ensures shown { IsShown result → Checks asked.now (R.left source.old)
        (told_by F.Folder Y.System H.Hosts outside.old outside.new) result
        (streams_of (S.written out.old) (S.written out.new)
        (E.written err.old) (E.written err.new)) }
    ensures nothing_printed_where_refused { (status : Status) → result ≡ Ending.Refused status →
        status ≢ Status.OutFault → S.written out.new ≡ S.written out.old }

    // Which end comes, and what causes it.
    ensures refused_only_for_its_cause { IsEnd (R.left source.old)
        (told_by F.Folder Y.System H.Hosts outside.old outside.new)
        (record { before = R.faults source.old; now = R.faults source.new })
        (record { before = S.faults out.old; now = S.faults out.new }) result }

    // Nothing is changed, and no host is tried unless that is asked for.
    ensures system_stays { outside.new.system ≡ outside.old.system }
    ensures hosts_stay { asked.now.connect ≡ false →
        H.tried outside.new.hosts ≡ H.tried outside.old.hosts }
    ensures tails_closed { F.open_tails outside.old.folder < 2 ^ 64 - 1 →
        F.open_tails outside.new.folder ≡ F.open_tails outside.old.folder }
{
    let settings = match settings_of(alloc, asked, source, &outside.system, err) {
        Ok(settings) => settings,
        Err(status) => return Ending::Refused(status),
    };
    match see(alloc, asked, &settings, outside) {
        Ok(seen) => tell(alloc, asked, &settings, &seen, out, err),
        Err(status) => Ending::Refused(status),
    }
}

/// The settings of all the source's bytes; if there are none, why is written to `err`.
fn settings_of<R: Source, Y: System, E: Sink>(
    alloc: Global,
    asked: &Asked,
    source: &mut R,
    system: &Y,
    err: &mut E,
) -> Result<Settings, Status>
    ensures named { IfOk result (IsNamed (R.left source.old)) }
    ensures in_range { IfOk result AreInRange }
    ensures refused { IfErr result
        (IsSettingsEnd (R.left source.old) (R.faults source.old) (R.faults source.new)) }
    ensures nothing_told { OnOk result (E.written err.new ≡ E.written err.old) }
{
    let bytes = match read_source(alloc, source) {
        Ok(bytes) => bytes,
        Err(status) => {
            tell_unread(alloc, system, &asked.settings, err);
            return Err(status);
        }
    };
    let fault = match read_settings(alloc, &bytes) {
        Ok(settings) => return Ok(settings),
        Err(fault) => fault,
    };
    tell_place(alloc, &asked.settings, &bytes, &fault, err);
    match fault {
        SettingsError::NoMemory => Err(Status::NoMemory),
        fault => Err(Status::Settings(fault)),
    }
}

/// Writes why the settings cannot be read, if the system says it. What cannot be written is left out: the end of the check
/// says it, too.
fn tell_unread<Y: System, E: Sink>(alloc: Global, system: &Y, file: &Text, err: &mut E) {
    if let Ok(Some(refusal)) = system.refusal(alloc, file) {
        let (file, refusal) = (file.as_str(), refusal.as_str());
        if let Ok(text) = format!(in alloc; "{file}: {refusal}\n") {
            let _ = write_all(err, text.as_bytes());
        }
    }
}

fn tell_place<E: Sink>(
    alloc: Global,
    file: &Text,
    settings: &[u8],
    fault: &SettingsError,
    err: &mut E,
) {
    if let Ok(text) = place_text(alloc, file, settings, fault) {
        let _ = write_all(err, text.as_bytes());
    }
}

/// What is seen of the files, the registry's folder and the hosts.
fn see<F: Folder, Y: System, H: Hosts>(
    alloc: Global,
    asked: &Asked,
    settings: &Settings,
    outside: &mut Outside<F, Y, H>,
) -> Result<Seen, Status>
    requires { AreInRange settings.now }
    ensures sees { IfOk result (Sees asked.now
        (told_by F.Folder Y.System H.Hosts outside.old outside.new) settings.now) }
    ensures refused { IfErr result (IsSeeingEnd settings.now
        (told_by F.Folder Y.System H.Hosts outside.old outside.new)) }
    ensures system_stays { outside.new.system ≡ outside.old.system }
    ensures hosts_stay { asked.now.connect ≡ false →
        H.tried outside.new.hosts ≡ H.tried outside.old.hosts }
    ensures tails_closed { F.open_tails outside.old.folder < 2 ^ 64 - 1 →
        F.open_tails outside.new.folder ≡ F.open_tails outside.old.folder }
{
    if let Some(key) = first_lack(alloc, settings)? {
        return Err(Status::Unbuilt {
            what: Lack::Key(key),
        });
    }
    let inputs = settings.inputs.as_slice();
    let files = see_files(alloc, &mut outside.folder, &outside.system, inputs)?;
    let open_limit = outside.system.open_limit();
    let write_refusal = outside.system.write_refusal(alloc, &asked.data)?;
    let hosts = settings.output.hosts.as_slice();
    let trials = try_if(alloc, asked.connect, &mut outside.hosts, hosts)?;
    Ok(Seen {
        files,
        open_limit,
        write_refusal,
        trials,
    })
}

/// Tries each host once if that is asked for.
fn try_if<H: Hosts>(
    alloc: Global,
    connect: bool,
    hosts: &mut H,
    named: &[Host],
) -> Result<Vec<Trial>, NoMemory>
    ensures tried { IfOk result (λ trials.
        TriesIf connect (H.tried hosts.old) named.now trials.items (H.tried hosts.new)) }
    ensures hosts_stay { connect ≡ false → H.tried hosts.new ≡ H.tried hosts.old }
{
    if connect {
        see_hosts(alloc, hosts, named)
    } else {
        Ok(Vec::new(alloc))
    }
}

/// Prints what was seen. All that is printed is made before the first byte goes out.
fn tell<S: Sink, E: Sink>(
    alloc: Global,
    asked: &Asked,
    settings: &Settings,
    seen: &Seen,
    out: &mut S,
    err: &mut E,
) -> Ending
    ensures shown { IsShown result → Prints asked.now settings.now seen.now result
        (streams_of (S.written out.old) (S.written out.new)
        (E.written err.old) (E.written err.new)) }
    ensures nothing_printed_where_refused { (status : Status) → result ≡ Ending.Refused status →
        status ≢ Status.OutFault → S.written out.new ≡ S.written out.old }
    ensures ends { IsTellingEnd
        (record { before = S.faults out.old; now = S.faults out.new }) result }
{
    let Ok(found) = findings_of(alloc, &asked.data, settings, seen) else {
        return Ending::Refused(Status::NoMemory);
    };
    let Ok(page) = page_of(alloc, &seen.files.globs, &found) else {
        return Ending::Refused(Status::NoMemory);
    };
    let Ok(reasons) = reasons_of(alloc, &found) else {
        return Ending::Refused(Status::NoMemory);
    };
    match write_all(out, &page) {
        Ok(()) => {
            // What cannot be written is left out: the end of the check says it, too.
            let _ = write_all(err, &reasons);
            ending_of(seen.files.failed, &found)
        }
        Err(_) => Ending::Refused(Status::OutFault),
    }
}

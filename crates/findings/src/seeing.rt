ghost use Rattle.std.specs.Prelude.{◌≡◌, ◌∷◌, ◌++◌, [], ◌<◌, ◌≤◌, ◌-◌, ◌^◌, All, IfErr, IfOk, IfSome, OnOk, length, true};
ghost use Rattle.findings.specs.Each.{Each};
ghost use Rattle.findings.specs.Scanning.{IsMarksEnd, IsScanEnd, ShowsEnd, ShowsMarksEnd};
ghost use Rattle.findings.specs.Seeing.{AreUnread, IsCount, SeesFiles, SeesGlob, SeesListed, TriesAll, is_there, unread_of};
ghost use Rattle.outside.specs.Counts.{Rose};
ghost use Rattle.prospect.specs.AskedFiles.{AreAskable};
ghost use Rattle.prospect.specs.Members.{HaveGlobs};

use crate::Place;
use crate::counting::count_of;
use crate::globs::{GlobAsked, globs_of};
use crate::hosts::{Hosts, Trial};
use crate::scan::{listed_files, marks_of};
use crate::seen::{FilesSeen, GlobSeen, Unread};
use crate::system::System;
use event_tree::InputRule;
use outside::Folder;
use prospect::Listed;
use report::Status;
use std::alloc::Global;
use wire_base::{Host, NoMemory};

/// What is seen of the files that the inputs name.
pub(crate) fn see_files<F: Folder, Y: System>(
    alloc: Global,
    folder: &mut F,
    system: &Y,
    inputs: &[InputRule],
) -> Result<FilesSeen, Status>
    requires globs { HaveGlobs inputs.now }
    requires askable { AreAskable inputs.now }
    ensures seen { IfOk result (λ files. IfSome (F.told folder.old)
        (λ told. SeesFiles (Y.told system.now) inputs.now told files (F.told folder.new))) }
    ensures shows { IfErr result (λ status. IfSome (F.told folder.old)
        (λ told. ShowsEnd inputs.now told status (F.told folder.new))) }
    ensures ends { IfErr result IsScanEnd }
    ensures failed_only_where_faults_rose { IfOk result (λ files. files.failed ≡ true →
        Rose (F.faults folder.old) (F.faults folder.new)) }
    ensures open_tails_kept { F.open_tails folder.old < 2 ^ 64 - 1 →
        F.open_tails folder.new ≡ F.open_tails folder.old }
    ensures faults_never_fall { F.faults folder.old ≤ F.faults folder.new }
{
    let asked = globs_of(alloc, inputs)?;
    let listed = listed_files(alloc, folder, inputs)?;
    let globs = see_globs(alloc, system, asked, &listed)?;
    match listed {
        Some(listed) => see_listed(alloc, folder, system, inputs, globs, listed),
        None => Ok(FilesSeen {
            globs,
            files: 0,
            unread: Vec::new(alloc),
            small: Vec::new(alloc),
            doubled: Vec::new(alloc),
            failed: true,
        }),
    }
}

/// What is seen of listed files, and of the globs that they are listed by.
fn see_listed<F: Folder, Y: System>(
    alloc: Global,
    folder: &mut F,
    system: &Y,
    inputs: &[InputRule],
    globs: Vec<GlobSeen>,
    listed: Vec<Listed>,
) -> Result<FilesSeen, Status>
    requires askable { AreAskable inputs.now }
    requires of_inputs { All (λ one. one.input < length inputs.now) listed.items }
    ensures seen { IfOk result (λ files. IfSome (F.told folder.old) (λ told.
        SeesListed (Y.told system.now) inputs.now told listed.items files (F.told folder.new))) }
    ensures globs { IfOk result (λ files. files.globs ≡ globs) }
    ensures shows { IfErr result (λ status. IfSome (F.told folder.old)
        (λ told. ShowsMarksEnd inputs.now told listed.items status (F.told folder.new))) }
    ensures ends { IfErr result IsMarksEnd }
    ensures failed_only_where_faults_rose { IfOk result (λ files. files.failed ≡ true →
        Rose (F.faults folder.old) (F.faults folder.new)) }
    ensures open_tails_kept { F.open_tails folder.old < 2 ^ 64 - 1 →
        F.open_tails folder.new ≡ F.open_tails folder.old }
    ensures faults_never_fall { F.faults folder.old ≤ F.faults folder.new }
{
    let unread = see_unread(alloc, system, &listed)?;
    let files = listed.len() as u64;
    let marks = marks_of(alloc, folder, inputs, listed)?;
    Ok(FilesSeen {
        globs,
        files,
        unread,
        small: marks.small,
        doubled: marks.doubled,
        failed: marks.failed,
    })
}

fn see_globs<Y: System>(
    alloc: Global,
    system: &Y,
    asked: Vec<GlobAsked>,
    listed: &Option<Vec<Listed>>,
) -> Result<Vec<GlobSeen>, NoMemory>
    ensures { IfOk result
        (λ seen. Each (SeesGlob (Y.told system.now) listed.now) asked.items seen.items) }
{
    let mut seen = Vec::new(alloc);
    for one in asked {
        seen.push(see_glob(alloc, system, one, listed)?)?;
    }
    Ok(seen)
}

fn see_glob<Y: System>(
    alloc: Global,
    system: &Y,
    asked: GlobAsked,
    listed: &Option<Vec<Listed>>,
) -> Result<GlobSeen, NoMemory>
    ensures { IfOk result (SeesGlob (Y.told system.now) listed.now asked) }
{
    let files = count_in(&asked, listed);
    let root = system.place(asked.glob.root());
    let spelled = system.place(&asked.text);
    let skipped = system.skipped(alloc, &asked.glob)?;
    Ok(GlobSeen {
        asked,
        files,
        root,
        spelled,
        skipped,
    })
}

fn count_in(asked: &GlobAsked, listed: &Option<Vec<Listed>>) -> Option<u64>
    ensures { IsCount asked.now listed.now result }
{
    match listed {
        Some(listed) => Some(count_of(asked, listed)),
        None => None,
    }
}

/// The files that cannot be opened for reading.
fn see_unread<Y: System>(
    alloc: Global,
    system: &Y,
    listed: &[Listed],
) -> Result<Vec<Unread>, NoMemory>
    ensures { IfOk result (λ unread. AreUnread (Y.told system.now) listed.now unread.items) }
{
    let mut unread = Vec::new(alloc);
    for one in listed {
        put_unread(alloc, &mut unread, system, one)?;
    }
    Ok(unread)
}

/// Puts the file, if it is there and cannot be opened.
fn put_unread<Y: System>(
    alloc: Global,
    unread: &mut Vec<Unread>,
    system: &Y,
    one: &Listed,
) -> Result<(), NoMemory>
    ensures { OnOk result (IfSome (Y.told system.now) (λ told.
        unread.new.items ≡ unread.old.items ++ unread_of told one.now)) }
{
    let Some(refusal) = system.refusal(alloc, &one.path)? else {
        return Ok(());
    };
    if is_there(system.place(&one.path)) {
        let path = one.path.copy(alloc)?;
        unread.push(Unread { path, refusal })?;
    }
    Ok(())
}

fn is_there(place: Place) -> bool
    ensures { result ≡ is_there place }
{
    match place {
        Place::Nothing => false,
        _ => true,
    }
}

/// Tries each host once.
pub(crate) fn see_hosts<H: Hosts>(
    alloc: Global,
    hosts: &mut H,
    named: &[Host],
) -> Result<Vec<Trial>, NoMemory>
    ensures { IfOk result
        (λ trials. TriesAll (H.tried hosts.old) named.now trials.items (H.tried hosts.new)) }
{
    let mut trials = Vec::new(alloc);
    for host in named {
        trials.push(try_one(alloc, hosts, host)?)?;
    }
    Ok(trials)
}

fn try_one<H: Hosts>(alloc: Global, hosts: &mut H, host: &Host) -> Result<Trial, NoMemory>
    ensures { IfOk result
        (λ trial. TriesAll (H.tried hosts.old) (host.now ∷ []) (trial ∷ []) (H.tried hosts.new)) }
{
    let copied = Host {
        name: host.name.copy(alloc)?,
        port: host.port,
    };
    let refusal = hosts.try_host(alloc, host)?;
    Ok(Trial {
        host: copied,
        refusal,
    })
}

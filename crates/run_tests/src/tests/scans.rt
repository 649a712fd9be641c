//! Scans of a folder whose files come and go between them.
ghost use Rattle.std.specs.Prelude.{IfOk};
ghost use Rattle.beat_config.specs.InRange.{AreInRange};

use crate::tests::harvesters::rules::text;
use beat_config::read_settings;
use event_tree::Settings;
use outside_mem::{Due, MemChange, MemFile, MemFolder, MemStep};
use prospect::Listed;
use run_steps::{Rescan, scan_again};
use std::alloc::Global;
use std::test::Fail;
use wire_base::{Blob, Moment};

/// Two roots, so each scan makes two listings.
const SETTINGS: &[u8] =
    b"[[inputs]]\nid = \"w\"\npaths = [\"/w/*\", \"/v/*\"]\nfile_identity = \"path\"\n[output]\nhosts = [\"h:5044\"]\n";

/// A path, after how many listings a file is there, and after how many it is gone, if it goes.
type File = (&'static str, u64, Option<u64>);

/// Between two scans one file comes and another one goes.
const FILES: [File; 4] = [
    ("/v/d", 0, None),
    ("/w/a", 0, None),
    ("/w/b", 0, Some(2)),
    ("/w/c", 2, None),
];

pub fn settings(alloc: Global) -> Result<Settings, Fail>
    ensures { IfOk result AreInRange }
{
    match read_settings(alloc, SETTINGS) {
        Ok(settings) => Ok(settings),
        Err(_) => Err(Fail::new("the settings have a fault")),
    }
}

fn steps(alloc: Global, file: File) -> Result<Vec<MemStep>, Fail> {
    let mut steps = Vec::new(alloc);
    steps.push(MemStep {
        due: Due::Listings(file.1),
        change: MemChange::Append(Blob::from_bytes(alloc, b"a\n")?),
    })?;
    if let Some(listings) = file.2 {
        steps.push(MemStep {
            due: Due::Listings(listings),
            change: MemChange::Remove,
        })?;
    }
    Ok(steps)
}

/// The folder of these files, of which the listings of these numbers fail.
fn folder(alloc: Global, failing: &[u64]) -> Result<MemFolder, Fail> {
    let mut files = Vec::new(alloc);
    for file in FILES {
        files.push(MemFile {
            path: text(alloc, file.0)?,
            native: None,
            steps: steps(alloc, file)?,
        })?;
    }
    let mut folder = MemFolder::new(alloc, files)?;
    folder.fail_at(failing)?;
    Ok(folder)
}

/// Adds a line: the moment, the paths of the files, and whether the scan was whole.
fn add_scan(alloc: Global, scan: &Rescan, written: &mut String) -> Result<(), Fail> {
    let moment = format!(in alloc; "{}:", scan.now.0)?;
    written.push_str(&moment)?;
    add_paths(&scan.listed, written)?;
    written.push_str(if scan.whole { " whole\n" } else { " partial\n" })?;
    Ok(())
}

fn add_paths(files: &[Listed], written: &mut String) -> Result<(), Fail> {
    for file in files {
        written.push_str(" ")?;
        written.push_str(file.path.as_str())?;
    }
    Ok(())
}

/// What two scans show of the folder whose listings of these numbers fail.
fn scans(alloc: Global, failing: &[u64]) -> Result<String, Fail> {
    let settings = settings(alloc)?;
    let mut folder = folder(alloc, failing)?;
    let mut written = String::new(alloc);
    for moment in [1_000, 11_000] {
        let scan = scan_again(alloc, &settings, Moment(moment), &mut folder)?;
        add_scan(alloc, &scan, &mut written)?;
    }
    Ok(written)
}

#[test]
fn scans_one_after_another(rt: HostRuntime) -> Result<(), Fail> {
    let rows: [(&[u64], &str); 3] = [
        (
            &[],
            "1000: /v/d /w/a /w/b whole\n11000: /v/d /w/a /w/c whole\n",
        ),
        (
            &[1],
            "1000: /w/a /w/b partial\n11000: /v/d /w/a /w/c whole\n",
        ),
        (&[2], "1000: /v/d /w/a /w/b whole\n11000: /v/d partial\n"),
    ];
    for (failing, wanted) in &rows {
        assert_eq!(rt; scans(rt.alloc(), failing)?.as_str(), *wanted);
    }
    Ok(())
}

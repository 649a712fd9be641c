ghost use Rattle.std.specs.Prelude.{◌≡◌, IfOk, None};
ghost use Rattle.glob_paths.specs.Fault.{fault_of};
ghost use Rattle.prospect.specs.AskedFiles.{AreAskable};
ghost use Rattle.prospect.specs.Members.{AreGlobs, HaveGlobs};

use crate::tests::identities::{LETTERS, LETTERS_KEY};
use crate::tests::parts::text;
use event_tree::{GroupRule, IdentityRule, InputRule, LineRule, ListOf, Terminator, Texts};
use glob_paths::Glob;
use outside_mem::{Due, MemChange, MemFile, MemFolder, MemStep};
use prospect::{Listed, ask_past_faults, list_past_faults};
use std::alloc::Global;
use std::test::Fail;
use wire_base::{Blob, Text};

/// The text, if it is a glob.
fn glob(alloc: Global, chars: &str) -> Result<Text, Fail>
    ensures { IfOk result (λ glob. fault_of glob ≡ None) }
{
    let glob = text(alloc, chars)?;
    Glob::read(alloc, &glob)?;
    Ok(glob)
}

/// The globs of these texts, which have no fault.
fn globs(alloc: Global, texts: &[&str]) -> Result<Texts, Fail>
    ensures { IfOk result AreGlobs }
{
    let mut globs = Vec::new(alloc);
    for chars in texts {
        globs.push(glob(alloc, chars)?)?;
    }
    Ok(ListOf::from_vec(globs))
}

/// An input of these globs, whose fingerprints are of 112 bytes.
fn input(alloc: Global, paths: Texts) -> Result<InputRule, Fail>
    ensures { IfOk result (λ input. input.paths ≡ paths) }
{
    Ok(InputRule {
        id: text(alloc, "w")?,
        paths,
        file_identity: IdentityRule::Path,
        check_interval: 10_000,
        clean_removed: true,
        close_inactive: 300_000,
        ignore_older: 0,
        clean_inactive: 0,
        lines: LineRule {
            terminator: Terminator::Auto,
            message_max_bytes: 10_485_760,
        },
        include_lines: ListOf::from_vec(Vec::new(alloc)),
        exclude_lines: ListOf::from_vec(Vec::new(alloc)),
        multiline: GroupRule::Single {
            message_max_bytes: 10_485_760,
        },
    })
}

/// Two globs, whose roots are listed one by one.
fn inputs(alloc: Global) -> Result<Vec<InputRule>, Fail>
    ensures globs { IfOk result (λ inputs. HaveGlobs inputs.items) }
    ensures askable { IfOk result (λ inputs. AreAskable inputs.items) }
{
    let mut rule = input(alloc, globs(alloc, &["/w/*", "/v/*"])?)?;
    rule.file_identity = IdentityRule::Fingerprint {
        offset: 0,
        length: 112,
    };
    let mut inputs = Vec::new(alloc);
    inputs.push(rule)?;
    Ok(inputs)
}

/// A folder of one file, of which the calls of these numbers fail.
fn folder(alloc: Global, failing: &[u64]) -> Result<MemFolder, Fail> {
    let mut steps = Vec::new(alloc);
    steps.push(MemStep {
        due: Due::Listings(0),
        change: MemChange::Append(Blob::from_bytes(alloc, LETTERS.as_bytes())?),
    })?;
    let mut files = Vec::new(alloc);
    files.push(MemFile {
        path: text(alloc, "/w/a.log")?,
        native: None,
        steps,
    })?;
    let mut folder = MemFolder::new(alloc, files)?;
    folder.fail_at(failing)?;
    Ok(folder)
}

/// What a scan that goes on past faults finds: the keys of files, the roots whose listings failed, and the paths that
/// could not be asked, a line each.
fn found(alloc: Global, failing: &[u64]) -> Result<String, Fail> {
    let inputs = inputs(alloc)?;
    let mut folder = folder(alloc, failing)?;
    let listings = list_past_faults(alloc, &mut folder, &inputs)?;
    let mut said = String::new(alloc);
    for root in &listings.failed {
        line(&mut said, "unlisted", root)?;
    }
    let askings = ask_past_faults(alloc, &mut folder, &inputs, listings.files?)?;
    for file in &askings.keyed.files {
        key(&mut said, file)?;
    }
    for file in &askings.failed {
        line(&mut said, "unasked", &file.path)?;
    }
    Ok(said)
}

fn line(said: &mut String, what: &str, text: &Text) -> Result<(), Fail> {
    for part in [what, " ", text.as_str(), "\n"] {
        said.push_str(part)?;
    }
    Ok(())
}

fn key(said: &mut String, file: &Listed) -> Result<(), Fail> {
    match &file.key {
        Some(key) => line(said, "file", key),
        None => line(said, "keyless", &file.path),
    }
}

/// Calls of the folder are counted from 0: the two listings, and then the opening.
#[test]
fn scans_go_on_past_faults(rt: HostRuntime) -> Result<(), Fail> {
    let file = format!(in rt.alloc(); "file {LETTERS_KEY}\n")?;
    let with_fault = format!(in rt.alloc(); "unlisted /v\n{}", file.as_str())?;
    let rows: [(&[u64], &str); 4] = [
        (&[], file.as_str()),
        (&[1], with_fault.as_str()),
        (&[0], "unlisted /w\n"),
        (&[2], "unasked /w/a.log\n"),
    ];
    for (failing, wanted) in &rows {
        assert_eq!(rt; found(rt.alloc(), failing)?.as_str(), *wanted);
    }
    Ok(())
}

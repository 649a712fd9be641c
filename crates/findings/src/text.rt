ghost use Rattle.std.specs.Prelude.{◌≡◌, IfOk, string_bytes};
ghost use Rattle.findings.specs.Texts.{files_text, finding_line, glob_line, host_text, identity_text, note_text, quoted, reason_line};

use crate::finding::{Finding, Note};
use crate::seen::GlobSeen;
use event_tree::IdentityRule;
use serde_json::Value;
use std::alloc::Global;
use wire_base::{Host, NoMemory, Text};

/// The host as settings spell it.
pub(crate) fn host_text(alloc: Global, host: &Host) -> Result<Text, NoMemory>
    ensures { IfOk result (λ text. text ≡ host_text host.now) }
{
    let name = host.name.as_str();
    let port = host.port;
    Ok(Text::from_string(format!(in alloc; "{name}:{port}")?))
}

/// The name as a JSON text.
fn quoted(alloc: Global, name: &Text) -> Result<String, NoMemory>
    ensures { IfOk result (λ text. string_bytes text ≡ quoted name.now) }
{
    let value = Value::String(String::from_str(alloc, name.as_str())?);
    Ok(value.to_string(alloc)?)
}

fn note_text(alloc: Global, note: &Note) -> Result<String, NoMemory>
    ensures { IfOk result (λ text. string_bytes text ≡ note_text note.now) }
{
    match note {
        Note::Nothing => Ok(String::new(alloc)),
        Note::Bytes { size, wanted } => Ok(format!(in alloc; ": {size} of {wanted} bytes")?),
        Note::Reason(words) => {
            let words = words.as_str();
            Ok(format!(in alloc; ": {words}")?)
        }
        Note::Files { found, limit } => files_note(alloc, *found, *limit),
    }
}

fn files_note(alloc: Global, found: u64, limit: u64) -> Result<String, NoMemory>
    ensures { IfOk result (λ text. string_bytes text ≡ note_text (Note.Files found limit)) }
{
    Ok(format!(in alloc; ": {found} files, limit {limit}")?)
}

pub(crate) fn finding_line(alloc: Global, finding: &Finding) -> Result<String, NoMemory>
    ensures { IfOk result (λ text. string_bytes text ≡ finding_line finding.now) }
{
    let name = quoted(alloc, &finding.name)?;
    let note = note_text(alloc, &finding.note)?;
    Ok(format!(in alloc; "  {name}{note}\n")?)
}

/// Why the name is a fault.
pub(crate) fn reason_line(alloc: Global, finding: &Finding) -> Result<String, NoMemory>
    ensures { IfOk result (λ text. string_bytes text ≡ reason_line finding.now) }
{
    let name = quoted(alloc, &finding.name)?;
    let note = note_text(alloc, &finding.note)?;
    Ok(format!(in alloc; "{name}{note}\n")?)
}

fn identity_text(alloc: Global, identity: IdentityRule) -> Result<String, NoMemory>
    ensures { IfOk result (λ text. string_bytes text ≡ identity_text identity) }
{
    match identity {
        IdentityRule::Fingerprint { offset, length } => {
            Ok(format!(in alloc; "fingerprint of {length} bytes from {offset}")?)
        }
        IdentityRule::Native => Ok(String::from_str(alloc, "native")?),
        IdentityRule::Path => Ok(String::from_str(alloc, "path")?),
    }
}

fn files_text(alloc: Global, files: Option<u64>) -> Result<String, NoMemory>
    ensures { IfOk result (λ text. string_bytes text ≡ files_text files) }
{
    match files {
        Some(files) => Ok(format!(in alloc; "{files} files")?),
        None => Ok(String::from_str(alloc, "not counted")?),
    }
}

pub(crate) fn glob_line(alloc: Global, one: &GlobSeen) -> Result<String, NoMemory>
    ensures { IfOk result (λ text. string_bytes text ≡ glob_line one.now) }
{
    let id = one.asked.id.as_str();
    let identity = identity_text(alloc, one.asked.identity)?;
    let files = files_text(alloc, one.files)?;
    let glob = quoted(alloc, &one.asked.text)?;
    Ok(format!(in alloc; "input {id}, {identity}: {files} {glob}\n")?)
}

ghost use Rattle.std.specs.Prelude.{◌≡◌, ◌++◌, ◌-◌, IfOk, OnOk, filter, length, map, take};
ghost use Rattle.std.specs.List.{flat_map, list_any};
ghost use Rattle.findings.specs.Page.{ending_of, head_line, is_kind, more_text, of_kind, page_of, reason_lines, reasons_of, section, section_text};
ghost use Rattle.findings.specs.Texts.{finding_line, glob_line, reason_line};

use crate::ending::Ending;
use crate::finding::Finding;
use crate::kind::Kind;
use crate::seen::GlobSeen;
use crate::text::{finding_line, glob_line, reason_line};
use std::alloc::Global;
use wire_base::NoMemory;

/// So many names of each kind are shown at most.
pub const SHOWN: usize = 20;

/// What is printed of the globs and the findings.
pub(crate) fn page_of(
    alloc: Global,
    globs: &[GlobSeen],
    found: &[Finding],
) -> Result<Vec<u8>, NoMemory>
    ensures { IfOk result (λ page. page.items ≡ page_of globs.now found.now) }
{
    let mut page = Vec::new(alloc);
    put_globs(alloc, &mut page, globs)?;
    put_sections(
        alloc,
        &mut page,
        found,
        &[
            Kind::Unreadable,
            Kind::Small,
            Kind::Doubled,
            Kind::Link,
            Kind::NoText,
            Kind::Rootless,
            Kind::Fruitless,
            Kind::Foreign,
            Kind::Rotated,
            Kind::Idle,
            Kind::ManyFiles,
            Kind::Unwritable,
            Kind::Connected,
            Kind::Unconnected,
        ],
    )?;
    Ok(page)
}

/// Why the check ends as it does.
pub(crate) fn reasons_of(alloc: Global, found: &[Finding]) -> Result<Vec<u8>, NoMemory>
    ensures { IfOk result (λ page. page.items ≡ reasons_of found.now) }
{
    let mut page = Vec::new(alloc);
    put_reasons(alloc, &mut page, &of_kind(alloc, Kind::Unreadable, found)?)?;
    put_reasons(alloc, &mut page, &of_kind(alloc, Kind::Unconnected, found)?)?;
    Ok(page)
}

fn put_globs(alloc: Global, page: &mut Vec<u8>, globs: &[GlobSeen]) -> Result<(), NoMemory>
    ensures { OnOk result (page.new.items ≡ page.old.items ++ flat_map glob_line globs.now) }
{
    for one in globs {
        let line = glob_line(alloc, one)?;
        page.extend_from_slice(line.as_bytes())?;
    }
    Ok(())
}

fn put_sections(
    alloc: Global,
    page: &mut Vec<u8>,
    found: &[Finding],
    kinds: &[Kind],
) -> Result<(), NoMemory>
    ensures { OnOk result
        (page.new.items ≡ page.old.items ++ flat_map (section found.now) kinds.now) }
{
    for kind in kinds {
        put_section(alloc, page, *kind, &of_kind(alloc, *kind, found)?)?;
    }
    Ok(())
}

/// Those of this kind, in the order in which they were found.
fn of_kind<'a>(
    alloc: Global,
    kind: Kind,
    found: &'a [Finding],
) -> Result<Vec<&'a Finding>, NoMemory>
    ensures { IfOk result (λ of. map (λ one. one.now) of.items ≡ of_kind kind found.now) }
{
    let mut of = Vec::new(alloc);
    for one in found {
        if is_kind(kind, one) {
            of.push(one)?;
        }
    }
    Ok(of)
}

pub(crate) fn is_kind(kind: Kind, finding: &Finding) -> bool
    ensures { result ≡ is_kind kind finding.now }
{
    finding.kind.number() == kind.number()
}

fn put_section(
    alloc: Global,
    page: &mut Vec<u8>,
    kind: Kind,
    of: &[&Finding],
) -> Result<(), NoMemory>
    ensures { OnOk result (page.new.items
        ≡ page.old.items ++ section_text kind (map (λ one. one.now) of.now)) }
{
    if of.is_empty() {
        return Ok(());
    }
    put_head(alloc, page, kind, of.len())?;
    put_lines(alloc, page, shown(of))?;
    put_more(alloc, page, of.len())?;
    Ok(())
}

fn put_head(alloc: Global, page: &mut Vec<u8>, kind: Kind, count: usize) -> Result<(), NoMemory>
    ensures { OnOk result (page.new.items ≡ page.old.items ++ head_line kind count) }
{
    let text = kind.text();
    let line = format!(in alloc; "{text}: {count}\n")?;
    page.extend_from_slice(line.as_bytes())?;
    Ok(())
}

fn put_lines(alloc: Global, page: &mut Vec<u8>, of: &[&Finding]) -> Result<(), NoMemory>
    ensures { OnOk result (page.new.items
        ≡ page.old.items ++ flat_map finding_line (map (λ one. one.now) of.now)) }
{
    for one in of {
        let line = finding_line(alloc, one)?;
        page.extend_from_slice(line.as_bytes())?;
    }
    Ok(())
}

/// Puts how many more there are than are shown.
fn put_more(alloc: Global, page: &mut Vec<u8>, count: usize) -> Result<(), NoMemory>
    ensures { OnOk result (page.new.items ≡ page.old.items ++ more_text count) }
{
    if SHOWN < count {
        let more = count - SHOWN;
        let line = format!(in alloc; "  and {more} more\n")?;
        page.extend_from_slice(line.as_bytes())?;
    }
    Ok(())
}

fn put_reasons(alloc: Global, page: &mut Vec<u8>, of: &[&Finding]) -> Result<(), NoMemory>
    ensures { OnOk result (page.new.items
        ≡ page.old.items ++ reason_lines (map (λ one. one.now) of.now)) }
{
    put_reason_lines(alloc, page, shown(of))?;
    put_more(alloc, page, of.len())?;
    Ok(())
}

fn put_reason_lines(alloc: Global, page: &mut Vec<u8>, of: &[&Finding]) -> Result<(), NoMemory>
    ensures { OnOk result (page.new.items
        ≡ page.old.items ++ flat_map reason_line (map (λ one. one.now) of.now)) }
{
    for one in of {
        let line = reason_line(alloc, one)?;
        page.extend_from_slice(line.as_bytes())?;
    }
    Ok(())
}

/// Those that are shown by name.
fn shown<'a, 'b>(of: &'a [&'b Finding]) -> &'a [&'b Finding]
    ensures { map (λ one. one.now) result.now ≡ take SHOWN (map (λ one. one.now) of.now) }
{
    &of[..SHOWN.min(of.len())]
}

/// How the check ends; `failed` if a folder could not be listed or a file not be read.
pub(crate) fn ending_of(failed: bool, found: &[Finding]) -> Ending
    ensures { result ≡ ending_of failed found.now }
{
    let unreadable = has_kind(Kind::Unreadable, found);
    let unconnected = has_kind(Kind::Unconnected, found);
    if failed || unreadable {
        Ending::Unreadable
    } else if unconnected {
        Ending::Unreachable
    } else {
        Ending::Well
    }
}

fn has_kind(kind: Kind, found: &[Finding]) -> bool
    ensures { result ≡ list_any (is_kind kind) found.now }
{
    found.iter().any(|one| is_kind(kind, one))
}

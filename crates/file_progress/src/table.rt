ghost use Rattle.std.specs.Prelude.{◌≡◌, ◌++◌, IfOk, OnOk, flat_map, map};
ghost use Rattle.file_progress.specs.Table.{AreLined, IsTable, age_text, behind_text, compare_behind, continues_character, count_text, counts_line, from_character, generation_text, line_of, numbers_text, path_text, registry_line, shown_byte};

use crate::overview::Overview;
use crate::part::Part::{Left, Number, Plain, Right};
use crate::part::put_parts;
use crate::totals::{behind_in, behind_of, count_in};
use crate::{Progress, State};
use std::alloc::Global;
use std::cmp::Ordering;
use wire_base::{Moment, NoMemory, Text};

/// So many columns a line has, as far as its numbers leave room.
const COLUMNS: usize = 100;

/// The table of a look: the files with the most unread bytes first.
pub(crate) fn table_text(alloc: Global, overview: Overview) -> Result<Vec<u8>, NoMemory>
    ensures { IfOk result (λ text. IsTable overview text.items) }
{
    let mut totals = Vec::new(alloc);
    put_counts(&mut totals, &overview.files)?;
    put_registry(&mut totals, &overview)?;
    let lined = lined(overview.files)?;
    let mut page = Vec::new(alloc);
    page.extend_from_slice(b"      BEHIND         SIZE       OFFSET EPOCH STATE   PATH\n")?;
    put_lines(alloc, &mut page, &lined)?;
    page.extend_from_slice(&totals)?;
    Ok(page)
}

/// The files in the order of their lines.
fn lined(files: Vec<Progress>) -> Result<Vec<Progress>, NoMemory>
    ensures { IfOk result (λ lined. AreLined files.items lined.items) }
{
    let mut lined = files;
    lined.sort_by(|one, other| compare_behind(one, other))?;
    Ok(lined)
}

fn put_lines(alloc: Global, page: &mut Vec<u8>, lined: &[Progress]) -> Result<(), NoMemory>
    ensures { OnOk result (page.new.items ≡ page.old.items ++ flat_map line_of lined.now) }
{
    for one in lined {
        put_line(alloc, page, one)?;
    }
    Ok(())
}

/// Most unread bytes first.
fn compare_behind(one: &Progress, other: &Progress) -> Ordering
    ensures { result ≡ compare_behind one.now other.now }
{
    behind_of(other).cmp(&behind_of(one))
}

fn put_line(alloc: Global, page: &mut Vec<u8>, one: &Progress) -> Result<(), NoMemory>
    ensures { OnOk result (page.new.items ≡ page.old.items ++ line_of one.now) }
{
    let numbers = numbers_text(alloc, one)?;
    page.extend_from_slice(&numbers)?;
    put_path(page, COLUMNS.saturating_sub(numbers.len()), &one.path)?;
    page.push(b'\n')?;
    Ok(())
}

fn numbers_text(alloc: Global, one: &Progress) -> Result<Vec<u8>, NoMemory>
    ensures { IfOk result (λ text. text.items ≡ numbers_text one.now) }
{
    let mut text = Vec::new(alloc);
    put_parts(
        &mut text,
        &[
            Right {
                number: one.behind,
                columns: 12,
            },
            Plain(b" "),
            Right {
                number: one.size,
                columns: 12,
            },
            Plain(b" "),
            Right {
                number: Some(one.offset),
                columns: 12,
            },
            Plain(b" "),
            Right {
                number: Some(u64::from(one.epoch)),
                columns: 5,
            },
            Plain(b" "),
            Left {
                name: one.state.name().as_bytes(),
                columns: 7,
            },
            Plain(b" "),
        ],
    )?;
    Ok(text)
}

/// Puts a path into so many columns.
fn put_path(page: &mut Vec<u8>, columns: usize, path: &Text) -> Result<(), NoMemory>
    ensures { OnOk result (page.new.items ≡ page.old.items ++ path_text columns path.now) }
{
    let bytes = path.bytes();
    if bytes.len() <= columns {
        return put_shown(page, bytes);
    }
    page.extend_from_slice(b"..")?;
    let cut = bytes.len() - columns.saturating_sub(2);
    put_shown(page, from_character(&bytes[cut..]))
}

/// Without the bytes in front that continue a character.
fn from_character(bytes: &[u8]) -> &[u8]
    ensures { result.now ≡ from_character bytes.now }
{
    let mut left = bytes;
    'front: while let [first, rest @ ..] = left {
        if !continues_character(*first) {
            break;
        }
        left = rest;
    }
    left
}

fn continues_character(byte: u8) -> bool
    ensures { result ≡ continues_character byte }
{
    128 <= byte && byte < 192
}

fn put_shown(page: &mut Vec<u8>, bytes: &[u8]) -> Result<(), NoMemory>
    ensures { OnOk result (page.new.items ≡ page.old.items ++ map shown_byte bytes.now) }
{
    for byte in bytes {
        page.push(shown_byte(*byte))?;
    }
    Ok(())
}

/// Control characters are shown as `?`.
fn shown_byte(byte: u8) -> u8
    ensures { result ≡ shown_byte byte }
{
    if byte < 32 || byte == 127 { b'?' } else { byte }
}

fn put_counts(page: &mut Vec<u8>, files: &[Progress]) -> Result<(), NoMemory>
    ensures { OnOk result (page.new.items ≡ page.old.items ++ counts_line files.now) }
{
    put_behind(page, files)?;
    put_count(page, files, State::Present)?;
    put_count(page, files, State::Shorter)?;
    put_count(page, files, State::Gone)?;
    put_count(page, files, State::New)?;
    put_count(page, files, State::Doubled)?;
    put_count(page, files, State::Small)?;
    page.push(b'\n')?;
    Ok(())
}

fn put_behind(page: &mut Vec<u8>, files: &[Progress]) -> Result<(), NoMemory>
    ensures { OnOk result (page.new.items ≡ page.old.items ++ behind_text files.now) }
{
    put_parts(page, &[Number(behind_in(files)), Plain(b" bytes behind")])
}

fn put_count(page: &mut Vec<u8>, files: &[Progress], state: State) -> Result<(), NoMemory>
    ensures { OnOk result (page.new.items ≡ page.old.items ++ count_text files.now state) }
{
    put_parts(
        page,
        &[
            Plain(b", "),
            Number(count_in(files, state)),
            Plain(b" "),
            Plain(state.name().as_bytes()),
        ],
    )
}

fn put_registry(page: &mut Vec<u8>, overview: &Overview) -> Result<(), NoMemory>
    ensures { OnOk result (page.new.items ≡ page.old.items ++ registry_line overview.now) }
{
    put_generation(page, overview.generation)?;
    put_age(page, overview.moment, overview.committed)
}

fn put_generation(page: &mut Vec<u8>, generation: Option<u64>) -> Result<(), NoMemory>
    ensures { OnOk result (page.new.items ≡ page.old.items ++ generation_text generation) }
{
    match generation {
        None => put_parts(page, &[Plain(b"no registry yet")]),
        Some(generation) => put_parts(
            page,
            &[Plain(b"registry of generation "), Number(generation)],
        ),
    }
}

/// The age of the last writing, in whole seconds.
fn put_age(page: &mut Vec<u8>, now: Moment, committed: Option<Moment>) -> Result<(), NoMemory>
    ensures { OnOk result (page.new.items ≡ page.old.items ++ age_text now.0 committed) }
{
    match committed {
        None => put_parts(page, &[Plain(b"\n")]),
        Some(moment) => put_parts(
            page,
            &[
                Plain(b", written "),
                Number(now.0.saturating_sub(moment.0) / 1_000),
                Plain(b" seconds ago\n"),
            ],
        ),
    }
}

ghost use Rattle.std.specs.Prelude.{◌≡◌, ◌++◌, ◌<◌, ℕ, List, IfOk, OnOk, flat_map, length, map, nat_lt, if◌then◌else◌};
ghost use Rattle.std.specs.BTreeMap.{get};
ghost use Rattle.std.specs.Option.{option_copied};
ghost use Rattle.file_progress.specs.Progress.{as_doubled, as_new, as_small, behind_at, has_row, of_row, progress_of, state_at, without_row};
ghost use Rattle.wire_base.specs.KeyOrder.{compare};

use crate::by_key::by_key;
use crate::scan::Scan;
use crate::{Progress, State};
use prospect::Listed;
use ship_core::Rows;
use std::alloc::Global;
use std::collections::BTreeMap;
use wire_base::{NoMemory, Row, Text};

/// How far each file is: the rows in their order, then the files without one.
pub(crate) fn join(alloc: Global, rows: &Rows, scan: Scan) -> Result<Vec<Progress>, NoMemory>
    ensures { IfOk result (λ told. told.items ≡ progress_of rows.now scan) }
{
    let Scan {
        files,
        doubled,
        small,
    } = scan;
    let mut others = Vec::new(alloc);
    put_new(alloc, &mut others, rows, &files)?;
    put_doubled(alloc, &mut others, &doubled)?;
    put_small(alloc, &mut others, &small)?;
    let mut told = of_rows(alloc, rows, &by_key(alloc, files)?)?;
    told.append(&mut others)?;
    Ok(told)
}

/// Each row, with the file of its key.
fn of_rows(
    alloc: Global,
    rows: &Rows,
    found: &BTreeMap<Text, Listed>,
) -> Result<Vec<Progress>, NoMemory>
    ensures { IfOk result (λ told. told.items
        ≡ map (λ row. of_row row (get compare found.now row.key)) rows.now) }
{
    let mut told = Vec::new(alloc);
    for i in 0..rows.len() {
        let row = rows.at(i);
        told.push(of_row(alloc, row, found.get(&row.key))?)?;
    }
    Ok(told)
}

fn of_row(alloc: Global, row: &Row, found: Option<&Listed>) -> Result<Progress, NoMemory>
    ensures { IfOk result (λ one. one ≡ of_row row.now (option_copied found.entry)) }
{
    let key = Some(row.key.copy(alloc)?);
    let epoch = row.epoch.0;
    let offset = row.offset;
    match found {
        None => Ok(Progress {
            state: State::Gone,
            path: row.path.copy(alloc)?,
            key,
            epoch,
            offset,
            size: None,
            behind: None,
        }),
        Some(file) => Ok(Progress {
            state: state_at(offset, file.size),
            path: file.path.copy(alloc)?,
            key,
            epoch,
            offset,
            size: Some(file.size),
            behind: Some(behind_at(offset, file.size)),
        }),
    }
}

fn state_at(offset: u64, size: u64) -> State
    ensures { result ≡ state_at offset size }
{
    if size < offset {
        State::Shorter
    } else {
        State::Present
    }
}

/// The bytes past the offset; all of a file that is shorter than it.
fn behind_at(offset: u64, size: u64) -> u64
    ensures { result ≡ behind_at offset size }
{
    let is_shorter = size < offset;
    if is_shorter { size } else { size - offset }
}

/// Adds each file whose key no row has.
fn put_new(
    alloc: Global,
    told: &mut Vec<Progress>,
    rows: &Rows,
    files: &[Listed],
) -> Result<(), NoMemory>
    ensures { OnOk result
        (told.new.items ≡ told.old.items ++ flat_map (as_new rows.now) files.now) }
{
    for one in files {
        if !has_row(rows, &one.key) {
            told.push(without_row(alloc, State::New, one, Some(one.size))?)?;
        }
    }
    Ok(())
}

fn has_row(rows: &Rows, key: &Option<Text>) -> bool
    ensures { result ≡ has_row rows.now key.now }
{
    match key {
        Some(key) => rows.get(key.bytes()).is_some(),
        None => false,
    }
}

fn put_doubled(alloc: Global, told: &mut Vec<Progress>, doubled: &[Listed]) -> Result<(), NoMemory>
    ensures { OnOk result (told.new.items ≡ told.old.items ++ map as_doubled doubled.now) }
{
    for one in doubled {
        told.push(without_row(alloc, State::Doubled, one, None)?)?;
    }
    Ok(())
}

fn put_small(alloc: Global, told: &mut Vec<Progress>, small: &[Listed]) -> Result<(), NoMemory>
    ensures { OnOk result (told.new.items ≡ told.old.items ++ map as_small small.now) }
{
    for one in small {
        told.push(without_row(alloc, State::Small, one, Some(one.size))?)?;
    }
    Ok(())
}

fn without_row(
    alloc: Global,
    state: State,
    one: &Listed,
    behind: Option<u64>,
) -> Result<Progress, NoMemory>
    ensures { IfOk result (λ told. told ≡ without_row state one.now behind) }
{
    let key = match &one.key {
        Some(key) => Some(key.copy(alloc)?),
        None => None,
    };
    Ok(Progress {
        state,
        path: one.path.copy(alloc)?,
        key,
        epoch: 0,
        offset: 0,
        size: Some(one.size),
        behind,
    })
}

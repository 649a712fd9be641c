ghost use Rattle.std.specs.Prelude.{◌≡◌, ◌++◌, IfOk, OnOk};
ghost use Rattle.prospector_core.specs.Changes.{cleans, known_changes, path_changes, size_changes};
ghost use Rattle.prospector_core.specs.Marks.{first_mark, marked_changes, next_mark, other_path};

use crate::marks::{Mark, Watched};
use crate::{Change, Known, Seen};
use std::alloc::Global;
use wire_base::{NoMemory, Text};

/// Reports what a member with the file's key says of it.
pub fn tell_known(
    alloc: Global,
    watched: &mut Watched,
    clean: &[bool],
    member: &Seen,
    changes: &mut Vec<Change>,
) -> Result<(), NoMemory>
    ensures file_kept { watched.new.file ≡ watched.old.file }
    ensures stays { watched.new.gone ≡ watched.old.gone }
    ensures marked { OnOk result (watched.new.mark ≡ next_mark clean.now watched.old.file member.now watched.old.mark) }
    ensures told { OnOk result (changes.new.items ≡ changes.old.items ++ marked_changes clean.now watched.old.file member.now watched.old.mark) }
{
    match &watched.mark {
        Mark::Unseen => {
            watched.mark = tell_first(alloc, &watched.file, clean, member, changes)?;
        }
        Mark::Held | Mark::Shown { .. } => {
            let path = member.path.copy(alloc)?;
            changes.push(Change::Doubled { path })?;
        }
    }
    Ok(())
}

/// Reports what the first member with the file's key says of it, and marks the file.
fn tell_first(
    alloc: Global,
    file: &Known,
    clean: &[bool],
    member: &Seen,
    changes: &mut Vec<Change>,
) -> Result<Mark, NoMemory>
    ensures marked { IfOk result (λ mark. mark ≡ first_mark clean.now file.now member.now) }
    ensures told { OnOk result (changes.new.items ≡ changes.old.items ++ known_changes clean.now file.now member.now) }
{
    if !file.present && cleans(clean, file.input) {
        return Ok(Mark::Held);
    }
    let path = other_path(alloc, file, member)?;
    if file.present {
        tell_path(alloc, file, member, changes)?;
        tell_size(file, member, changes)?;
    } else {
        changes.push(Change::Returned {
            slot: file.slot,
            path: member.path.copy(alloc)?,
            size: member.size,
        })?;
    }
    Ok(Mark::Shown {
        size: member.size,
        path,
    })
}

fn tell_path(
    alloc: Global,
    file: &Known,
    member: &Seen,
    changes: &mut Vec<Change>,
) -> Result<(), NoMemory>
    ensures { OnOk result (changes.new.items ≡ changes.old.items ++ path_changes file.now member.now) }
{
    if file.path == member.path {
        return Ok(());
    }
    changes.push(Change::Renamed {
        slot: file.slot,
        from: file.path.copy(alloc)?,
        to: member.path.copy(alloc)?,
    })?;
    Ok(())
}

fn tell_size(file: &Known, member: &Seen, changes: &mut Vec<Change>) -> Result<(), NoMemory>
    ensures { OnOk result (changes.new.items ≡ changes.old.items ++ size_changes file.now member.now) }
{
    let slot = file.slot;
    let size = member.size;
    if file.size < size {
        changes.push(Change::Written { slot, size })?;
    } else if size < file.size {
        changes.push(Change::Truncated { slot, size })?;
    }
    Ok(())
}

/// The member's path if it is another.
fn other_path(alloc: Global, file: &Known, member: &Seen) -> Result<Option<Text>, NoMemory>
    ensures { IfOk result (λ path. path ≡ other_path file.now member.now) }
{
    if file.path == member.path {
        return Ok(None);
    }
    Ok(Some(member.path.copy(alloc)?))
}

/// Whether removed files of the input are to be forgotten.
fn cleans(clean: &[bool], input: u32) -> bool
    ensures { result ≡ cleans clean.now input }
{
    clean.get(input as usize).copied().unwrap_or(false)
}

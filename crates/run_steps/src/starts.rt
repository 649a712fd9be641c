ghost use Rattle.std.specs.Prelude.{◌≡◌, ◌+◌, ◌<◌, ◌≤◌, if◌then◌else◌, is_none, IfErr, IfOk, IfSome, IsNone, None, OnOk, length};
ghost use Rattle.std.specs.Option.{option_copied};
ghost use Rattle.prospect.specs.Doubled.{AreKeysApart};
ghost use Rattle.restart_join.specs.Joining.{full_for};
ghost use Rattle.restart_join.specs.Starts.{start_of};
ghost use Rattle.wire_base.specs.Ranges.{IsRow};
ghost use Rattle.run_steps.specs.BeginFor.{row_of};
ghost use Rattle.run_steps.specs.Starting.{AreFewFiles, HaveRoomBefore, IsTooManyAt, RefusesStarts, starts_among};

use prospect::Listed;
use restart_join::{JoinError, Start, start_of};
use ship_core::Rows;
use std::alloc::Global;
use wire_base::{Row, Text};

/// Where each listed file starts (Filebeat reference, filestream input and its registry): at the epoch and offset of its key's row if
/// it is at least as long, at the next epoch and 0 if it is shorter, and without a row at epoch 0 and 0.
///
/// `TooMany` names which count is at its limit, and the path of the first file that needs one more: files, with all rows; or
/// epochs, if a file is shorter than its row's offset. The files have different keys, so they are no more than are counted.
pub fn starts_of(alloc: Global, rows: &Rows, listed: &[Listed]) -> Result<Vec<Start>, JoinError>
    requires few_rows { length rows.now ≤ 65_536 }
    requires apart { AreKeysApart listed.now }
    ensures starts { IfOk result (λ starts. starts.items ≡ starts_among rows.now listed.now) }
    ensures few { OnOk result (AreFewFiles rows.now listed.now) }
    ensures few_listed { OnOk result (length listed.now ≤ 65_536) }
    ensures room { OnOk result (HaveRoomBefore rows.now listed.now (length listed.now)) }
    ensures refused { IfErr result (RefusesStarts rows.now listed.now) }
{
    let mut starts = Vec::with_capacity(alloc, listed.len())?;
    let mut files = rows.len();
    let mut place = 0;
    'files: while place < listed.len() {
        let one = &listed[place];
        let row = row_of(rows, &one.key);
        let start = start_at(alloc, row, one, files, place)?;
        starts.push(start)?;
        files = files_with(files, row);
        place += 1;
    }
    Ok(starts)
}

/// The row of the file's key.
pub(crate) fn row_of<'a>(rows: &'a Rows, key: &Option<Text>) -> Option<&'a Row>
    ensures found { option_copied result ≡ row_of rows.now key.now }
    ensures in_range { IfSome result (λ row. IsRow row.now) }
{
    match key {
        Some(key) => rows.get(key.bytes()),
        None => None,
    }
}

/// How many files count with one of this row; one without counts besides.
fn files_with(files: usize, row: Option<&Row>) -> usize
    requires few { files ≤ 65_536 }
    ensures { result ≡ files + (if is_none (option_copied row.entry) then 1 else 0) }
{
    match row {
        Some(_) => files,
        None => files + 1,
    }
}

/// Where the file of this row starts, if this many files count before it.
fn start_at(
    alloc: Global,
    row: Option<&Row>,
    listed: &Listed,
    files: usize,
    place: usize,
) -> Result<Start, JoinError>
    requires few_listed { place ≤ 65_536 }
    ensures started { IfOk result (λ start.
        start ≡ start_of listed.now.size (option_copied row.entry)) }
    ensures room { OnOk result
        (full_for files place listed.now.size (option_copied row.entry) ≡ None) }
    ensures few { OnOk result (IsNone row.entry → files < 65_536) }
    ensures refused { IfErr result (IsTooManyAt files place listed.now (option_copied row.entry)) }
{
    match start_of(row, listed.size, files, place as u32) {
        Ok(start) => Ok(start),
        Err(what) => {
            let path = listed.path.copy(alloc)?;
            Err(JoinError::TooMany { what, path })
        }
    }
}

ghost use Rattle.std.specs.Prelude.{◌≡◌, ◌⊎◌, ◌<◌, ◌≤◌, ◌∷◌, [], IfOk, OnErr, OnOk, length};
ghost use Rattle.accounts.specs.Hidden.{hidden_begin, hidden_forget};
ghost use Rattle.file_rows.specs.Removed.{HasListedKeys, SomeMayGo};
ghost use Rattle.keeper.specs.FewKeys.{HasRoomFor};
ghost use Rattle.ship_core.specs.Rows.{IsInOrder};
ghost use Rattle.wire_base.specs.Ranges.{IsRow};
ghost use Rattle.run_steps.specs.HiddenRows.{BeginsOrNothing, HidesBegun, IsGoingRow, KnowsItsKeys, RowAt, TellsHidden, TellsOrLeaves, TellsSomeHidden, going_by};
ghost use Rattle.run_steps.specs.Telling.{TellsNotes};

use crate::begin_error::BeginError;
use crate::beginning::{BegunFiles, Scanned};
use crate::context::Context;
use crate::telling::tell;
use event_tree::InputRule;
use file_rows::{goes, listed_keys, some_may_go};
use keeper::Keeper;
use prospect::Listed;
use ship_core::Rows;
use std::alloc::Global;
use std::collections::BTreeSet;
use wire_base::{NoMemory, Note, Row, Slot, Text};

/// Tells the keeper of the rows of removed files (Filebeat reference, filestream input, `clean_removed`), where `listed` are the files that
/// a whole scan shows: of each row that its slot begins where the row is, and that it goes. The slots come after those of the
/// listed files, in the order of the rows.
///
/// If no input cleans such rows, or the key of a listed file is not known, no row goes and no memory is taken. `Err` means out of
/// memory, after some of them.
pub fn tell_hidden(
    alloc: Global,
    inputs: &[InputRule],
    listed: &[Listed],
    keeper: &mut Keeper,
) -> Result<(), NoMemory>
    requires few_listed { length listed.now ≤ 65_536 }
    requires room { KnowsItsKeys keeper.old }
    ensures told { OnOk result
        (TellsHidden inputs.now listed.now keeper.old.store.rows keeper.old keeper.new) }
    ensures some_told { OnErr result
        (TellsSomeHidden inputs.now listed.now keeper.old.store.rows keeper.old keeper.new) }
{
    are_in_order(keeper.rows());
    if !some_may_go(inputs, listed) {
        return Ok(());
    }
    let keys = listed_keys(alloc, listed)?;
    tell_rows(alloc, inputs, listed, &keys, keeper)
}

/// Notes them once all files were begun.
pub fn hide_begun(
    context: Context<'_, '_>,
    scanned: &Scanned,
    begun: Result<BegunFiles, BeginError>,
    keeper: &mut Keeper,
) -> Result<BegunFiles, BeginError>
    requires few_listed { length scanned.now.listed.items ≤ 65_536 }
    requires room { IfOk begun (λ _. KnowsItsKeys keeper.old) }
    ensures { HidesBegun context.entry.settings.now.inputs scanned.entry.now.listed.items
        begun result keeper.old keeper.new }
{
    let files = begun?;
    let inputs = context.settings.inputs.as_slice();
    tell_hidden(context.alloc, inputs, scanned.listed.as_slice(), keeper)?;
    Ok(files)
}

/// Rows are in the order of their keys, one for each key.
fn are_in_order(rows: &Rows)
    ensures { IsInOrder rows.now }
{
    rows.get(&[]);
}

/// Notes the rows that go, one after another.
fn tell_rows(
    alloc: Global,
    inputs: &[InputRule],
    listed: &[Listed],
    keys: &BTreeSet<Text>,
    keeper: &mut Keeper,
) -> Result<(), NoMemory>
    requires few_listed { length listed.now ≤ 65_536 }
    requires in_order { IsInOrder keeper.old.store.rows }
    requires room { KnowsItsKeys keeper.old }
    requires may_go { SomeMayGo inputs.now listed.now }
    requires keys { HasListedKeys listed.now keys.now }
    ensures told { OnOk result
        (TellsHidden inputs.now listed.now keeper.old.store.rows keeper.old keeper.new) }
    ensures some_told { OnErr result
        (TellsSomeHidden inputs.now listed.now keeper.old.store.rows keeper.old keeper.new) }
{
    let mut slot = listed.len();
    let mut place = 0;
    'rows: while place < keeper.rows().len() {
        slot = tell_or_leave(alloc, inputs, keys, place, slot, keeper)?;
        place += 1;
    }
    Ok(())
}

/// Notes the row at the place by this slot, if it goes. The next slot.
fn tell_or_leave(
    alloc: Global,
    inputs: &[InputRule],
    keys: &BTreeSet<Text>,
    place: usize,
    slot: usize,
    keeper: &mut Keeper,
) -> Result<usize, NoMemory>
    requires within { place < length keeper.old.store.rows }
    requires few { slot ≤ 131_072 }
    requires room { KnowsItsKeys keeper.old }
    ensures told { IfOk result (λ next. RowAt keeper.old.store.rows place (λ row.
        TellsOrLeaves inputs.now keys.now slot row keeper.old keeper.new next)) }
    ensures some_told { OnErr result (RowAt keeper.old.store.rows place (λ row.
        BeginsOrNothing inputs.now keys.now slot row keeper.old keeper.new)) }
{
    match going_row(alloc, inputs, keys, keeper.rows().at(place))? {
        Some(row) => {
            tell_row(alloc, Slot(slot as u32), row, keeper)?;
            Ok(slot + 1)
        }
        None => Ok(slot),
    }
}

/// A copy of the row, if it goes.
fn going_row(
    alloc: Global,
    inputs: &[InputRule],
    keys: &BTreeSet<Text>,
    row: &Row,
) -> Result<Option<Row>, NoMemory>
    ensures { IfOk result (IsGoingRow inputs.now keys.now row.now) }
{
    if goes(inputs, keys, &row.key) {
        return Ok(Some(row.copy(alloc)?));
    }
    Ok(None)
}

/// Notes how the slot begins, with the row as it is, and that the row goes.
fn tell_row(alloc: Global, slot: Slot, row: Row, keeper: &mut Keeper) -> Result<(), NoMemory>
    requires in_range { IsRow row }
    requires few { HasRoomFor keeper.old.store.rows keeper.old.tracked
        (hidden_begin (going_by slot row)) }
    ensures told { OnOk result (TellsNotes
        (hidden_begin (going_by slot row) ∷ hidden_forget (going_by slot row) ∷ [])
        keeper.old keeper.new) }
    ensures begun { OnErr result (TellsNotes (hidden_begin (going_by slot row) ∷ [])
        keeper.old keeper.new
        ⊎ (keeper.new ≡ keeper.old)) }
{
    let Row {
        key,
        path,
        epoch,
        offset,
        changed,
    } = row;
    let begin = Note::Begin {
        slot,
        key,
        path,
        epoch,
        base: offset,
        changed,
    };
    tell(alloc, begin, keeper)?;
    let forget = Note::Forget {
        slot,
        epoch,
        end: offset,
    };
    tell(alloc, forget, keeper)
}

ghost use Rattle.std.specs.Prelude.{◌≡◌, IfOk, IfSome};
ghost use Rattle.std.specs.Option.{option_copied};
ghost use Rattle.wire_base.specs.Ranges.{IsKey, IsOp, IsRow};
ghost use Rattle.ship_core.specs.Changes.{change_of, same_row};

use std::alloc::Global;
use wire_base::{NoMemory, Op, Row, Text};

/// What leads from a key's row to the one that it has now: `None` if they are the same.
pub fn change(
    alloc: Global,
    key: &Text,
    was: Option<&Row>,
    now: Option<Row>,
) -> Result<Option<Op>, NoMemory>
    requires key { IsKey key.now }
    requires now { IfSome now IsRow }
    ensures change { IfOk result (λ op. op ≡ change_of key.now (option_copied was.entry) now) }
    ensures in_range { IfOk result (λ op. IfSome op IsOp) }
{
    match now {
        None => match was {
            None => Ok(None),
            Some(_) => Ok(Some(Op::Remove(key.copy(alloc)?))),
        },
        Some(row) => match was {
            None => Ok(Some(Op::Set(row))),
            Some(was) => {
                if is_same(was, &row) {
                    Ok(None)
                } else {
                    Ok(Some(Op::Set(row)))
                }
            }
        },
    }
}

fn is_same(row: &Row, other: &Row) -> bool
    ensures { result ≡ same_row row.now other.now }
{
    row.key == other.key
        && row.path == other.path
        && row.epoch.0 == other.epoch.0
        && row.offset == other.offset
        && row.changed.0 == other.changed.0
}

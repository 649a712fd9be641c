ghost use Rattle.std.specs.Prelude.{◌≡◌, ◌<◌, All, IfErr, IfOk, OnOk, [], length};
ghost use Rattle.std.specs.BTreeSet.{IsEmpty, contains};
ghost use Rattle.prospector_core.specs.KnownFiles.{IsSeen};
ghost use Rattle.restart_join.specs.Joining.{IsRefused, Joins, begin_at, refusals};
ghost use Rattle.restart_join.specs.PathOrder.{members_at};
ghost use Rattle.restart_join.specs.Steps.{HasJoined, IsFirstRefused, JoinsMember, MemberRefused};
ghost use Rattle.ship_core.specs.Rows.{find};
ghost use Rattle.wire_base.specs.KeyOrder.{compare};
ghost use Rattle.wire_base.specs.Ranges.{IsBegin};

use crate::JoinError;
use crate::path_order::path_order;
use crate::start::{Start, start_of};
use prospector_core::Seen;
use ship_core::Rows;
use std::alloc::Global;
use std::collections::BTreeSet;
use wire_base::{Begin, Epoch, NoMemory, Slot, Text};

/// The files with which a run begins: one for each key that its first scan shows, by the key's first path in byte
/// order, with slots from `first` on in that order.
///
/// `TooMany` names what is at its limit, and the path of the first file that needs one more: files, counted with
/// all rows and with each key of the scan that has none; epochs, if a file is shorter than its row's offset; slots.
pub fn join_rows(
    alloc: Global,
    rows: &Rows,
    seen: &[Seen],
    first: Slot,
) -> Result<Vec<Begin>, JoinError>
    requires { All IsSeen seen.now }
    ensures joined { IfOk result (λ begins. Joins rows.now seen.now first.0 begins.items) }
    ensures refused { IfErr result (IsRefused rows.now seen.now first.0) }
    ensures in_range { IfOk result (λ begins. All IsBegin begins.items) }
{
    let order = path_order(alloc, seen)?;
    let mut joined = Joined::new(alloc, rows.len(), first.0);
    join_members(alloc, rows, seen, &order, &mut joined)?;
    Ok(joined.begins)
}

/// What the members so far began.
#[derive(Drop)]
pub struct Joined {
    pub begins: Vec<Begin>,
    /// The keys of these.
    pub keys: BTreeSet<Text>,
    /// How many rows there are and files without one.
    pub files: usize,
    /// The slot of the next one.
    pub next: u32,
}

impl Joined {
    fn new(alloc: Global, files: usize, next: u32) -> Joined
        ensures begins { result.begins.items ≡ [] }
        ensures keys { IsEmpty result.keys }
        ensures files { result.files ≡ files }
        ensures next { result.next ≡ next }
    {
        Joined {
            begins: Vec::new(alloc),
            keys: BTreeSet::new(alloc),
            files,
            next,
        }
    }
}

/// Begins the members at these places, one after another.
fn join_members(
    alloc: Global,
    rows: &Rows,
    seen: &[Seen],
    order: &[usize],
    joined: &mut Joined,
) -> Result<(), JoinError>
    requires start { HasJoined rows.now joined.old.next [] joined.old }
    requires places { All (λ place. place < length seen.now) order.now }
    requires in_range { All IsSeen seen.now }
    ensures joined { OnOk result (HasJoined rows.now joined.old.next (members_at seen.now order.now) joined.new) }
    ensures refused { IfErr result (IsFirstRefused (refusals rows.now joined.old.next (members_at seen.now order.now))) }
{
    for place in order {
        join_member(alloc, rows, &seen[*place], joined)?;
    }
    Ok(())
}

/// Begins a member if it is the first of its key.
fn join_member(
    alloc: Global,
    rows: &Rows,
    member: &Seen,
    joined: &mut Joined,
) -> Result<(), JoinError>
    requires { IsSeen member.now }
    ensures joined { OnOk result (JoinsMember (contains compare joined.old.keys member.now.key) rows.now joined.old member.now joined.new) }
    ensures refused { IfErr result (MemberRefused rows.now joined.old member.now) }
{
    if joined.keys.contains(&member.key) {
        return Ok(());
    }
    let row = rows.get(member.key.bytes());
    let fresh = row.is_none();
    let start = match start_of(row, member.size, joined.files, joined.next) {
        Ok(start) => start,
        Err(what) => {
            let path = member.path.copy(alloc)?;
            return Err(JoinError::TooMany { what, path });
        }
    };
    let begin = begin_at(alloc, joined.next, member, start)?;
    joined.begins.push(begin)?;
    joined.keys.insert(member.key.copy(alloc)?)?;
    joined.next += 1;
    if fresh {
        joined.files += 1;
    }
    Ok(())
}

fn begin_at(alloc: Global, slot: u32, member: &Seen, start: Start) -> Result<Begin, NoMemory>
    ensures { IfOk result (λ begin. begin ≡ begin_at slot member.now start) }
{
    Ok(Begin {
        slot: Slot(slot),
        input: member.input,
        key: member.key.copy(alloc)?,
        path: member.path.copy(alloc)?,
        size: member.size,
        epoch: Epoch(start.epoch),
        base: start.base,
    })
}

ghost use Rattle.std.specs.Prelude.{◌≡◌, true, IfOk, OnOk};
ghost use Rattle.wire_base.specs.Ranges.{IsKey, IsNote, IsPlace};

mod joining;
mod machine;
mod orderly;
mod tracker;

use crate::tests::rows::machine::Told;
use ship_core::Rows;
use std::alloc::Global;
use std::process::Abort;
use std::test::Fail;
use wire_base::{Cause, Epoch, MAX_KEY, MAX_PLACE, Moment, Note, RuleNo, Slot, Span, Text};

pub(crate) fn begin(alloc: Global, slot: u32, key: &[u8], base: u64) -> Result<Note, Fail>
    requires key { IsKey key.now }
    requires base { IsPlace base }
    ensures { IfOk result IsNote }
{
    Ok(Note::Begin {
        slot: Slot(slot),
        key: Text::from_bytes(alloc, key)?,
        path: Text::from_bytes(alloc, b"/w/a.log")?,
        epoch: Epoch(0),
        base,
        changed: Moment(4),
    })
}

fn settle(rt: &impl Abort, slot: u32, epoch: u32, places: (u64, u64), cause: Cause) -> Note
    ensures { IsNote result }
{
    let span = Span::new(places.0, places.1).expect(rt, "a span");
    assert!(rt; span.end() <= MAX_PLACE);
    Note::Settle {
        slot: Slot(slot),
        epoch: Epoch(epoch),
        span,
        cause,
    }
}

pub(crate) fn acked(rt: &impl Abort, epoch: u32, start: u64, end: u64) -> Note
    ensures { IsNote result }
{
    settle(rt, 0, epoch, (start, end), Cause::Acked)
}

fn begun(rt: &impl Abort, alloc: Global) -> Result<Told, Fail>
    ensures runs { IfOk result (λ told. told.world.runs ≡ true) }
    ensures same { IfOk result (λ told. told.world.notes ≡ told.notes.items) }
{
    let mut told = Told::new(alloc)?;
    told.note(rt, alloc, begin(alloc, 0, b"k", 0)?)?;
    Ok(told)
}

/// One more note of the slot 0, after which the machine's row and the tracker have this epoch and offset.
fn check(
    rt: &impl Abort,
    alloc: Global,
    name: &str,
    told: &mut Told,
    note: Note,
    expected: (u32, u64),
) -> Result<(), Fail>
    requires in_range { IsNote note }
    requires runs { told.old.world.runs ≡ true }
    requires same { told.old.world.notes ≡ told.old.notes.items }
    ensures runs { OnOk result (told.new.world.runs ≡ true) }
    ensures same { OnOk result (told.new.world.notes ≡ told.new.notes.items) }
{
    told.note(rt, alloc, note)?;
    let place = Some((Epoch(expected.0), expected.1));
    let row = told.world.rows().get(b"k");
    assert_eq!(rt; row.map(|row| (row.epoch, row.offset)), place, "{name}");
    assert_eq!(rt; told.tracker.offset(Slot(0)), place, "{name}");
    Ok(())
}

/// A slot that begins with a key, an epoch of the slot 0 that is announced, a span of an epoch of
/// that slot, acked or dropped, or a slot that is forgotten from its start on.
#[derive(Clone, Copy)]
enum Step {
    Begin(u32, &'static [u8]),
    Announce(u32),
    Acked(u32, u64, u64),
    Dropped(u32, u64, u64),
    Forget(u32),
}

fn note_of(rt: &impl Abort, alloc: Global, step: Step) -> Result<Note, Fail>
    ensures { IfOk result IsNote }
{
    Ok(match step {
        Step::Begin(slot, key) => {
            assert!(rt; key.len() <= MAX_KEY);
            begin(alloc, slot, key, 0)?
        }
        Step::Announce(epoch) => Note::Announce {
            slot: Slot(0),
            epoch: Epoch(epoch),
        },
        Step::Acked(epoch, start, end) => acked(rt, epoch, start, end),
        Step::Dropped(epoch, start, end) => {
            settle(rt, 0, epoch, (start, end), Cause::Dropped(RuleNo(10)))
        }
        Step::Forget(slot) => Note::Forget {
            slot: Slot(slot),
            epoch: Epoch(0),
            end: 0,
        },
    })
}

/// Takes these steps, one after the other.
fn tell(rt: &impl Abort, alloc: Global, told: &mut Told, steps: &[Step]) -> Result<(), Fail>
    requires runs { told.old.world.runs ≡ true }
    requires same { told.old.world.notes ≡ told.old.notes.items }
    ensures runs { OnOk result (told.new.world.runs ≡ true) }
    ensures same { OnOk result (told.new.world.notes ≡ told.new.notes.items) }
{
    for step in steps {
        told.note(rt, alloc, note_of(rt, alloc, *step)?)?;
    }
    Ok(())
}

/// A file that begins, and then these notes of it, each with the epoch and the offset that follow.
fn check_steps(rt: &impl Abort, alloc: Global, name: &str, steps: Steps) -> Result<(), Fail> {
    let mut told = begun(rt, alloc)?;
    for (step, expected) in steps {
        check(
            rt,
            alloc,
            name,
            &mut told,
            note_of(rt, alloc, *step)?,
            *expected,
        )?;
    }
    Ok(())
}

/// Steps, each with the epoch and the offset that follow.
type Steps = &'static [(Step, (u32, u64))];

const WORKED: [(&str, Steps); 4] = [
    (
        "covered_end_over_gaps",
        &[
            (Step::Acked(0, 5, 9), (0, 0)),
            (Step::Acked(0, 0, 5), (0, 9)),
            (Step::Acked(0, 0, 5), (0, 9)),
        ],
    ),
    (
        "older_epoch_changes_nothing",
        &[
            (Step::Announce(1), (1, 0)),
            (Step::Acked(1, 0, 2), (1, 2)),
            (Step::Acked(0, 0, 2), (1, 2)),
            (Step::Acked(0, 2, 4), (1, 2)),
        ],
    ),
    (
        "older_epoch_changes_nothing",
        &[
            (Step::Acked(1, 0, 2), (1, 2)),
            (Step::Announce(1), (1, 2)),
            (Step::Acked(0, 0, 2), (1, 2)),
            (Step::Acked(0, 2, 4), (1, 2)),
        ],
    ),
    (
        "dropped_span_within_prefix",
        &[
            (Step::Dropped(0, 2, 4), (0, 0)),
            (Step::Acked(0, 4, 6), (0, 0)),
            (Step::Acked(0, 0, 2), (0, 6)),
        ],
    ),
];

#[test]
fn offsets_follow_the_notes(rt: HostRuntime) -> Result<(), Fail> {
    for (name, steps) in &WORKED {
        check_steps(&rt, rt.alloc(), name, steps)?;
    }
    Ok(())
}

fn commit(alloc: Global, told: &mut Told, wanted: bool) -> Result<(), Fail>
    requires runs { told.old.world.runs ≡ true }
    requires same { told.old.world.notes ≡ told.old.notes.items }
    ensures runs { OnOk result (told.new.world.runs ≡ true) }
    ensures same { OnOk result (told.new.world.notes ≡ told.new.notes.items) }
{
    if wanted {
        told.commit(alloc)?;
    }
    Ok(())
}

const BEFORE: [Step; 2] = [Step::Begin(0, b"a"), Step::Begin(1, b"b")];

const BEHIND: [Step; 3] = [Step::Acked(0, 0, 4), Step::Forget(1), Step::Begin(2, b"c")];

/// Two files that begin, perhaps a commit, and then a span of the first, the going of the second and a third that begins.
fn three_files(rt: &impl Abort, alloc: Global, commits: bool) -> Result<Told, Fail>
    ensures runs { IfOk result (λ told. told.world.runs ≡ true) }
    ensures same { IfOk result (λ told. told.world.notes ≡ told.notes.items) }
{
    let mut told = Told::new(alloc)?;
    tell(rt, alloc, &mut told, &BEFORE)?;
    commit(alloc, &mut told, commits)?;
    tell(rt, alloc, &mut told, &BEHIND)?;
    Ok(told)
}

/// The rows are these, by their keys and offsets.
fn check_rows(rt: &impl Abort, rows: &Rows, expected: &[(&[u8], u64)]) {
    assert_eq!(rt; rows.len(), expected.len());
    for (key, offset) in expected {
        assert_eq!(rt; rows.get(key).map(|row| row.offset), Some(*offset));
    }
}

/// The first file begins again where its row left it, and its next span is settled.
fn go_on(rt: &impl Abort, alloc: Global, told: &mut Told) -> Result<(), Fail>
    requires runs { told.old.world.runs ≡ true }
    requires same { told.old.world.notes ≡ told.old.notes.items }
{
    let base = told.world.rows().get(b"a").map_or(0, |row| row.offset);
    assert!(rt; base <= 4);
    told.note(rt, alloc, begin(alloc, 0, b"a", base)?)?;
    told.note(rt, alloc, acked(rt, 0, base, base + 2))?;
    let offset = told.world.rows().get(b"a").map(|row| row.offset);
    assert_eq!(rt; offset, Some(base + 2));
    assert_eq!(rt; told.tracker.offset(Slot(0)), Some((Epoch(0), base + 2)));
    Ok(())
}

/// How many updates were committed, and how many there are with those that the tracker has ready.
fn check_updates(
    rt: &impl Abort,
    alloc: Global,
    told: &Told,
    expected: (u64, u64),
) -> Result<(), Fail> {
    let (committed, all) = expected;
    assert_eq!(rt; told.world.updates(), expected);
    let changes = told.tracker.changes(alloc)?;
    assert_eq!(rt; all.checked_sub(committed), Some(changes.len() as u64));
    Ok(())
}

/// Whether there is a commit, the updates that a crash leaves, and the rows then, by their keys
/// and offsets. With no commit the updates are a and c; with one they are a and b, and then a, the
/// end of b, and c.
const CRASHES: [(bool, u64, &[(&[u8], u64)]); 7] = [
    (false, 0, &[]),
    (false, 1, &[(b"a", 4)]),
    (false, 2, &[(b"a", 4), (b"c", 0)]),
    (true, 2, &[(b"a", 0), (b"b", 0)]),
    (true, 3, &[(b"a", 4), (b"b", 0)]),
    (true, 4, &[(b"a", 4)]),
    (true, 5, &[(b"a", 4), (b"c", 0)]),
];

#[test]
fn crash_leaves_the_rows_of_as_many_updates(rt: HostRuntime) -> Result<(), Fail> {
    let alloc = rt.alloc();
    for (commits, left, expected) in &CRASHES {
        let (commits, left) = (*commits, *left);
        let mut told = three_files(&rt, alloc, commits)?;
        check_updates(&rt, alloc, &told, if commits { (2, 5) } else { (0, 2) })?;
        let rows = told.crash(&rt, alloc, left)?;
        check_rows(&rt, &rows, expected);
        check_rows(&rt, told.world.rows(), expected);
        check_updates(&rt, alloc, &told, (left, left))?;
        go_on(&rt, alloc, &mut told)?;
    }
    Ok(())
}

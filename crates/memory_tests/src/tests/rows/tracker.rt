ghost use Rattle.wire_base.specs.Ranges.{IsMoment, IsNote};

use crate::tests::rows::{acked, begin};
use ack_tracker::Tracker;
use ship_core::Rows;
use std::alloc::Global;
use std::test::Fail;
use wire_base::{Epoch, Moment, NoMemory, Note, Slot};

const SLOT: Slot = Slot(0);

fn tell(alloc: Global, tracker: &mut Tracker, note: Note) -> Result<(), Fail>
    requires { IsNote note }
{
    tracker.note(alloc, note).map_err(|_| NoMemory)?;
    Ok(())
}

fn begun(alloc: Global) -> Result<Tracker, Fail> {
    let mut tracker = Tracker::new(alloc, &Rows::new(alloc))?;
    tell(alloc, &mut tracker, begin(alloc, 0, b"k", 0)?)?;
    Ok(tracker)
}

fn seen(alloc: Global, tracker: &mut Tracker, changed: u64) -> Result<(), Fail>
    requires { IsMoment (record { 0 = changed }) }
{
    let seen = Note::Seen {
        slot: SLOT,
        changed: Moment(changed),
    };
    tell(alloc, tracker, seen)
}

#[test]
fn greatest_moment_seen(rt: HostRuntime) -> Result<(), Fail> {
    let alloc = rt.alloc();
    let mut tracker = begun(alloc)?;
    seen(alloc, &mut tracker, 9)?;
    seen(alloc, &mut tracker, 7)?;
    let Some(row) = tracker.row(alloc, SLOT)? else {
        return Err("no row".into());
    };
    assert!(rt; row.key.as_str() == "k" && row.path.as_str() == "/w/a.log");
    assert_eq!(rt;
        (row.epoch, row.offset, row.changed),
        (Epoch(0), 0, Moment(9))
    );
    assert!(rt; tracker.row(alloc, Slot(1))?.is_none());
    Ok(())
}

#[test]
fn spans_of_a_permutation(rt: HostRuntime) -> Result<(), Fail> {
    let alloc = rt.alloc();
    let mut tracker = begun(alloc)?;
    for i in 0..100_000u64 {
        let start = i * 7_919 % 100_000 * 10;
        tell(alloc, &mut tracker, acked(&rt, 0, start, start + 10))?;
        assert!(rt; tracker.offset(SLOT).is_some_and(|(_, end)| end % 10 == 0));
    }
    assert_eq!(rt; tracker.offset(SLOT), Some((Epoch(0), 1_000_000)));
    Ok(())
}

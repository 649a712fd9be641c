//! What a worker answers and posts, row by row.
use crate::tests::workers::rig::{Rig, Sizes};
use batch_worker::WorkerTurn;
use outside::Wire;
use std::alloc::Global;
use std::process::Abort;
use std::sync::Wait;
use std::test::Fail;

/// How far a worker is turned.
#[derive(Clone, Copy)]
pub enum Turns {
    One,
    /// Until it does no work.
    All,
}

/// What is done with a worker at one moment, and what has to come of it: the milliseconds, the names of the parcels that are
/// put into the queue first, how far it is turned, its answer, the names of the parcels whose notes are then posted, and how many
/// failures there are in a row.
pub type Row<'a> = (u32, &'a [u8], Turns, WorkerTurn, &'a [u8], u32);

/// Follows a worker through the rows. In each its passes change hands first, and at its end it hands on what it can.
pub fn follow<R: Wait + Abort, W: Wire>(
    rt: &R,
    alloc: Global,
    wire: &mut W,
    sizes: Sizes,
    rows: &[Row<'_>],
) -> Result<(), Fail> {
    let mut rig = Rig::new(alloc, sizes, 0)?;
    for row in rows {
        assert!(rt; is_followed(rt, alloc, wire, &mut rig, row), "at {}", row.0);
    }
    rig.end(wire);
    Ok(())
}

/// The worker answers and posts as the row says.
fn is_followed<R: Wait, W: Wire>(
    rt: &R,
    alloc: Global,
    wire: &mut W,
    rig: &mut Rig<W::Link>,
    row: &Row<'_>,
) -> bool {
    let (now, loaded, turns, wanted, posted, failures) = *row;
    rig.change_passes();
    if !rig.load(rt, alloc, loaded, 1) {
        return false;
    }
    let answer = match turns {
        Turns::One => rig.turn(rt, wire, u64::from(now)),
        Turns::All => rig.until(rt, wire, u64::from(now)),
    };
    rig.hand_on(rt);
    answer == wanted && rig.has_posted(rt, posted) && rig.worker.failures() == failures
}

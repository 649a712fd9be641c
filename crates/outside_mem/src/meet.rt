ghost use Rattle.std.specs.Prelude.{◌≡◌, ◌+◌, ◌<◌, ◌≤◌};
ghost use Rattle.outside_mem.specs.Meetings.{Asks};

use std::alloc::Global;
use std::sync::Arc;
use std::sync::atomic::{AtomicBool, Ordering};
use wire_base::NoMemory;

/// How often a call looks for the other peer at most.
const LOOKS: u32 = 10_000_000;

/// How many calls that do not meet the other peer answer that nothing has come yet; later ones fail.
const MISSES: u8 = 10;

/// What two peers that are to meet share.
#[derive(Drop)]
struct Pair {
    first_is_called: AtomicBool,
    second_is_called: AtomicBool,
    met: AtomicBool,
}

/// One of two peers that answer once both were called at the same time, by two threads.
#[derive(Drop)]
pub struct MeetLink {
    pair: Arc<Pair>,
    is_first: bool,
    /// How many calls did not meet the other peer.
    misses: u8,
    ghost few: { misses ≤ 10 },
}

/// What came of one call.
#[derive(Clone, Copy)]
pub(crate) enum Meeting {
    Met,
    NotYet,
    Failed,
}

impl MeetLink {
    pub fn pair(alloc: Global) -> Result<(MeetLink, MeetLink), NoMemory> {
        let pair = Pair {
            first_is_called: AtomicBool::new(false),
            second_is_called: AtomicBool::new(false),
            met: AtomicBool::new(false),
        };
        let first = Arc::new(alloc, pair)?;
        let second = Arc::try_clone(&first)?;
        Ok((MeetLink::of(first, true), MeetLink::of(second, false)))
    }

    fn of(pair: Arc<Pair>, is_first: bool) -> MeetLink {
        MeetLink {
            pair,
            is_first,
            misses: 0,
        }
    }

    /// Says whether the peers have met by now.
    pub(crate) fn call(&mut self) -> Meeting
        ensures { Asks self.old.misses self.new.misses result }
    {
        if self.meets() {
            return Meeting::Met;
        }
        if self.misses == MISSES {
            return Meeting::Failed;
        }
        self.misses += 1;
        Meeting::NotYet
    }

    /// Looks for the other peer while its own flag is up. Without the other peer, which another
    /// thread has to call, it ends after `LOOKS` looks.
    fn meets(&self) -> bool {
        let Pair {
            first_is_called,
            second_is_called,
            met,
        } = &*self.pair;
        let (own, other) = if self.is_first {
            (first_is_called, second_is_called)
        } else {
            (second_is_called, first_is_called)
        };
        own.store(true, Ordering::SeqCst);
        let has_met = is_seen(other, met);
        if has_met {
            met.store(true, Ordering::SeqCst);
        }
        own.store(false, Ordering::SeqCst);
        has_met
    }
}

/// Whether one of `LOOKS` looks finds the other peer's flag up, or the mark that both have met.
fn is_seen(other: &AtomicBool, met: &AtomicBool) -> bool {
    for _ in 0..LOOKS {
        if met.load(Ordering::SeqCst) || other.load(Ordering::SeqCst) {
            return true;
        }
    }
    false
}

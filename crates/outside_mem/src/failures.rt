ghost use Rattle.std.specs.Prelude.{◌≡◌, ◌↔◌, IsTrue, IfOk, OnOk, OnErr, ◌≤◌};
ghost use Rattle.std.specs.Bool.{OnFalse, OnTrue};
ghost use Rattle.outside.specs.Counts.{Rose, next_count, added_counts};
ghost use Rattle.outside_mem.specs.Failing.{IsNamed};

use crate::failing::FailingCalls;
use std::alloc::Global;
use wire_base::NoMemory;

/// Which calls on an object fail, and how often it has failed: as often as there was no memory and as
/// lists asked for it.
#[derive(Drop)]
pub(crate) struct Failures {
    pub(crate) failing: FailingCalls,
    pub(crate) faults: u64,
    pub(crate) starved: u64,
    /// How often it failed because a list, or the talk of a link, asked for it.
    pub(crate) asked: u64,
    ghost accounted: { faults ≡ added_counts starved asked },
}

impl Failures {
    ghost use Rattle.outside_mem.specs.Failures.{Stays, Fails, Starves};

    pub(crate) fn new(alloc: Global) -> Failures
        ensures none { result.faults ≡ 0 }
        ensures none_starved { result.starved ≡ 0 }
        ensures none_asked { result.asked ≡ 0 }
    {
        Failures {
            failing: FailingCalls::new(alloc),
            faults: 0,
            starved: 0,
            asked: 0,
        }
    }

    /// Names further calls that fail, counted from 0 since the object was made.
    pub(crate) fn fail_at(&mut self, calls: &[u64]) -> Result<(), NoMemory>
        ensures { Stays self.old self.new }
    {
        self.failing.fail_at(calls)
    }

    /// Lets all calls but the first `calls` fail, as if a list named them.
    pub(crate) fn stop_after(&mut self, calls: u64)
        ensures { Stays self.old self.new }
    {
        self.failing.stop_after(calls);
    }

    /// Counts one call, and says whether it fails; then it counts a fault, too.
    pub(crate) fn next_call_fails(&mut self) -> bool
        ensures named { IsTrue result ↔ IsNamed self.old.failing }
        ensures fails { OnTrue result (Fails self.old self.new) }
        ensures goes_on { OnFalse result (Stays self.old self.new) }
    {
        let fails = self.failing.next_fails();
        if fails {
            self.faults = self.faults.saturating_add(1);
            self.asked = self.asked.saturating_add(1);
        }
        fails
    }

    /// Counts a fault for being out of memory.
    pub(crate) fn starve(&mut self)
        ensures { Starves self.old self.new }
    {
        self.faults = self.faults.saturating_add(1);
        self.starved = self.starved.saturating_add(1);
    }

    /// Counts the faults of an object that this one gave out.
    pub(crate) fn include(&mut self, starved: u64, asked: u64)
        ensures faults { self.new.faults ≡ added_counts self.old.faults (added_counts starved asked) }
        ensures starved { self.new.starved ≡ added_counts self.old.starved starved }
        ensures asked { self.new.asked ≡ added_counts self.old.asked asked }
    {
        self.faults = self.faults.saturating_add(starved.saturating_add(asked));
        self.starved = self.starved.saturating_add(starved);
        self.asked = self.asked.saturating_add(asked);
    }
}

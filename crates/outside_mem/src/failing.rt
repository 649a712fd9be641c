ghost use Rattle.std.specs.Prelude.{◌≡◌, ◌++◌, ◌↔◌, [], None, Some, IsTrue, OnOk, OnErr};
ghost use Rattle.outside.specs.Counts.{next_count};
ghost use Rattle.outside_mem.specs.Failing.{IsNamed};

use std::alloc::Global;
use wire_base::NoMemory;

/// Which calls of one kind fail, by their numbers.
#[derive(Drop)]
pub(crate) struct FailingCalls {
    pub(crate) named: Vec<u64>,
    pub(crate) stopped_at: Option<u64>,
    pub(crate) calls: u64,
}

impl FailingCalls {
    pub(crate) fn new(alloc: Global) -> FailingCalls
        ensures named { result.named.items ≡ [] }
        ensures stopped_at { result.stopped_at ≡ None }
        ensures calls { result.calls ≡ 0 }
    {
        FailingCalls {
            named: Vec::new(alloc),
            stopped_at: None,
            calls: 0,
        }
    }

    /// Names further calls that fail, counted from 0.
    pub(crate) fn fail_at(&mut self, calls: &[u64]) -> Result<(), NoMemory>
        ensures named { OnOk result (self.new.named.items ≡ self.old.named.items ++ calls.now) }
        ensures refused { OnErr result (self.new.named.items ≡ self.old.named.items) }
        ensures stopped_at { self.new.stopped_at ≡ self.old.stopped_at }
        ensures calls { self.new.calls ≡ self.old.calls }
    {
        self.named.extend_from_slice(calls)?;
        Ok(())
    }

    /// Lets all calls but the first `calls` fail.
    pub(crate) fn stop_after(&mut self, calls: u64)
        ensures named { self.new.named ≡ self.old.named }
        ensures stopped_at { self.new.stopped_at ≡ Some calls }
        ensures calls { self.new.calls ≡ self.old.calls }
    {
        self.stopped_at = Some(calls);
    }

    /// Counts one call, and says whether it fails.
    pub(crate) fn next_fails(&mut self) -> bool
        ensures named { IsTrue result ↔ IsNamed self.old }
        ensures same { (self.new.named ≡ self.old.named) × (self.new.stopped_at ≡ self.old.stopped_at) }
        ensures calls { self.new.calls ≡ next_count self.old.calls }
    {
        let call = self.calls;
        self.calls = call.saturating_add(1);
        let has_stopped = match self.stopped_at {
            Some(stop) => stop <= call,
            None => false,
        };
        has_stopped || self.named.contains(&call)
    }
}

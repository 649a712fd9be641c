ghost use Rattle.std.specs.Prelude.{◌≡◌, [], ◌<◌, ◌≤◌, ◌-◌, Some, IfOk, vec_len, vec_capacity, slice_index};
ghost use Rattle.wire_base.specs.declared.numbers.TheConstants.{MAX_MOMENT};

use outside::Clock;
use std::alloc::Global;
use wire_base::{MAX_MOMENT, Moment, NoMemory};

/// A clock that moves only by pauses. Its list begins with the first moment that it gives.
#[derive(Drop)]
pub struct MemClock {
    moments: Vec<u64>,
    /// The moment that was given last, or else that at which it starts.
    last: u64,
    at: u64,
    questions: u64,
    faults: u64,
    ghost room: { 0 < vec_capacity moments },
    ghost ends: { 0 < vec_len moments → slice_index moments.items (vec_len moments - 1) ≡ last },
    ghost in_range: { last ≤ MAX_MOMENT },
    ghost next_in_range: { at ≤ MAX_MOMENT },
}

impl MemClock {
    pub fn new(alloc: Global, start: Moment) -> Result<MemClock, NoMemory>
        ensures { IfOk result (λ clock. ⟦<MemClock as Clock>⟧.moments clock ≡ Some []) }
    {
        let start = start.0.min(MAX_MOMENT);
        Ok(MemClock {
            moments: Vec::with_capacity(alloc, 1)?,
            last: start,
            at: start,
            questions: 0,
            faults: 0,
        })
    }

    /// How often there was no memory for a new moment.
    pub fn starved(&self) -> u64 {
        self.faults
    }
}

impl Clock for MemClock {
    ghost moments = { λ c. Some c.moments.items };

    ghost questions = { λ c. c.questions };

    ghost faults = { λ c. c.faults };

    fn now(&mut self) -> Moment {
        self.questions = self.questions.saturating_add(1);
        if self.moments.is_empty() {
            self.moments.push_reserved(self.at);
            self.last = self.at;
        } else if self.last != self.at {
            match self.moments.push(self.at) {
                Ok(()) => self.last = self.at,
                Err(_) => self.faults = self.faults.saturating_add(1),
            }
        }
        Moment(self.last)
    }

    fn pause(&mut self, ms: u64) {
        self.at = self.at.saturating_add(ms).min(MAX_MOMENT);
    }
}

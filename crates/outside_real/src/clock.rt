ghost use Rattle.std.specs.Prelude.{◌≡◌, ◌≤◌, None};
ghost use Rattle.wire_base.specs.declared.numbers.TheConstants.{MAX_MOMENT};

use crate::counted::counted;
use crate::marks::moment_of;
use outside::Clock;
use std::time::Duration;
use std::{thread, time};
use wire_base::Moment;

/// The system's clock of the day. If it cannot be read, or reads a time before 1970, it gives the
/// moment that it gave last, and 0 at first.
#[derive(Drop)]
pub struct SystemClock<R> {
    rt: R,
    last: u64,
    questions: u64,
    faults: u64,
    ghost in_range: { last ≤ MAX_MOMENT },
}

impl<R: time::Clock> SystemClock<R> {
    pub fn new(rt: R) -> SystemClock<R>
        ensures tells_nothing { ⟦<SystemClock<R> as Clock>⟧.moments result ≡ None }
        ensures no_question { ⟦<SystemClock<R> as Clock>⟧.questions result ≡ 0 }
        ensures no_fault { ⟦<SystemClock<R> as Clock>⟧.faults result ≡ 0 }
    {
        SystemClock {
            rt,
            last: 0,
            questions: 0,
            faults: 0,
        }
    }
}

impl<R: time::Clock> Clock for SystemClock<R> {
    ghost moments = { λ _. None };

    ghost questions = { λ c. c.questions };

    ghost faults = { λ c. c.faults };

    fn now(&mut self) -> Moment {
        self.questions = self.questions.saturating_add(1);
        let answer = self.rt.since_1970();
        if let Ok(since_1970) = counted(&mut self.faults, answer) {
            self.last = moment_of(since_1970).0;
        }
        Moment(self.last)
    }

    fn pause(&mut self, ms: u64) {
        thread::sleep(&self.rt, Duration::from_millis(ms));
    }
}

ghost use Rattle.std.specs.Prelude.{◌≡◌, ℕ, ◌≤◌, List, Option};
ghost use Rattle.outside.specs.Counts.{next_count};
ghost use Rattle.outside.specs.Times.{GivesMoment};
ghost use Rattle.wire_base.specs.Ranges.{IsMoment};

use wire_base::Moment;

/// A clock that may go back and stand still.
pub trait Clock {
    /// The moments that it has given, in milliseconds, if they are known: each that differs from
    /// the one before it.
    ghost moments: { Self → Option (List ℕ) };

    /// How often it was asked.
    ghost questions: { Self → ℕ };

    /// How often it has failed.
    ghost faults: { Self → ℕ };

    /// A moment past `MAX_MOMENT` is given as that number.
    fn now(&mut self) -> Moment
        ensures in_range { IsMoment result }
        ensures told { GivesMoment (moments self.old) result.0 (moments self.new) }
        ensures asked { questions self.new ≡ next_count (questions self.old) }
        ensures faults_never_fall { faults self.old ≤ faults self.new };

    /// Lets `ms` milliseconds pass, as far as the clock can.
    fn pause(&mut self, ms: u64)
        ensures moments_kept { moments self.new ≡ moments self.old }
        ensures not_asked { questions self.new ≡ questions self.old }
        ensures faults_never_fall { faults self.old ≤ faults self.new };
}

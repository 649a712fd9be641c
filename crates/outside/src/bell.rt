ghost use Rattle.std.specs.Prelude.{◌≡◌, ℕ, ◌≤◌, IsTrue};
ghost use Rattle.outside.specs.Counts.{Rose, next_count};

/// Says whether the run is asked to stop.
pub trait Bell {
    /// How often it has rung.
    ghost rings: { Self → ℕ };

    /// How often it was asked.
    ghost questions: { Self → ℕ };

    /// How often it has failed.
    ghost faults: { Self → ℕ };

    fn asked(&mut self) -> bool
        ensures true_only_where_it_rang { IsTrue result → Rose (rings self.old) (rings self.new) }
        ensures rings_never_fall { rings self.old ≤ rings self.new }
        ensures asked { questions self.new ≡ next_count (questions self.old) }
        ensures faults_never_fall { faults self.old ≤ faults self.new };
}

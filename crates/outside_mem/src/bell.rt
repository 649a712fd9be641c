ghost use Rattle.std.specs.Prelude.{◌≡◌, ◌≤◌, IfOk};

use outside::Bell;
use std::alloc::Global;
use wire_base::NoMemory;

/// A bell that is quiet for a stated number of questions, and then rings at each.
#[derive(Drop)]
pub struct MemBell {
    quiet: u64,
    questions: u64,
    rings: u64,
}

impl MemBell {
    pub fn new(_alloc: Global, quiet: u64) -> Result<MemBell, NoMemory>
        ensures { IfOk result (λ bell. ⟦<MemBell as Bell>⟧.questions bell ≡ 0) }
    {
        Ok(MemBell {
            quiet,
            questions: 0,
            rings: 0,
        })
    }
}

impl Bell for MemBell {
    ghost rings = { λ b. b.rings };

    ghost questions = { λ b. b.questions };

    ghost faults = { λ _. 0 };

    fn asked(&mut self) -> bool {
        let rings = self.quiet <= self.questions;
        self.questions = self.questions.saturating_add(1);
        if rings {
            self.rings = self.rings.saturating_add(1);
        }
        rings
    }
}

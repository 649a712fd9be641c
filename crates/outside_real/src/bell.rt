ghost use Rattle.std.specs.Prelude.{◌≡◌};

use crate::counted::counted;
use outside::Bell;
use std::fs;
use std::rt::Files;
use wire_base::Text;

/// Rings when the file that it names is there.
#[derive(Drop)]
pub struct FileBell<R> {
    rt: R,
    path: Text,
    rings: u64,
    questions: u64,
    faults: u64,
}

impl<R: Files> FileBell<R> {
    /// Asks the system nothing yet.
    pub fn new(rt: R, path: Text) -> FileBell<R>
        ensures no_ring { ⟦<FileBell<R> as Bell>⟧.rings result ≡ 0 }
        ensures no_question { ⟦<FileBell<R> as Bell>⟧.questions result ≡ 0 }
        ensures no_fault { ⟦<FileBell<R> as Bell>⟧.faults result ≡ 0 }
    {
        FileBell {
            rt,
            path,
            rings: 0,
            questions: 0,
            faults: 0,
        }
    }
}

impl<R: Files> Bell for FileBell<R> {
    ghost rings = { λ b. b.rings };

    ghost questions = { λ b. b.questions };

    ghost faults = { λ b. b.faults };

    fn asked(&mut self) -> bool {
        self.questions = self.questions.saturating_add(1);
        let answer = fs::exists(&self.rt, self.path.as_str());
        let rings = counted(&mut self.faults, answer).unwrap_or(false);
        if rings {
            self.rings = self.rings.saturating_add(1);
        }
        rings
    }
}

ghost use Rattle.std.specs.Arc.{arc_value};
ghost use Rattle.outside.specs.Files.{IsNoEarlier, latest};
ghost use Rattle.outside_mem.specs.Steps.{sight_at};

use crate::failures::Failures;
use crate::log::{Opening, Room};
use crate::script::{Reading, Script};
use outside::{Failed, Look, Question, Sight, Tail};
use std::sync::Arc;

/// An opened file in memory, all known. It goes by the listings and the tail calls that its folder
/// knew when it was opened, and by its own calls.
#[derive(Drop)]
pub struct MemTail {
    pub(crate) script: Arc<Script>,
    pub(crate) number: u64,
    pub(crate) opening: Opening,
    pub(crate) listings: u64,
    pub(crate) calls: u64,
    /// Its own calls.
    pub(crate) own_calls: u64,
    pub(crate) begun: Sight,
    pub(crate) looks: Vec<Look>,
    pub(crate) failures: Failures,
    /// Where its closing is noted.
    pub(crate) room: Room,
    ghost looked: { IsNoEarlier (latest begun looks.items) (sight_at listings calls (arc_value script).file.steps.items) },
}

impl Tail for MemTail {
    ghost use Rattle.std.specs.Prelude.{Some, ◌+◌};
    ghost use Rattle.std.specs.Arc.{arc_value};
    ghost use Rattle.outside.specs.Tails.{TailHistory};
    ghost use Rattle.outside_mem.specs.Scripts.{file_of};

    ghost told = { λ t. Some (record { opening = t.opening.noted + t.opening.failed; number = t.number; file = file_of (arc_value t.script); begun = t.begun; looks = t.looks.items }) };

    ghost numbers = { λ t. (arc_value t.script).file.native };

    ghost faults = { λ t. t.failures.faults };

    fn native(&self) -> Option<(u64, u64)> {
        self.script.file.native
    }

    fn length(&mut self) -> Result<u64, Failed> {
        let calls = self.calls;
        self.calls = calls.saturating_add(1);
        self.own_calls = self.own_calls.saturating_add(1);
        if self.failures.next_call_fails() {
            return Err(Failed);
        }
        let sight = self.script.sight(self.listings, calls);
        let question = Question::Length;
        match self.looks.push(Look { question, sight }) {
            Ok(()) => Ok(sight.length),
            Err(_) => {
                self.failures.starve();
                Err(Failed)
            }
        }
    }

    fn read_at(&mut self, at: u64, into: &mut [u8]) -> Result<usize, Failed> {
        let calls = self.calls;
        self.calls = calls.saturating_add(1);
        self.own_calls = self.own_calls.saturating_add(1);
        if self.failures.next_call_fails() {
            return Err(Failed);
        }
        if into.is_empty() {
            return Ok(0);
        }
        let Reading { sight, count } = self.script.read(self.listings, calls, at, into);
        let question = Question::ReadAt {
            place: at,
            count: count as u64,
        };
        match self.looks.push(Look { question, sight }) {
            Ok(()) => Ok(count),
            Err(_) => {
                self.failures.starve();
                Err(Failed)
            }
        }
    }
}

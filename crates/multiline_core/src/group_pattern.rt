ghost use Rattle.std.specs.Prelude.{◌≡◌, IfOk};
ghost use Rattle.patterns.specs.Matching.{matches};
ghost use Rattle.patterns.specs.Pattern.{IsLinePattern};

use patterns::LinePattern;
use std::alloc::Global;
use std::marker::Model;
use wire_base::{NoMemory, Text};

/// A compiled pattern of a rule, in memory of its own: every open file has a grouper, and most rules have no pattern.
#[derive(Drop)]
pub struct GroupPattern {
    pattern: Box<LinePattern>,
}

impl Model for GroupPattern {
    ghost use Rattle.std.specs.Prelude.{List, ℕ};

    ghost Value = { List ℕ };

    ghost view = { λ p. p.pattern.value };
}

impl GroupPattern {
    /// Compiles the pattern. One that is too large when it is compiled is reported as out of memory.
    pub(crate) fn new(alloc: Global, text: &Text) -> Result<GroupPattern, NoMemory>
        requires { IsLinePattern text.now }
        ensures { IfOk result (λ pattern. pattern ≡ text.now) }
    {
        let pattern = LinePattern::new(alloc, text)?;
        Ok(GroupPattern {
            pattern: Box::new(alloc, pattern)?,
        })
    }

    /// Whether the pattern matches somewhere in the bytes.
    pub(crate) fn matches(&mut self, alloc: Global, bytes: &[u8]) -> Result<bool, NoMemory>
        ensures found { IfOk result (λ found. found ≡ matches self.old bytes.now) }
        ensures same { self.new ≡ self.old }
    {
        self.pattern.matches(alloc, bytes)
    }
}

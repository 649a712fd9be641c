ghost use Rattle.std.specs.Prelude.{◌≡◌, IfOk};
ghost use Rattle.patterns.specs.Matching.{matches};
ghost use Rattle.patterns.specs.Pattern.{IsLinePattern};

use crate::grammar::line_config;
use crate::matcher::Matcher;
use std::alloc::Global;
use std::marker::Model;
use wire_base::{NoMemory, Text};

/// A compiled pattern of lines, seen as its text. It keeps the states that its searches have reached, so that
/// one serves for many lines.
pub struct LinePattern {
    text: Text,
    matcher: Matcher,
}

impl Model for LinePattern {
    ghost use Rattle.std.specs.Prelude.{List, ℕ};
    ghost use Rattle.regex_meta.specs.Programs.{pattern_of};
    ghost use Rattle.patterns.specs.Matching.{IsReadAs};
    ghost use Rattle.patterns.specs.Pattern.{line_config};

    ghost Value = { List ℕ };

    ghost view = { λ p. p.text };

    ghost invariant = { λ p. ∥ IsReadAs line_config p.text (pattern_of p.matcher.program) ∥₁ };
}

impl LinePattern {
    /// Compiles the pattern. One that is too large when it is compiled is reported as out of memory.
    pub fn new(alloc: Global, text: &Text) -> Result<LinePattern, NoMemory>
        requires { IsLinePattern text.now }
        ensures { IfOk result (λ pattern. pattern ≡ text.now) }
    {
        let matcher = Matcher::new(alloc, text.as_str(), &line_config())?;
        let text = text.copy(alloc)?;
        Ok(LinePattern { text, matcher })
    }

    /// Whether the pattern matches somewhere in the bytes. Memory is wanted only if there are too many
    /// states to keep.
    pub fn matches(&mut self, alloc: Global, bytes: &[u8]) -> Result<bool, NoMemory>
        ensures found { IfOk result (λ found. found ≡ matches self.old bytes.now) }
        ensures same { self.new ≡ self.old }
    {
        self.matcher.finds(alloc, bytes)
    }
}

// Written out, so that a caller's proof sees one call and not the drop of each field.
impl Drop for LinePattern {
    fn drop(self) {
        let LinePattern {
            text: _text,
            matcher: _matcher,
        } = self;
    }
}

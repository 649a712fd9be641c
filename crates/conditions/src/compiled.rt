ghost use Rattle.std.specs.Prelude.{◌≡◌, IfOk};
ghost use Rattle.patterns.specs.Matching.{matches_text};
ghost use Rattle.patterns.specs.Pattern.{IsTextPattern};
ghost use Rattle.rules_in_range.specs.Conditions.{AreSome, IsPatternAt};

use event_tree::TextAt;
use patterns::TextPattern;
use std::alloc::Global;
use std::marker::Model;
use wire_base::{NoMemory, Text};

/// The text of a pattern, seen as that.
#[derive(Drop)]
pub(crate) struct PatternText {
    text: Text,
}

impl Model for PatternText {
    ghost use Rattle.std.specs.Prelude.{List, ℕ};
    ghost use Rattle.patterns.specs.Pattern.{IsTextPattern};

    ghost Value = { List ℕ };

    ghost view = { λ p. p.text };

    ghost invariant = { λ p. IsTextPattern p.text };
}

impl PatternText {
    pub fn of(alloc: Global, text: &Text) -> Result<PatternText, NoMemory>
        requires { IsTextPattern text.now }
        ensures { IfOk result (λ pattern. pattern ≡ text.now) }
    {
        let text = text.copy(alloc)?;
        Ok(PatternText { text })
    }
}

/// A compiled pattern, seen as its text.
#[derive(Drop)]
struct Compiled {
    text: Text,
    pattern: TextPattern,
}

impl Model for Compiled {
    ghost use Rattle.std.specs.Prelude.{◌≡◌, List, ℕ};

    ghost Value = { List ℕ };

    ghost view = { λ c. c.text };

    ghost invariant = { λ c. c.pattern ≡ c.text };
}

impl Compiled {
    fn of(alloc: Global, text: &Text) -> Result<Compiled, NoMemory>
        requires { IsTextPattern text.now }
        ensures { IfOk result (λ compiled. compiled ≡ text.now) }
    {
        let pattern = TextPattern::new(alloc, text)?;
        let text = text.copy(alloc)?;
        Ok(Compiled { text, pattern })
    }

    fn text(&self) -> &Text
        ensures { result.now ≡ self.now }
    {
        &self.text
    }

    fn matches(&mut self, alloc: Global, found: &Text) -> Result<bool, NoMemory>
        ensures matched { IfOk result (λ matched. matched ≡ matches_text self.old found.now) }
        ensures same { self.new ≡ self.old }
    {
        self.pattern.matches(alloc, found.as_str())
    }
}

/// The compiled patterns of a condition. They are kept apart from its levels, so that a search may keep the states that it
/// reached while the levels are only read.
#[derive(Drop)]
pub(crate) struct Patterns {
    compiled: Vec<Compiled>,
}

impl Patterns {
    pub fn new(alloc: Global) -> Patterns {
        Patterns {
            compiled: Vec::new(alloc),
        }
    }

    /// Compiles these patterns besides the others.
    pub fn compile(&mut self, alloc: Global, patterns: &[TextAt]) -> Result<(), NoMemory>
        requires { AreSome IsPatternAt patterns.now }
    {
        for one in patterns {
            self.compiled.push(Compiled::of(alloc, &one.text)?)?;
        }
        Ok(())
    }

    /// Whether the pattern matches in the text. The patterns of a condition were compiled when it was made; one that
    /// was not would be compiled here, once.
    pub fn matches(
        &mut self,
        alloc: Global,
        pattern: &PatternText,
        found: &Text,
    ) -> Result<bool, NoMemory>
        ensures { IfOk result (λ matched. matched ≡ matches_text pattern.now found.now) }
    {
        for compiled in self.compiled.iter_mut() {
            if *compiled.text() == pattern.text {
                return compiled.matches(alloc, found);
            }
        }
        let mut compiled = Compiled::of(alloc, &pattern.text)?;
        let matched = compiled.matches(alloc, found)?;
        self.compiled.push(compiled)?;
        Ok(matched)
    }
}

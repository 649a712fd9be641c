ghost use Rattle.std.specs.Prelude.{◌≡◌, IfOk};
ghost use Rattle.patterns.specs.Matching.{matches_text};
ghost use Rattle.patterns.specs.Pattern.{IsTextPattern};

use crate::grammar::text_config;
use crate::matcher::Matcher;
use std::alloc::Global;
use std::marker::Model;
use wire_base::{NoMemory, Text};

/// A compiled pattern of texts, seen as its text. It keeps the states that its searches have reached, so that
/// one serves for many texts.
pub struct TextPattern {
    text: Text,
    matcher: Matcher,
}

impl Model for TextPattern {
    ghost use Rattle.std.specs.Prelude.{List, ℕ};
    ghost use Rattle.regex.specs.Utf8.{MatchesText};
    ghost use Rattle.regex_meta.specs.Programs.{pattern_of};
    ghost use Rattle.patterns.specs.Matching.{IsReadAs};
    ghost use Rattle.patterns.specs.Pattern.{text_config};

    ghost Value = { List ℕ };

    ghost view = { λ p. p.text };

    ghost invariant = { λ p. ∥ IsReadAs text_config p.text (pattern_of p.matcher.program) ∥₁
        × MatchesText (pattern_of p.matcher.program) };
}

impl TextPattern {
    /// Compiles the pattern. One that is too large when it is compiled is reported as out of memory.
    pub fn new(alloc: Global, text: &Text) -> Result<TextPattern, NoMemory>
        requires { IsTextPattern text.now }
        ensures { IfOk result (λ pattern. pattern ≡ text.now) }
    {
        let matcher = Matcher::new(alloc, text.as_str(), &text_config())?;
        let text = text.copy(alloc)?;
        Ok(TextPattern { text, matcher })
    }

    /// Whether the pattern matches somewhere in the text. Memory is wanted only if there are too many
    /// states to keep, and if a match that may be empty, and so inside a character, is found after the
    /// text's first byte.
    pub fn matches(&mut self, alloc: Global, text: &str) -> Result<bool, NoMemory>
        ensures found { IfOk result (λ found. found ≡ matches_text self.old text.now) }
        ensures same { self.new ≡ self.old }
    {
        self.matcher.finds_in_text(alloc, text)
    }
}

// Written out, so that a caller's proof sees one call and not the drop of each field.
impl Drop for TextPattern {
    fn drop(self) {
        let TextPattern {
            text: _text,
            matcher: _matcher,
        } = self;
    }
}

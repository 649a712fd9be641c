ghost use Rattle.std.specs.Prelude.{◌≡◌, ◌≢◌, IsTrue, IfOk};
ghost use Rattle.regex_dfa.specs.Search.{IsForwardFor};
ghost use Rattle.regex_meta.specs.Programs.{pattern_of};
ghost use Rattle.regex.specs.Utf8.{MatchesText};
ghost use Rattle.regex.specs.Writes.{HasTextParts};
ghost use Rattle.patterns.specs.Matching.{is_found, is_found_in_text, IsReadAs};
ghost use Rattle.patterns.specs.Pattern.{is_pattern};

use crate::grammar::read;
use regex_compile::Error;
use regex_dfa::{End, Forward};
use regex_meta::{Program, Searcher};
use regex_syntax::Config;
use std::alloc::Global;
use wire_base::NoMemory;

/// The most bytes of a compiled pattern, as `regex` has it.
const SIZE_LIMIT: usize = 10 << 20;

/// A compiled pattern with the states that its searches have reached. A matcher of `regex` borrows its pattern,
/// so that no value can own both; these parts of it do not.
pub(crate) struct Matcher {
    program: Program,
    forward: Forward,
    ghost own: { IsForwardFor forward program.dfa },
}

impl Matcher {
    /// Compiles a pattern. One that is too large for it is reported as out of memory.
    pub fn new(alloc: Global, text: &str, config: &Config) -> Result<Matcher, NoMemory>
        requires { IsTrue (is_pattern config.now text.now) }
        ensures tree { IfOk result (λ m. IsReadAs config.now text.now (pattern_of m.program)) }
        ensures whole_characters { IsTrue config.now.utf8 →
            IfOk result (λ m. HasTextParts (pattern_of m.program)) }
    {
        let Some(parsed) = read(alloc, text, config)? else {
            unreachable!()
        };
        let Ok(groups) = u32::try_from(parsed.names.len()) else {
            return Err(NoMemory);
        };
        let program = match Program::new(alloc, parsed.hir, groups, SIZE_LIMIT) {
            Ok(program) => program,
            Err(error) => return Err(want_of(error)),
        };
        let forward = Forward::new(alloc, &program.dfa, false)?;
        Ok(Matcher { program, forward })
    }

    /// Whether the tree is found somewhere in the bytes. Memory is wanted only if there are too many
    /// states to keep.
    pub fn finds(&mut self, alloc: Global, bytes: &[u8]) -> Result<bool, NoMemory>
        ensures found { IfOk result (λ found.
            found ≡ is_found (pattern_of self.old.program) bytes.now) }
        ensures same { pattern_of self.new.program ≡ pattern_of self.old.program }
    {
        match self
            .forward
            .find_end(&self.program.dfa, bytes, 0, bytes.len(), false, true)
        {
            End::At(_) => Ok(true),
            End::NoMatch => Ok(false),
            End::Idle(_) | End::GaveUp => {
                let mut searcher = Searcher::new(alloc, &self.program)?;
                Ok(searcher.is_match(bytes, 0))
            }
        }
    }

    /// The same in a text. Memory is wanted, too, if the tree is found and may match no byte, and is not
    /// known to match where the text begins.
    pub fn finds_in_text(&mut self, alloc: Global, text: &str) -> Result<bool, NoMemory>
        requires { MatchesText (pattern_of self.old.program) }
        ensures found { IfOk result (λ found.
            found ≡ is_found_in_text (pattern_of self.old.program) text.now) }
        ensures same { pattern_of self.new.program ≡ pattern_of self.old.program }
    {
        if !self.finds(alloc, text.as_bytes())? {
            return Ok(false);
        }
        if self.program.min_len > 0 {
            return Ok(true);
        }
        if self.begins(text) {
            return Ok(true);
        }
        self.starts_between_characters(alloc, text)
    }

    /// Whether a match is known to begin where the text does.
    fn begins(&mut self, text: &str) -> bool
        ensures found { IsTrue result →
            IsTrue (is_found_in_text (pattern_of self.old.program) text.now) }
        ensures same { pattern_of self.new.program ≡ pattern_of self.old.program }
    {
        let bytes = text.as_bytes();
        let end = self
            .forward
            .find_end(&self.program.dfa, bytes, 0, bytes.len(), true, true);
        matches!(end, End::At(_))
    }

    fn starts_between_characters(&self, alloc: Global, text: &str) -> Result<bool, NoMemory>
        ensures { IfOk result (λ found.
            found ≡ is_found_in_text (pattern_of self.now.program) text.now) }
    {
        let mut searcher = Searcher::new(alloc, &self.program)?;
        let mut place = 0;
        while let Some(span) = searcher.find(text.as_bytes(), place) {
            if text.is_char_boundary(span.0) {
                return Ok(true);
            }
            place = span.0 + 1;
        }
        Ok(false)
    }
}

/// What the grammar reads is never malformed.
fn want_of(error: Error) -> NoMemory
    requires { error ≢ Error.Malformed }
{
    match error {
        Error::TooBig | Error::OutOfMemory => NoMemory,
        Error::Malformed => unreachable!(),
    }
}

// Written out, so that a caller's proof sees one call and not the drop of each field.
impl Drop for Matcher {
    fn drop(self) {
        let Matcher {
            program: _program,
            forward: _forward,
        } = self;
    }
}

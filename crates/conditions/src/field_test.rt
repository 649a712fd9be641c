ghost use Rattle.std.specs.Prelude.{◌≡◌, IfOk};
ghost use Rattle.event_tree.specs.Tree.{value_of};
ghost use Rattle.conditions.specs.Asked.{is_matched};
ghost use Rattle.conditions.specs.Tests.{is_passed, value_passes};

use crate::compiled::{PatternText, Patterns};
use crate::limits::Limits;
use crate::scalar::Scalar;
use crate::within::has_text;
use event_tree::{FieldPath, Tree};
use std::alloc::Global;
use wire_base::{NoMemory, Text};

/// What is asked of the value at a field path.
#[derive(Drop)]
pub(crate) struct FieldTest {
    pub path: FieldPath,
    pub test: Test,
}

#[derive(Drop)]
pub(crate) enum Test {
    Same(Scalar),
    HasText(Text),
    Matched(PatternText),
    Between(Limits),
    There,
}

impl FieldTest {
    /// Whether there is a value at the path and it passes.
    pub fn passes(
        &self,
        alloc: Global,
        patterns: &mut Patterns,
        tree: &Tree,
    ) -> Result<bool, NoMemory>
        ensures { IfOk result (λ passed. passed ≡ is_passed self.now (value_of tree.now)) }
    {
        match tree.get(&self.path) {
            None => Ok(false),
            Some(value) => self.test.passes(alloc, patterns, value),
        }
    }
}

impl Test {
    fn passes(&self, alloc: Global, patterns: &mut Patterns, value: &Tree) -> Result<bool, NoMemory>
        ensures { IfOk result (λ passed. passed ≡ value_passes self.now (value_of value.now)) }
    {
        match self {
            Test::Same(wanted) => Ok(wanted.equals(value)),
            Test::HasText(text) => Ok(has_text(text, value)),
            Test::Matched(pattern) => is_matched(alloc, pattern, patterns, value),
            Test::Between(limits) => Ok(limits.hold(value)),
            Test::There => Ok(true),
        }
    }
}

fn is_matched(
    alloc: Global,
    pattern: &PatternText,
    patterns: &mut Patterns,
    value: &Tree,
) -> Result<bool, NoMemory>
    ensures { IfOk result (λ matched. matched ≡ is_matched pattern.now (value_of value.now)) }
{
    match value {
        Tree::Str(text) => patterns.matches(alloc, pattern, text),
        _ => Ok(false),
    }
}

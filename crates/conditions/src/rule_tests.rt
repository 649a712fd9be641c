ghost use Rattle.std.specs.Prelude.{◌≡◌, All, map, IfOk};
ghost use Rattle.event_tree.specs.Parts.{parts_of};
ghost use Rattle.event_tree.specs.Tree.{value_of};
ghost use Rattle.rules_in_range.specs.Conditions.{IsFieldPath, IsScalar, IsScalarAt, IsTextAt, IsPatternAt, AreBoundsAt, AreSome};
ghost use Rattle.conditions.specs.Scalars.{scalar_of};
ghost use Rattle.conditions.specs.Tests.{equality_test, text_test, pattern_test, bounds_test, presence_test};

use crate::compiled::PatternText;
use crate::field_test::{FieldTest, Test};
use crate::limits::Limits;
use crate::scalar::Scalar;
use event_tree::{Bounds, FieldPath, Fields, PathError, TextAt, Tree};
use std::alloc::Global;
use wire_base::{NoMemory, Text};

/// The tests of `equals`.
pub(crate) fn equality_tests(alloc: Global, pairs: &Fields) -> Result<Vec<FieldTest>, NoMemory>
    requires { AreSome IsScalarAt pairs.now }
    ensures { IfOk result (λ tests. tests.items ≡ map equality_test pairs.now) }
{
    let mut tests = Vec::with_capacity(alloc, pairs.len())?;
    for i in 0..pairs.len() {
        let (key, value) = pairs.at(i);
        tests.push(equality_test(alloc, key, value)?)?;
    }
    Ok(tests)
}

fn equality_test(alloc: Global, key: &Text, value: &Tree) -> Result<FieldTest, NoMemory>
    requires path { IsFieldPath key.now }
    requires scalar { IsScalar (value_of value.now) }
    ensures { IfOk result (λ test. test ≡ equality_test (key.now, value_of value.now)) }
{
    let path = path_of(alloc, key)?;
    let test = Test::Same(Scalar::of(alloc, value)?);
    Ok(FieldTest { path, test })
}

/// The tests of `contains`.
pub(crate) fn text_tests(alloc: Global, texts: &[TextAt]) -> Result<Vec<FieldTest>, NoMemory>
    requires { AreSome IsTextAt texts.now }
    ensures { IfOk result (λ tests. tests.items ≡ map text_test texts.now) }
{
    let mut tests = Vec::with_capacity(alloc, texts.len())?;
    for one in texts {
        let path = path_of(alloc, &one.path)?;
        let test = Test::HasText(one.text.copy(alloc)?);
        tests.push(FieldTest { path, test })?;
    }
    Ok(tests)
}

/// The tests of `regexp`.
pub(crate) fn pattern_tests(alloc: Global, patterns: &[TextAt]) -> Result<Vec<FieldTest>, NoMemory>
    requires { AreSome IsPatternAt patterns.now }
    ensures { IfOk result (λ tests. tests.items ≡ map pattern_test patterns.now) }
{
    let mut tests = Vec::with_capacity(alloc, patterns.len())?;
    for one in patterns {
        let path = path_of(alloc, &one.path)?;
        let test = Test::Matched(PatternText::of(alloc, &one.text)?);
        tests.push(FieldTest { path, test })?;
    }
    Ok(tests)
}

/// The tests of `range`.
pub(crate) fn bounds_tests(alloc: Global, ranges: &[Bounds]) -> Result<Vec<FieldTest>, NoMemory>
    requires { AreSome AreBoundsAt ranges.now }
    ensures { IfOk result (λ tests. tests.items ≡ map bounds_test ranges.now) }
{
    let mut tests = Vec::with_capacity(alloc, ranges.len())?;
    for bounds in ranges {
        let path = path_of(alloc, &bounds.path)?;
        let test = Test::Between(Limits::of(bounds));
        tests.push(FieldTest { path, test })?;
    }
    Ok(tests)
}

/// The tests of `has_fields`.
pub(crate) fn presence_tests(alloc: Global, paths: &[Text]) -> Result<Vec<FieldTest>, NoMemory>
    requires { AreSome IsFieldPath paths.now }
    ensures { IfOk result (λ tests. tests.items ≡ map presence_test paths.now) }
{
    let mut tests = Vec::with_capacity(alloc, paths.len())?;
    for path in paths {
        let path = path_of(alloc, path)?;
        let test = Test::There;
        tests.push(FieldTest { path, test })?;
    }
    Ok(tests)
}

/// The path that settings gave, whose form was looked at there.
fn path_of(alloc: Global, text: &Text) -> Result<FieldPath, NoMemory>
    requires { IsFieldPath text.now }
    ensures { IfOk result (λ path. path ≡ parts_of text.now) }
{
    match FieldPath::read(alloc, text) {
        Ok(path) => Ok(path),
        Err(PathError::NoMemory) => Err(NoMemory),
        Err(PathError::EmptyPart { .. }) => unreachable!(),
    }
}

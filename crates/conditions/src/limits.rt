ghost use Rattle.std.specs.Prelude.{◌≡◌, int_le, int_lt};
ghost use Rattle.event_tree.specs.Tree.{value_of};
ghost use Rattle.conditions.specs.Asked.{keeps};
ghost use Rattle.conditions.specs.Tests.{are_kept, limits_of, value_passes};

use crate::field_test::Test;
use event_tree::{Bounds, Tree};

/// The bounds of a whole number, each if it is given.
#[derive(Clone, Copy)]
pub(crate) struct Limits {
    pub lt: Option<i64>,
    pub lte: Option<i64>,
    pub gt: Option<i64>,
    pub gte: Option<i64>,
}

impl Limits {
    pub fn of(bounds: &Bounds) -> Limits
        ensures { result ≡ limits_of bounds.now }
    {
        Limits {
            lt: bounds.lt,
            lte: bounds.lte,
            gt: bounds.gt,
            gte: bounds.gte,
        }
    }

    /// Whether the value is a whole number that keeps each bound.
    pub fn hold(&self, value: &Tree) -> bool
        ensures { result ≡ value_passes (Test.Between self.now) (value_of value.now) }
    {
        match value {
            Tree::Int(number) => self.are_kept(*number),
            _ => false,
        }
    }

    fn are_kept(&self, number: i64) -> bool
        ensures { result ≡ are_kept self.now number }
    {
        is_below(number, self.lt)
            && is_at_most(number, self.lte)
            && is_above(number, self.gt)
            && is_at_least(number, self.gte)
    }
}

fn is_below(number: i64, bound: Option<i64>) -> bool
    ensures { result ≡ keeps (λ bound. int_lt number bound) bound }
{
    match bound {
        None => true,
        Some(bound) => number < bound,
    }
}

fn is_at_most(number: i64, bound: Option<i64>) -> bool
    ensures { result ≡ keeps (λ bound. int_le number bound) bound }
{
    match bound {
        None => true,
        Some(bound) => number <= bound,
    }
}

fn is_above(number: i64, bound: Option<i64>) -> bool
    ensures { result ≡ keeps (λ bound. int_lt bound number) bound }
{
    match bound {
        None => true,
        Some(bound) => bound < number,
    }
}

fn is_at_least(number: i64, bound: Option<i64>) -> bool
    ensures { result ≡ keeps (λ bound. int_le bound number) bound }
{
    match bound {
        None => true,
        Some(bound) => bound <= number,
    }
}

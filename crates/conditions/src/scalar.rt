ghost use Rattle.std.specs.Prelude.{◌≡◌, IfOk};
ghost use Rattle.event_tree.specs.Tree.{value_of};
ghost use Rattle.rules_in_range.specs.Conditions.{IsScalar};
ghost use Rattle.conditions.specs.Scalars.{is_same_scalar, scalar_of};

use event_tree::Tree;
use std::alloc::Global;
use wire_base::{NoMemory, Text};

/// What `equals` can ask for.
#[derive(Drop)]
pub(crate) enum Scalar {
    Flag(bool),
    Int(i64),
    Str(Text),
}

impl Scalar {
    pub fn of(alloc: Global, value: &Tree) -> Result<Scalar, NoMemory>
        requires { IsScalar (value_of value.now) }
        ensures { IfOk result (λ scalar. scalar ≡ scalar_of (value_of value.now)) }
    {
        match value {
            Tree::Flag(truth) => Ok(Scalar::Flag(*truth)),
            Tree::Int(number) => Ok(Scalar::Int(*number)),
            Tree::Str(text) => Ok(Scalar::Str(text.copy(alloc)?)),
            Tree::Null | Tree::List(_) | Tree::Map(_) => unreachable!(),
        }
    }

    /// Whether the value is exactly this one.
    pub fn equals(&self, value: &Tree) -> bool
        ensures { result ≡ is_same_scalar self.now (value_of value.now) }
    {
        match self {
            Scalar::Flag(wanted) => is_flag(*wanted, value),
            Scalar::Int(wanted) => is_number(*wanted, value),
            Scalar::Str(wanted) => is_text(wanted, value),
        }
    }
}

fn is_flag(wanted: bool, value: &Tree) -> bool
    ensures { result ≡ is_same_scalar (Scalar.Flag wanted) (value_of value.now) }
{
    match value {
        Tree::Flag(truth) => wanted == *truth,
        _ => false,
    }
}

fn is_number(wanted: i64, value: &Tree) -> bool
    ensures { result ≡ is_same_scalar (Scalar.Int wanted) (value_of value.now) }
{
    match value {
        Tree::Int(number) => wanted == *number,
        _ => false,
    }
}

fn is_text(wanted: &Text, value: &Tree) -> bool
    ensures { result ≡ is_same_scalar (Scalar.Str wanted.now) (value_of value.now) }
{
    match value {
        Tree::Str(text) => wanted == text,
        _ => false,
    }
}

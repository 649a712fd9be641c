use std::marker::Model;
use wire_base::Span;

/// The parts of a joined line by their places, in order; there is at least one.
///
/// A line that is whole by itself takes no memory for them.
#[derive(Debug, Drop)]
pub struct Spans {
    earlier: Vec<Span>,
    last: Span,
}

impl Model for Spans {
    ghost use Rattle.std.specs.Prelude.{List, [], ◌∷◌, ◌++◌};
    ghost use Rattle.wire_base.specs.Extent.{Extent};

    ghost Value = { List Extent };

    ghost view = { λ s. s.earlier.items ++ s.last ∷ [] };
}

impl Spans {
    ghost use Rattle.std.specs.Prelude.{◌≡◌, ◌<◌, [], ◌∷◌, ◌++◌, Some, slice_get, length};

    pub(crate) fn new(earlier: Vec<Span>, last: Span) -> Spans
        ensures { result ≡ earlier.items ++ last ∷ [] }
    {
        Spans { earlier, last }
    }

    pub fn len(&self) -> usize
        ensures { result ≡ length self.now }
    {
        self.earlier.len() + 1
    }

    pub fn at(&self, i: usize) -> Span
        requires { i < length self.now }
        ensures { slice_get self.now i ≡ Some result }
    {
        if i < self.earlier.len() {
            self.earlier[i]
        } else {
            self.last
        }
    }
}

ghost use Rattle.std.specs.Prelude.{◌≡◌, ◌<◌, ◌≤◌, IfSome, IfNone};

use std::marker::Model;

/// Bytes of a file from `start` up to `end` without `end`; there is at least one.
#[derive(Clone, Copy, Debug, PartialEq, Eq, PartialOrd, Ord, Hash)]
pub struct Span {
    start: u64,
    end: u64,
}

impl Model for Span {
    ghost use Rattle.std.specs.Prelude.{◌<◌};
    ghost use Rattle.wire_base.specs.Extent.{Extent};

    ghost Value = { Extent };

    ghost view = { λ s. record { start = s.start; end = s.end } };

    ghost invariant = { λ s. s.start < s.end };

    ghost inverse = { λ e. record { start = e.start; end = e.end } };
}

impl Span {
    /// `None` exactly if `start >= end`.
    pub fn new(start: u64, end: u64) -> Option<Span>
        ensures spans { IfSome result (λ span. (span.start ≡ start) × (span.end ≡ end) × (start < end)) }
        ensures none_where_empty { IfNone result (end ≤ start) }
    {
        if start < end {
            Some(Span { start, end })
        } else {
            None
        }
    }

    pub fn start(&self) -> u64
        ensures start { result ≡ self.now.start }
        ensures before_the_end { result < self.now.end }
    {
        self.start
    }

    pub fn end(&self) -> u64
        ensures { result ≡ self.now.end }
    {
        self.end
    }
}

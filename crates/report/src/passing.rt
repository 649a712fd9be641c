ghost use Rattle.std.specs.Prelude.{◌≡◌};
ghost use Rattle.report.specs.Passings.{compare_passings, why_text};

use std::cmp::Ordering;
use wire_base::Text;

/// Why a path was skipped.
#[derive(Clone, Copy, Debug, PartialEq, Eq)]
pub enum Why {
    /// An earlier path led to the same file.
    Doubled,
    /// It was listed and then not found.
    Gone,
    /// The file that was opened is not the one that was listed.
    Moved,
    /// It was changed too long ago for `ignore_older`.
    Old,
    /// It is shorter than the bytes that its identity is made of.
    Small,
}

impl Why {
    pub(crate) fn name(self) -> &'static [u8]
        ensures { result.now ≡ why_text self }
    {
        match self {
            Why::Doubled => b"doubled",
            Why::Gone => b"gone",
            Why::Moved => b"moved",
            Why::Old => b"old",
            Why::Small => b"small",
        }
    }
}

/// A path that was skipped in the last scan.
#[derive(Debug, Drop, PartialEq, Eq)]
pub struct Passing {
    pub path: Text,
    pub why: Why,
}

impl Passing {
    /// Byte order of the paths, and for one path of the reasons' names.
    pub(crate) fn order(&self, other: &Passing) -> Ordering
        ensures { result ≡ compare_passings self.now other.now }
    {
        let by_reasons = self.why.name().cmp(other.why.name());
        self.path.cmp(&other.path).then(by_reasons)
    }
}

ghost use Rattle.std.specs.Prelude.{◌↔◌, IsTrue};
ghost use Rattle.findings.specs.Counting.{Counts, IsOf};

use crate::globs::GlobAsked;
use prospect::Listed;

/// How many of the listed files are of the glob's input and covered by the glob.
pub(crate) fn count_of(asked: &GlobAsked, listed: &[Listed]) -> u64
    ensures { Counts asked.now listed.now result }
{
    let mut count = 0u64;
    for one in listed {
        if is_of(asked, one) {
            count += 1;
        }
    }
    count
}

fn is_of(asked: &GlobAsked, one: &Listed) -> bool
    ensures { IsTrue result ↔ IsOf asked.now one.now }
{
    one.input as usize == asked.input && asked.glob.covers(one.path.bytes())
}

//! Files of a lane.
ghost use Rattle.std.specs.Prelude.{IfOk};
ghost use Rattle.lanes.specs.Turned.{IsKnown};

use crate::tests::harvesters::rules::{Group, KEY, LIMIT, begin, input};
use crate::tests::harvesters::tail::Look;
use event_tree::IdentityRule;
use harvester::Harvester;
use outside::Tail;
use std::alloc::Global;
use wire_base::Moment;

/// A file, of the slot of its place in its row: what looks at it find, and whether it is to be forgotten at its end.
pub type File = (&'static [Look<'static>], bool);

/// Opens the file at moment 0.
pub fn open<T: Tail>(alloc: Global, slot: u32, tail: T, forgets: bool) -> Result<Harvester<T>, T>
    ensures { IfOk result (IsKnown T.numbers T.told) }
{
    let (Ok(rule), Ok(begin)) = (
        input(alloc, IdentityRule::Path, Group::Single, LIMIT),
        begin(alloc, slot, KEY, 0),
    ) else {
        return Err(tail);
    };
    match Harvester::open(alloc, &rule, &[], begin, tail, Moment(0)) {
        Ok(harvester) => Ok(marked(harvester, forgets)),
        Err(back) => Err(back),
    }
}

/// It is to be forgotten at its end, or not.
fn marked<T: Tail>(mut harvester: Harvester<T>, forgets: bool) -> Harvester<T>
    requires { IsKnown T.numbers T.told harvester }
    ensures { IsKnown T.numbers T.told result }
{
    if !forgets {
        return harvester;
    }
    harvester.ending(true);
    harvester
}

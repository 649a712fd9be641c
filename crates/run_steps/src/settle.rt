ghost use Rattle.rounds.specs.Crewing.{crewing};
ghost use Rattle.rounds.specs.WordsOf.{tails_of, words_of};
ghost use Rattle.run_steps.specs.LastSteps.{LastSteps, StoresAll};
ghost use Rattle.run_steps.specs.Readiness.{IsReadyIn};
ghost use Rattle.run_steps.specs.Settling.{IsStoredAs};

use crate::context::Context;
use crate::laws::disk_images_are_counted;
use crate::met::Met;
use outside::{Disk, Link, Tail, Wire};
use rounds::{Crew, Round, Storing};
use std::sync::Wait;

/// Hands on and stores what was noted and settled, until nothing of it is left. What ends that, if something does. If there is
/// nothing to store, no disk is called. Takes as long as the disk does.
pub fn store_all<T: Tail + Send, L: Link + Send, W: Wire<Link = L> + Send, D: Disk + Send, R: Wait>(
    rt: &R,
    context: Context<'_, '_>,
    crew: &mut Crew<T, W, L>,
    storing: &mut Storing<'_, D>,
) -> Option<Met>
    requires ready { IsReadyIn (tails_of T.Tail) context (crewing crew.old storing.old) }
    ensures { StoresAll (words_of T.Tail L.Link W.Wire D.Disk) context.entry result
        (crewing crew.old storing.old) (crewing crew.new storing.new) }
{
    disk_images_are_counted::<D>();
    for _ in rt.forever() {
        let round = crew.settle(rt, context.alloc, context.outlets, storing);
        if let Some(met) = stored_by(round) {
            return Some(met);
        }
        if crew.is_settled(storing.keeper) {
            return None;
        }
    }
    unreachable!()
}

/// The last steps: store the rest. What they hit takes the place of what the run hit. Takes as long as the disk does.
pub fn settle_all<
    T: Tail + Send,
    L: Link + Send,
    W: Wire<Link = L> + Send,
    D: Disk + Send,
    R: Wait,
>(
    rt: &R,
    context: Context<'_, '_>,
    met: Met,
    crew: &mut Crew<T, W, L>,
    storing: &mut Storing<'_, D>,
) -> Met
    requires ready { IsReadyIn (tails_of T.Tail) context (crewing crew.old storing.old) }
    ensures { LastSteps (words_of T.Tail L.Link W.Wire D.Disk) context.entry met result
        (crewing crew.old storing.old) (crewing crew.new storing.new) }
{
    match store_all(rt, context, crew, storing) {
        Some(now) => now,
        None => met,
    }
}

/// What ends the storing before all is stored.
fn stored_by(round: Round) -> Option<Met>
    ensures { IsStoredAs round result }
{
    if round.memory {
        return Some(Met::NoMemory);
    }
    if round.disk {
        return Some(Met::DiskFault);
    }
    None
}

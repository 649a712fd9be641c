ghost use Rattle.std.specs.Prelude.{◌≡◌, ◌-◌, ◌^◌, ◌≤◌, IfNone, IfSome, length};
ghost use Rattle.run_steps.specs.MetIn.{HasFailed, IsMetIn, NoneFailed, met_behind};

use crate::met::Met;
use keeper::Keeper;
use outside::{Clock, Link, Tail, Wire};
use rounds::{Carrier, Crew, Round};

/// How long the clock pauses after a round in which nothing moved, in milliseconds.
pub const PAUSE_MS: u64 = 100;

/// Lets the clock pause if the round ended nothing and moved nothing, and no file is closed after it.
pub fn pause_where_still<K: Clock>(met: Option<Met>, round: Round, clock: &mut K)
    ensures moments_kept { K.moments clock.new ≡ K.moments clock.old }
    ensures not_asked { K.questions clock.new ≡ K.questions clock.old }
    ensures faults_never_fall { K.faults clock.old ≤ K.faults clock.new }
{
    if met.is_none() && !round.moved && round.tail_faults == 0 {
        clock.pause(PAUSE_MS);
    }
}

/// What ends the run in this round. If the round hit several causes it is the first in this order: no memory, a disk's fault,
/// a last epoch, a worker that failed `attempts` times in a row, and that all is done, if files are read `once`. A file's read fault
/// ends no run by itself.
pub fn met_in<T: Tail, L: Link, W: Wire<Link = L>>(
    once: bool,
    attempts: u32,
    crew: &Crew<T, W, L>,
    keeper: &Keeper,
    round: Round,
) -> Option<Met>
    requires few { length crew.now.carriers.items ≤ 2 ^ 32 - 1 }
    ensures { IsMetIn once attempts crew.now keeper.now round result }
{
    if round.memory {
        return Some(Met::NoMemory);
    }
    if round.disk {
        return Some(Met::DiskFault);
    }
    if let Some(slot) = round.epochs {
        return Some(Met::Epochs(slot));
    }
    if let Some(worker) = unreachable_in(crew.carriers.as_slice(), attempts) {
        return Some(Met::Unreachable(worker));
    }
    if !once {
        return None;
    }
    if !round.moved && crew.is_done(keeper) {
        return Some(Met::Done);
    }
    None
}

/// The cause that ends a run by this: a file's fault, if some file hit one, unless memory or a disk failed.
pub fn met_behind(faulty: bool, met: Met) -> Met
    ensures { result ≡ met_behind faulty met }
{
    match met {
        Met::NoMemory | Met::DiskFault => met,
        _ => { if faulty { Met::FolderFault } else { met } }
    }
}

/// The first worker that failed so often in a row.
fn unreachable_in<L: Link, W: Wire<Link = L>>(
    carriers: &[Carrier<W, L>],
    attempts: u32,
) -> Option<u32>
    requires few { length carriers.now ≤ 2 ^ 32 - 1 }
    ensures failed { IfSome result (HasFailed attempts carriers.now) }
    ensures none { IfNone result (NoneFailed attempts carriers.now) }
{
    let mut number = 0_u32;
    'workers: while (number as usize) < carriers.len() {
        if carriers[number as usize].worker.failures() >= attempts {
            return Some(number);
        }
        number += 1;
    }
    None
}

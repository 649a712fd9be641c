ghost use Rattle.std.specs.Prelude.{◌≡◌, ◌⊎◌, ◌+◌, ◌-◌, ◌^◌, ◌<◌, ◌≤◌, ℕ, IfOk, List, [], Option, Result, Some, false, length, vec_capacity, vec_len};
ghost use Rattle.keeper.specs.Collecting.{Collects};
ghost use Rattle.outside.specs.Counts.{Rose};
ghost use Rattle.outside.specs.Folders.{Event};
ghost use Rattle.rounds.specs.Crewed.{lanings};
ghost use Rattle.rounds.specs.Crewing.{crewing};
ghost use Rattle.rounds.specs.KeeperTurns.{SameObjects, StillTell};
ghost use Rattle.run_steps.specs.Areas.{BeganAtRest, IsAtRest};
ghost use Rattle.run_steps.specs.Began.{Began};
ghost use Rattle.run_steps.specs.CarriersFail.{AreFailing, FailedAsMet, sending};
ghost use Rattle.run_steps.specs.CarriersGoOn.{WiresReturn};
ghost use Rattle.run_steps.specs.ClockOn.{MomentsGoOn};
ghost use Rattle.run_steps.specs.Goes.{Goes, step_words, stop_at};
ghost use Rattle.run_steps.specs.LastSteps.{LastSteps};
ghost use Rattle.run_steps.specs.Lent.{ending_of, tolls_of};
ghost use Rattle.run_steps.specs.Looking.{HoldNothing, LooksByNow, LooksSince, asked_at};
ghost use Rattle.run_steps.specs.Met.{AreLeft, IsTelling};
ghost use Rattle.run_steps.specs.MetBy.{since_of};
ghost use Rattle.run_steps.specs.MetIn.{NoneFailed};
ghost use Rattle.run_steps.specs.Onward.{BeganBy, rules_of};
ghost use Rattle.run_steps.specs.Questions.{AsksOn, questions_of};
ghost use Rattle.run_steps.specs.Readiness.{IsAbleIn, IsReadyIn};
ghost use Rattle.run_steps.specs.Releasing.{harvesters_of, with_events};
ghost use Rattle.run_steps.specs.RunEnds.{HasEnded};
ghost use Rattle.run_steps.specs.RunState.{Phase, within};
ghost use Rattle.run_steps.specs.SoFar.{SoFar};
ghost use Rattle.run_steps.specs.Stands.{Stands};
ghost use Rattle.rounds.specs.WordsOf.{disks_of, links_of, tails_of, wires_of, words_of};
ghost use Rattle.run_steps.specs.Worked.{AreAllBegun, HasPassed, IsBegunWith, IsFollowedBy, IsWorkedBy, NeverFall, phase_begun, phase_worked};
ghost use Rattle.run_steps.specs.declared.met.Met.TheVariants.{Stopped};

use crate::begin_error::BeginError;
use crate::beginning::BegunFiles;
use crate::context::{Context, Surroundings, System};
use crate::leave::{close_all, end_crew};
use crate::met::Met;
use crate::reading::store_and_follow;
use crate::settle::settle_all;
use outside::{Bell, Clock, Disk, Folder, Link, Tail, Wire};
use report::Passing;
use rounds::{Crew, Storing};
use std::sync::Wait;
use std::thread::Threads;

/// What a run has done and found.
#[derive(Drop)]
pub struct Worked {
    /// The paths that were skipped as files were opened, each with why.
    pub passed: Vec<Passing>,
    pub met: Met,
}

/// Rounds until one ends the run, and the last steps; then all files, lanes and workers are released, and the wires are in their
/// order. What ended the beginning of files ends the run before a round; a fault of a file ends it once the others are read. Takes as long as the files, the peers and the disk do.
pub fn work<
    X: Threads + Wait + Sync,
    F: Folder,
    L: Link + Send,
    W: Wire<Link = L> + Send,
    D: Disk + Send,
    K: Clock,
    B: Bell,
>(
    rt: &X,
    context: Context<'_, '_>,
    begun: Result<BegunFiles, BeginError>,
    mut crew: Crew<F::Tail, W, L>,
    storing: &mut Storing<'_, D>,
    around: &mut Surroundings<F, W, K, B>,
) -> Worked
where
    F::Tail: Send,
    requires ready { IsReadyIn (tails_of F.Tail.Tail) context (crewing crew storing.old) }
    requires few { length crew.carriers.items ≤ 2 ^ 32 - 1 }
    requires room { vec_len crew.carriers + vec_len around.old.wires.now
        ≤ vec_capacity around.old.wires.now }
    // What was known of the run as its files were begun is known at the end, and by it the run is accounted for.
    ensures ends { (start : Began D) (so_far : SoFar) →
        let all = words_of F.Tail.Tail L.Link W.Wire D.Disk in
        let shown = F.told around.old.folder.now in
        let moments = K.moments around.old.clock.now in
        BeganBy (rules_of context.entry) start →
        Stands all start (within shown moments crew storing.old (phase_begun begun)) so_far →
        (BeganAtRest all.disks start →
        IsAtRest all.disks storing.old.keeper.now storing.old.a.now storing.old.b.now) →
        (phase : Phase) × HasEnded all start
        (ending_of F.Folder K.Clock storing.new around.new phase) result.met
        around.old.wires.now.items around.new.wires.now.items }
    // A run that was stopped after two questions of its bell has asked some file for its length,
    // if it follows one.
    ensures looked { (start : Began D) (so_far : SoFar) →
        let all = words_of F.Tail.Tail L.Link W.Wire D.Disk in
        let shown = F.told around.old.folder.now in
        let moments = K.moments around.old.clock.now in
        BeganBy (rules_of context.entry) start →
        Stands all start (within shown moments crew storing.old (phase_begun begun)) so_far →
        (BeganAtRest all.disks start →
        IsAtRest all.disks storing.old.keeper.now storing.old.a.now storing.old.b.now) →
        HoldNothing (lanings crew.lanes.items) → result.met ≡ Stopped →
        B.questions around.old.bell.now + 2 ≤ B.questions around.new.bell.now →
        (harvesters_of (lanings crew.lanes.items) ≡ [])
        ⊎ LooksSince start.shown (F.told around.new.folder.now) }
    // The folder's list grows.
    ensures told { (events : List Event) ×
        (F.told around.new.folder.now ≡ with_events events (F.told around.old.folder.now)) }
    ensures open_tails { F.open_tails around.new.folder.now
        ≡ F.open_tails around.old.folder.now - length (harvesters_of (lanings crew.lanes.items)) }
    ensures as_many_wires { length around.new.wires.now.items
        ≡ length crew.carriers.items + length around.old.wires.now.items }
    ensures clock_goes_on { MomentsGoOn (K.moments around.old.clock.now)
        (K.moments around.new.clock.now) }
    // A report is given only if no file failed as it was begun.
    ensures told_only_where_begun { IsTelling result.met → AreAllBegun begun }
    ensures is_open { AreLeft result.met → storing.new.keeper.now.store.closed ≡ false }
    ensures passed { HasPassed begun result.passed.items }
    ensures cause { IsBegunWith begun result.met ⊎ IsWorkedBy crew
        (tolls_of F.Folder D.Disk B.Bell storing.old around.old)
        (tolls_of F.Folder D.Disk B.Bell storing.new around.new) result.met }
    // A worker that is called unreachable failed as often in a row as it may.
    ensures failing { (timeout earlier : ℕ) (starts : List (Option ℕ)) →
        let attempts = context.entry.settings.now.output.attempts in
        0 < timeout → NoneFailed attempts crew.carriers.items →
        AreFailing (links_of L.Link) (wires_of W.Wire) attempts timeout earlier starts
        (sending (K.moments around.old.clock.now) crew.carriers.items) →
        FailedAsMet (wires_of W.Wire) attempts timeout earlier starts
        (K.moments around.new.clock.now) around.new.wires.now.items result.met }
    // The workers' wires come back, each without an open link of its worker.
    ensures wires_return { WiresReturn (wires_of W.Wire)
        crew.carriers.items around.old.wires.now.items around.new.wires.now.items }
    ensures never_fall { NeverFall
        (tolls_of F.Folder D.Disk B.Bell storing.old around.old)
        (tolls_of F.Folder D.Disk B.Bell storing.new around.new) }
    ensures asks { AsksOn 1
        (questions_of K.Clock B.Bell around.old.clock.now around.old.bell.now)
        (questions_of K.Clock B.Bell around.new.clock.now around.new.bell.now) }
    ensures collects { Collects storing.old.keeper.now storing.new.keeper.now }
    ensures same_objects { SameObjects storing.old storing.new }
    ensures still_tell { StillTell D.contents storing.old storing.new }
    ensures same_folder { around.new.folder.ghost_name ≡ around.old.folder.ghost_name }
    ensures same_wires { around.new.wires.ghost_name ≡ around.old.wires.ghost_name }
    ensures same_clock { around.new.clock.ghost_name ≡ around.old.clock.ghost_name }
    ensures same_bell { around.new.bell.ghost_name ≡ around.old.bell.ghost_name }
{
    let mut system = System {
        folder: &mut *around.folder,
        clock: &mut *around.clock,
        bell: &mut *around.bell,
    };
    let worked = follow_begun(rt, context, begun, &mut crew, storing, &mut system);
    close_all(around.folder, crew.lanes.as_mut_slice());
    let worked = settle_after(rt, context, worked, &mut crew, storing);
    end_crew(crew, around.wires);
    worked
}

/// Rounds, if all files were begun and what was noted of them is stored.
pub fn follow_begun<
    F: Folder,
    L: Link + Send,
    W: Wire<Link = L> + Send,
    D: Disk + Send,
    K: Clock,
    B: Bell,
    R: Threads + Wait + Sync,
>(
    rt: &R,
    context: Context<'_, '_>,
    begun: Result<BegunFiles, BeginError>,
    crew: &mut Crew<F::Tail, W, L>,
    storing: &mut Storing<'_, D>,
    system: &mut System<'_, '_, '_, F, K, B>,
) -> Worked
where
    F::Tail: Send,
    requires ready { IsReadyIn (tails_of F.Tail.Tail) context (crewing crew.old storing.old) }
    requires few { length crew.old.carriers.items ≤ 2 ^ 32 - 1 }
    ensures goes { Goes (step_words F.Folder F.Tail.Tail L.Link W.Wire D.Disk K.Clock B.Bell)
        context.entry (Some result.met)
        (stop_at (phase_begun begun) crew.old storing.old system.old)
        (stop_at (phase_worked begun result.met) crew.new storing.new system.new) }
    ensures passed { HasPassed begun result.passed.items }
    ensures met { IsFollowedBy (tails_of F.Tail.Tail) (disks_of D.Disk)
        context.entry.settings.now.output.attempts
        (since_of F.Folder storing.old system.old (crewing crew.new storing.new) system.new)
        begun result.met }
    ensures stopped { IfOk begun (λ _. result.met ≡ Stopped →
        Rose (B.rings system.old.bell.now) (B.rings system.new.bell.now)) }
    ensures told_only_where_begun { IsTelling result.met → AreAllBegun begun }
    ensures asks { AsksOn 1
        (questions_of K.Clock B.Bell system.old.clock.now system.old.bell.now)
        (questions_of K.Clock B.Bell system.new.clock.now system.new.bell.now) }
    ensures looked { result.met ≡ Stopped → LooksByNow (tails_of F.Tail.Tail)
        (asked_at B.Bell system.old.bell.now (lanings crew.old.lanes.items))
        (asked_at B.Bell system.new.bell.now (lanings crew.new.lanes.items)) }
{
    match begun {
        Ok(files) => Worked {
            passed: files.passed,
            met: store_and_follow(rt, context, files.faulty, crew, storing, system),
        },
        Err(error) => Worked {
            passed: Vec::new(context.alloc),
            met: Met::from(error),
        },
    }
}

/// The last steps, except if the run was out of memory or hit a disk's fault. What they hit takes the place of what it hit.
pub fn settle_after<
    T: Tail + Send,
    L: Link + Send,
    W: Wire<Link = L> + Send,
    D: Disk + Send,
    R: Wait,
>(
    rt: &R,
    context: Context<'_, '_>,
    worked: Worked,
    crew: &mut Crew<T, W, L>,
    storing: &mut Storing<'_, D>,
) -> Worked
    requires ready { AreLeft worked.met →
        IsReadyIn (tails_of T.Tail) context (crewing crew.old storing.old) }
    requires able { IsAbleIn (tails_of T.Tail) context (crewing crew.old storing.old) }
    ensures passed { result.passed ≡ worked.passed }
    ensures still { ¬ AreLeft worked.met →
        (crew.new ≡ crew.old) × (storing.new ≡ storing.old) }
    ensures last { LastSteps (words_of T.Tail L.Link W.Wire D.Disk) context.entry worked.met
        result.met (crewing crew.old storing.old) (crewing crew.new storing.new) }
{
    let Worked { passed, met } = worked;
    let met = settle_where_left(rt, context, met, crew, storing);
    Worked { passed, met }
}

/// The last steps, if they are still to be made.
fn settle_where_left<
    T: Tail + Send,
    L: Link + Send,
    W: Wire<Link = L> + Send,
    D: Disk + Send,
    R: Wait,
>(
    rt: &R,
    context: Context<'_, '_>,
    met: Met,
    crew: &mut Crew<T, W, L>,
    storing: &mut Storing<'_, D>,
) -> Met
    requires ready { AreLeft met →
        IsReadyIn (tails_of T.Tail) context (crewing crew.old storing.old) }
    requires able { IsAbleIn (tails_of T.Tail) context (crewing crew.old storing.old) }
    ensures still { ¬ AreLeft met → (crew.new ≡ crew.old) × (storing.new ≡ storing.old) }
    ensures last { LastSteps (words_of T.Tail L.Link W.Wire D.Disk) context.entry met result
        (crewing crew.old storing.old) (crewing crew.new storing.new) }
{
    match met {
        Met::NoMemory | Met::DiskFault => met,
        _ => settle_all(rt, context, met, crew, storing),
    }
}

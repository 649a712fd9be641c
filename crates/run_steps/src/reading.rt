ghost use Rattle.std.specs.Prelude.{◌≡◌, ◌≢◌, ◌⊎◌, ◌^◌, ◌-◌, ◌+◌, ◌≤◌, ◌||◌, Bool, None, IfErr, IfNone, IfOk, IfSome, Some, false, length, true};
ghost use Rattle.outside.specs.Counts.{Rose, next_count};
ghost use Rattle.rounds.specs.Crewed.{lanings};
ghost use Rattle.rounds.specs.Crewing.{crewing};
ghost use Rattle.rounds.specs.Pairs.{SomeOf};
ghost use Rattle.rounds.specs.WordsOf.{disks_of, tails_of};
ghost use Rattle.run_steps.specs.ClosesTail.{HasFailedFile, some_failed};
ghost use Rattle.run_steps.specs.Goes.{Goes, step_words, stop_at};
ghost use Rattle.run_steps.specs.Looking.{LooksByNow, LooksInRound, asked_at};
ghost use Rattle.run_steps.specs.Met.{IsTelling};
ghost use Rattle.run_steps.specs.MetBy.{HasFaults, HasMetFault, IsEndedBy, IsEndedRound, IsMetBy, SomeHarvester, WasStopped, phase_after, phase_following, phase_met, phase_reading, since_of};
ghost use Rattle.run_steps.specs.MetIn.{NoneFailed, read_by};
ghost use Rattle.run_steps.specs.Questions.{AsksOn, count_given, questions_of};
ghost use Rattle.run_steps.specs.Readiness.{IsReadyIn};
ghost use Rattle.run_steps.specs.RunState.{Following};
ghost use Rattle.run_steps.specs.declared.met.Met.TheVariants.{FolderFault, Stopped};

use crate::context::{Context, System};
use crate::follow::{met_behind, met_in, pause_where_still};
use crate::laws::disk_images_are_counted;
use crate::leave::close_failed;
use crate::met::Met;
use crate::settle::store_all;
use lanes::When;
use outside::{Bell, Clock, Disk, Folder, Link, Wire};
use rounds::{Crew, Storing};
use std::sync::Wait;
use std::thread::Threads;

/// One round, at the moment that the clock gives. The end of a file may be found if files are read once, or if it is to end. What ends
/// the run, if something does.
/// The clock pauses if the round ended nothing and moved nothing, and no read failed.
pub fn make_round<
    F: Folder,
    L: Link + Send,
    W: Wire<Link = L> + Send,
    D: Disk + Send,
    K: Clock,
    B: Bell,
    R: Threads + Wait + Sync,
>(
    rt: &R,
    context: Context<'_, '_>,
    crew: &mut Crew<F::Tail, W, L>,
    storing: &mut Storing<'_, D>,
    system: &mut System<'_, '_, '_, F, K, B>,
) -> Option<Met>
where
    F::Tail: Send,
    requires ready { IsReadyIn (tails_of F.Tail.Tail) context (crewing crew.old storing.old) }
    requires few { length crew.old.carriers.items ≤ 2 ^ 32 - 1 }
    // Also in a run that has closed a file that hit a fault; it has hit one, too, if a read failed
    // in this round.
    ensures goes { (faulty : Bool) →
        Goes (step_words F.Folder F.Tail.Tail L.Link W.Wire D.Disk K.Clock B.Bell) context.entry
        result (stop_at (phase_reading faulty) crew.old storing.old system.old)
        (stop_at (phase_after (faulty || some_failed (lanings crew.new.lanes.items)) result)
        crew.new storing.new system.new) }
    // A run that follows its files keeps those of which a read failed open, and tries them again in
    // its next round.
    ensures follows { Goes (step_words F.Folder F.Tail.Tail L.Link W.Wire D.Disk K.Clock B.Bell)
        context.entry result (stop_at Following crew.old storing.old system.old)
        (stop_at (phase_following result) crew.new storing.new system.new) }
    ensures met { IfSome result (IsMetBy (tails_of F.Tail.Tail) (disks_of D.Disk)
        context.entry.settings.now.output.attempts
        (since_of F.Folder storing.old system.old (crewing crew.new storing.new) system.new)) }
    // It is no file's fault: a file of which a read failed shows that by its tail.
    ensures no_fault { result ≢ Some FolderFault }
    ensures failed { SomeOf HasFailedFile (lanings crew.new.lanes.items) →
        SomeHarvester (HasFaults (tails_of F.Tail.Tail)) (lanings crew.new.lanes.items) }
    ensures none_failed { IfNone result
        (NoneFailed context.entry.settings.now.output.attempts crew.new.carriers.items) }
    ensures looks { IfNone result (some_failed (lanings crew.new.lanes.items) ≡ false →
        LooksInRound (tails_of F.Tail.Tail) (lanings crew.old.lanes.items)
        (lanings crew.new.lanes.items)) }
    ensures asks_the_clock { K.questions system.new.clock.now
        ≡ next_count (K.questions system.old.clock.now) }
    ensures gives_one_moment { count_given (K.moments system.new.clock.now)
        ≤ count_given (K.moments system.old.clock.now) + 1 }
    ensures bell_kept { system.new.bell.now ≡ system.old.bell.now }
    ensures folder_kept { system.new.folder.now ≡ system.old.folder.now }
{
    disk_images_are_counted::<D>();
    let now = system.clock.now();
    let when = When {
        now,
        last: context.once,
    };
    let round = crew.round(rt, context.alloc, context.outlets, when, storing);
    let attempts = context.settings.output.attempts;
    let met = met_in(context.once, attempts, crew, storing.keeper, round);
    pause_where_still(met, round, system.clock);
    met
}

/// One round, and the closing of files of which a read failed in it: each lane closes the first of its own, and the run reads on
/// without it. Whether some file hit a fault so far; `Err` is what ends the run.
pub fn read_on<
    F: Folder,
    L: Link + Send,
    W: Wire<Link = L> + Send,
    D: Disk + Send,
    K: Clock,
    B: Bell,
    R: Threads + Wait + Sync,
>(
    rt: &R,
    context: Context<'_, '_>,
    faulty: bool,
    crew: &mut Crew<F::Tail, W, L>,
    storing: &mut Storing<'_, D>,
    system: &mut System<'_, '_, '_, F, K, B>,
) -> Result<bool, Met>
where
    F::Tail: Send,
    requires ready { IsReadyIn (tails_of F.Tail.Tail) context (crewing crew.old storing.old) }
    requires few { length crew.old.carriers.items ≤ 2 ^ 32 - 1 }
    ensures goes_on { IfOk result (λ now.
        Goes (step_words F.Folder F.Tail.Tail L.Link W.Wire D.Disk K.Clock B.Bell) context.entry
        None (stop_at (phase_reading faulty) crew.old storing.old system.old)
        (stop_at (phase_reading now) crew.new storing.new system.new)) }
    ensures ends { IfErr result (λ met.
        Goes (step_words F.Folder F.Tail.Tail L.Link W.Wire D.Disk K.Clock B.Bell) context.entry
        (Some met) (stop_at (phase_reading faulty) crew.old storing.old system.old)
        (stop_at (phase_met met) crew.new storing.new system.new)) }
    // No fault is forgotten, and none is called that is not counted.
    ensures found { IfOk result (λ now. (faulty ≡ true → now ≡ true) ×
        (now ≡ true → (faulty ≡ true) ⊎ HasMetFault (tails_of F.Tail.Tail)
        (F.faults system.old.folder.now) (F.faults system.new.folder.now)
        (lanings crew.new.lanes.items))) }
    ensures met { IfErr result (λ met. IsEndedBy (tails_of F.Tail.Tail) (disks_of D.Disk)
        context.entry.settings.now.output.attempts faulty
        (since_of F.Folder storing.old system.old (crewing crew.new storing.new) system.new) met) }
    // If no file hit a fault, some file of lanes that held nothing was asked for its length.
    ensures looks { IfOk result (λ now. now ≡ false → LooksInRound (tails_of F.Tail.Tail)
        (lanings crew.old.lanes.items) (lanings crew.new.lanes.items)) }
    // A report is told only where no file met a fault before.
    ensures none_failed { IfErr result (λ met. IsTelling met → faulty ≡ false) }
    // What ends the run is no file's fault alone.
    ensures ended { IfErr result (IsEndedRound (tails_of F.Tail.Tail) (disks_of D.Disk)
        context.entry.settings.now.output.attempts
        (since_of F.Folder storing.old system.old (crewing crew.new storing.new) system.new)) }
    ensures asks_the_clock { K.questions system.new.clock.now
        ≡ next_count (K.questions system.old.clock.now) }
    ensures gives_one_moment { count_given (K.moments system.new.clock.now)
        ≤ count_given (K.moments system.old.clock.now) + 1 }
    ensures bell_kept { system.new.bell.now ≡ system.old.bell.now }
{
    let met = make_round(rt, context, crew, storing, system);
    let failed = close_failed(system.folder, crew.lanes.as_mut_slice());
    goes_on(faulty, failed, met)
}

/// Whether some file hit a fault, in an earlier round or this one, or what ends the run.
fn goes_on(faulty: bool, failed: bool, met: Option<Met>) -> Result<bool, Met>
    ensures { result ≡ read_by (faulty || failed) met }
{
    match met {
        None => Ok(faulty || failed),
        Some(met) => Err(met_behind(faulty || failed, met)),
    }
}

/// Stores what was noted as the files began, before a byte of them is sent; then makes the rounds. If it cannot be stored, there is
/// no round: an event is sent only if its row could be kept. `faulty` if some file hit a fault before. Takes as long as the files,
/// the peers and the disk do.
pub fn store_and_follow<
    F: Folder,
    L: Link + Send,
    W: Wire<Link = L> + Send,
    D: Disk + Send,
    K: Clock,
    B: Bell,
    R: Threads + Wait + Sync,
>(
    rt: &R,
    context: Context<'_, '_>,
    faulty: bool,
    crew: &mut Crew<F::Tail, W, L>,
    storing: &mut Storing<'_, D>,
    system: &mut System<'_, '_, '_, F, K, B>,
) -> Met
where
    F::Tail: Send,
    requires ready { IsReadyIn (tails_of F.Tail.Tail) context (crewing crew.old storing.old) }
    requires few { length crew.old.carriers.items ≤ 2 ^ 32 - 1 }
    ensures goes { Goes (step_words F.Folder F.Tail.Tail L.Link W.Wire D.Disk K.Clock B.Bell)
        context.entry (Some result)
        (stop_at (phase_reading faulty) crew.old storing.old system.old)
        (stop_at (phase_met result) crew.new storing.new system.new) }
    ensures met { result ≢ Stopped → IsEndedBy (tails_of F.Tail.Tail) (disks_of D.Disk)
        context.entry.settings.now.output.attempts faulty
        (since_of F.Folder storing.old system.old (crewing crew.new storing.new) system.new)
        result }
    ensures stopped { result ≡ Stopped →
        Rose (B.rings system.old.bell.now) (B.rings system.new.bell.now) }
    // A report is told only where no file met a fault before.
    ensures none_failed { IsTelling result → faulty ≡ false }
    // What ends the run is no file's fault alone.
    ensures ended { WasStopped (B.rings system.old.bell.now) (B.rings system.new.bell.now) result
        ⊎ IsEndedRound (tails_of F.Tail.Tail) (disks_of D.Disk)
        context.entry.settings.now.output.attempts
        (since_of F.Folder storing.old system.old (crewing crew.new storing.new) system.new)
        result }
    ensures asks { AsksOn 1
        (questions_of K.Clock B.Bell system.old.clock.now system.old.bell.now)
        (questions_of K.Clock B.Bell system.new.clock.now system.new.bell.now) }
    // A run that was stopped has a first look by the second question of its bell.
    ensures looked { result ≡ Stopped → LooksByNow (tails_of F.Tail.Tail)
        (asked_at B.Bell system.old.bell.now (lanings crew.old.lanes.items))
        (asked_at B.Bell system.new.bell.now (lanings crew.new.lanes.items)) }
{
    match store_all(rt, context, crew, storing) {
        Some(met) => met,
        None => follow_all(rt, context, faulty, crew, storing, system),
    }
}

/// Rounds until one ends the run, or the bell rings, which is asked before each. A file of which a read failed is closed and not
/// tried again; the others are read on, and what ends the run then is a fault. Takes as long as the files, the peers and the disk do.
pub fn follow_all<
    F: Folder,
    L: Link + Send,
    W: Wire<Link = L> + Send,
    D: Disk + Send,
    K: Clock,
    B: Bell,
    R: Threads + Wait + Sync,
>(
    rt: &R,
    context: Context<'_, '_>,
    faulty: bool,
    crew: &mut Crew<F::Tail, W, L>,
    storing: &mut Storing<'_, D>,
    system: &mut System<'_, '_, '_, F, K, B>,
) -> Met
where
    F::Tail: Send,
    requires ready { IsReadyIn (tails_of F.Tail.Tail) context (crewing crew.old storing.old) }
    requires few { length crew.old.carriers.items ≤ 2 ^ 32 - 1 }
    ensures goes { Goes (step_words F.Folder F.Tail.Tail L.Link W.Wire D.Disk K.Clock B.Bell)
        context.entry (Some result)
        (stop_at (phase_reading faulty) crew.old storing.old system.old)
        (stop_at (phase_met result) crew.new storing.new system.new) }
    ensures met { result ≢ Stopped → IsEndedBy (tails_of F.Tail.Tail) (disks_of D.Disk)
        context.entry.settings.now.output.attempts faulty
        (since_of F.Folder storing.old system.old (crewing crew.new storing.new) system.new)
        result }
    ensures stopped { result ≡ Stopped →
        Rose (B.rings system.old.bell.now) (B.rings system.new.bell.now) }
    // A report is told only where no file met a fault before.
    ensures none_failed { IsTelling result → faulty ≡ false }
    // What ends the run is no file's fault alone.
    ensures ended { WasStopped (B.rings system.old.bell.now) (B.rings system.new.bell.now) result
        ⊎ IsEndedRound (tails_of F.Tail.Tail) (disks_of D.Disk)
        context.entry.settings.now.output.attempts
        (since_of F.Folder storing.old system.old (crewing crew.new storing.new) system.new)
        result }
    ensures asks { AsksOn 1
        (questions_of K.Clock B.Bell system.old.clock.now system.old.bell.now)
        (questions_of K.Clock B.Bell system.new.clock.now system.new.bell.now) }
    // A run that was stopped has a first look by the second question of its bell.
    ensures looked { result ≡ Stopped → LooksByNow (tails_of F.Tail.Tail)
        (asked_at B.Bell system.old.bell.now (lanings crew.old.lanes.items))
        (asked_at B.Bell system.new.bell.now (lanings crew.new.lanes.items)) }
{
    let mut met_fault = faulty;
    for _ in rt.forever() {
        if system.bell.asked() {
            return met_behind(met_fault, Met::Stopped);
        }
        match read_on(rt, context, met_fault, crew, storing, system) {
            Ok(now) => met_fault = now,
            Err(met) => return met,
        }
    }
    unreachable!()
}

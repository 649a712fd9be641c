ghost use Rattle.std.specs.Prelude.{◌≡◌, ◌≤◌, ◌+◌, ◌-◌, ◌^◌, ◌<◌, ℕ, All, IfOk, IfSome, IsSome, OnErr, drop, length, map, vec_len, false};
ghost use Rattle.std.specs.List.{AllByRecursion};
ghost use Rattle.beat_config.specs.InRange.{AreInRange};
ghost use Rattle.prospect.specs.ListedFiles.{IsListedInRange};
ghost use Rattle.rounds.specs.KeeperTurns.{StillTell};
ghost use Rattle.rounds.specs.Making.{all_seen};
ghost use Rattle.wire_base.specs.Ranges.{IsMoment};
ghost use Rattle.run_steps.specs.AccountedOver.{AccountedOver};
ghost use Rattle.run_steps.specs.BegunCrew.{AreFirstPasses};
ghost use Rattle.run_steps.specs.BeginsAll.{IsOfInputs};
ghost use Rattle.run_steps.specs.CarriersFail.{FailedAsMet, counts_told};
ghost use Rattle.run_steps.specs.ClockOn.{MomentsGoOn};
ghost use Rattle.run_steps.specs.Lent.{ending_of, objects_of, outset_of, tolls_of};
ghost use Rattle.run_steps.specs.Met.{AreLeft};
ghost use Rattle.run_steps.specs.Outset.{Earlier, IsFirstKeeper, SetsOut, began_with};
ghost use Rattle.run_steps.specs.PassedOver.{ArePassedOver};
ghost use Rattle.run_steps.specs.Questions.{AsksOn, questions_of};
ghost use Rattle.run_steps.specs.RunEnds.{HasEnded};
ghost use Rattle.run_steps.specs.RunOf.{FolderTold};
ghost use Rattle.run_steps.specs.RunState.{Phase};
ghost use Rattle.run_steps.specs.Scanned.{HasScanned};
ghost use Rattle.run_steps.specs.Starting.{AreFewFiles, starts_among};
ghost use Rattle.run_steps.specs.Unnumbered.{IsMetUnnumbered};
ghost use Rattle.rounds.specs.WordsOf.{disks_of, wires_of, words_of};
ghost use Rattle.run_steps.specs.Worked.{IsMetByRun};

use crate::beginning::{Scanned, begin_all};
use crate::context::{Context, Surroundings};
use crate::crew::{Passes, crew_of};
use crate::hidden::hide_begun;
use crate::laws::disk_images_are_counted;
use crate::working::{Worked, work};
use outside::{Bell, Clock, Disk, Folder, Link, Wire};
use registry_store::one_choice;
use rounds::Storing;
use ship_core::covered_end_by_steps;
use std::sync::Wait;
use std::thread::Threads;
use wire_base::NoMemory;

/// Follows the listed files by a crew, and releases all. `Err` means out of memory for the crew: nothing was done, and all
/// wires are back in their order. Takes as long as the files, the peers and the disk do.
pub fn run_over<
    X: Threads + Wait + Sync,
    F: Folder,
    L: Link + Send,
    W: Wire<Link = L> + Send,
    D: Disk + Send,
    K: Clock,
    B: Bell,
>(
    rt: &X,
    context: Context<'_, '_>,
    passes: Passes,
    scanned: &Scanned,
    storing: &mut Storing<'_, D>,
    around: &mut Surroundings<F, W, K, B>,
) -> Result<Worked, NoMemory>
where
    F::Tail: Send,
    requires settings { AreInRange context.settings.now }
    requires passes { AreFirstPasses context.outlets.queue.now.id context.outlets.desk.now.id
        passes.put passes.take passes.post }
    requires in_range { All IsListedInRange scanned.now.listed.items }
    requires of_inputs { All (IsOfInputs context.settings.now) scanned.now.listed.items }
    requires few { AreFewFiles storing.old.keeper.now.store.rows scanned.now.listed.items }
    requires few_listed { length scanned.now.listed.items ≤ 65_536 }
    requires starts { scanned.now.starts.items
        ≡ starts_among storing.old.keeper.now.store.rows scanned.now.listed.items }
    requires moment { IsMoment scanned.now.now }
    requires keeper { IsFirstKeeper context.outlets.desk.now.id storing.old.keeper.now }
    requires wires { vec_len around.old.wires.now ≡ 16 }
    // What was known of the run as it set out is known at the end.
    ensures ends { (earlier : Earlier D) →
        let scan = scanned.entry.now in
        let outset = outset_of F.Folder K.Clock context.entry scan storing.old around.old in
        let start = began_with (wires_of W.Wire) outset earlier in
        SetsOut (disks_of D.Disk) start outset →
        IfOk result (λ worked. (phase : Phase) ×
        HasEnded (words_of F.Tail.Tail L.Link W.Wire D.Disk) start
        (ending_of F.Folder K.Clock storing.new around.new phase) worked.met
        (drop context.entry.settings.now.output.workers outset.wires) around.new.wires.now.items) }
    // If the scan, folder, clock and wires are known, the run is accounted for, and each key keeps its row; after the
    // last steps, the keeper has counted the events of the account; and a run that is done or stopped skipped the listed files
    // that it does not follow, each for its reason. Its moments begin with that of its scan.
    ensures accounted { (earlier : Earlier D) (folder : FolderTold) →
        let scan = scanned.entry.now in
        let outset = outset_of F.Folder K.Clock context.entry scan storing.old around.old in
        let start = began_with (wires_of W.Wire) outset earlier in
        let objects = objects_of F.Folder K.Clock B.Bell W.Wire folder earlier around.old
        storing.new around.new in
        SetsOut (disks_of D.Disk) start outset → HasScanned start folder →
        IsSome earlier.moments →
        AllByRecursion (λ wire. IsSome (W.outcomes wire)) around.new.wires.now.items →
        IfOk result (λ worked. AccountedOver (disks_of D.Disk) outset.settings start.opening
        outset.listed outset.moment (length folder.scanned.events) objects worked.met
        worked.passed.items storing.new.keeper.now.shipped storing.new.keeper.now.dropped) }
    ensures is_open { IfOk result (λ worked.
        AreLeft worked.met → storing.new.keeper.now.store.closed ≡ false) }
    ensures cause { IfOk result (λ worked. IsMetByRun context.entry.settings.now.output.workers
        (length scanned.entry.now.listed.items)
        (tolls_of F.Folder D.Disk B.Bell storing.old around.old)
        (tolls_of F.Folder D.Disk B.Bell storing.new around.new) worked.met) }
    // A file that is said to have no numbers had none reported as it was opened.
    ensures unnumbered { IfOk result (λ worked. IsMetUnnumbered context.entry.settings.now
        scanned.entry.now.listed.items (F.told around.old.folder.now)
        (F.told around.new.folder.now) worked.met) }
    // A worker that is called unreachable failed as often in a row as it may, by the outcomes of its wire since the run began, and
    // by the moments that the clock gave from this one on.
    ensures failing { (earlier : ℕ) →
        let output = context.entry.settings.now.output in
        IfSome (K.moments around.old.clock.now) (λ moments. earlier < length moments) →
        IfOk result (λ worked. FailedAsMet (wires_of W.Wire) output.attempts output.timeout earlier
        (counts_told (wires_of W.Wire) output.workers around.old.wires.now.items)
        (K.moments around.new.clock.now) around.new.wires.now.items worked.met) }
    ensures a_faults_never_fall { D.faults storing.old.a.now ≤ D.faults storing.new.a.now }
    ensures b_faults_never_fall { D.faults storing.old.b.now ≤ D.faults storing.new.b.now }
    ensures passed_over { IfOk result (λ worked.
        ArePassedOver scanned.entry.now.listed.items worked.passed.items) }
    ensures clock_goes_on { MomentsGoOn (K.moments around.old.clock.now)
        (K.moments around.new.clock.now) }
    ensures asks { AsksOn 1
        (questions_of K.Clock B.Bell around.old.clock.now around.old.bell.now)
        (questions_of K.Clock B.Bell around.new.clock.now around.new.bell.now) }
    ensures as_many_wires { length around.new.wires.now.items
        ≡ length around.old.wires.now.items }
    ensures tails_closed { F.open_tails around.old.folder.now
        + length scanned.entry.now.listed.items < 2 ^ 64 - 1 →
        F.open_tails around.new.folder.now ≡ F.open_tails around.old.folder.now }
    ensures links_finished { All (λ wire. W.open_links wire < 2 ^ 64 - 1)
        around.old.wires.now.items → map W.open_links around.new.wires.now.items
        ≡ map W.open_links around.old.wires.now.items }
    ensures untouched { OnErr result ((storing.new ≡ storing.old)
        × (around.new.folder.now ≡ around.old.folder.now)
        × (around.new.clock.now ≡ around.old.clock.now)
        × (around.new.bell.now ≡ around.old.bell.now)) }
    ensures back { OnErr result (all_seen (wires_of W.Wire) around.new.wires.now.items
        ≡ all_seen (wires_of W.Wire) around.old.wires.now.items) }
    ensures same_keeper { storing.new.keeper.ghost_name ≡ storing.old.keeper.ghost_name }
    ensures same_a { storing.new.a.ghost_name ≡ storing.old.a.ghost_name }
    ensures same_b { storing.new.b.ghost_name ≡ storing.old.b.ghost_name }
    ensures still_tell { StillTell D.contents storing.old storing.new }
    ensures same_folder { around.new.folder.ghost_name ≡ around.old.folder.ghost_name }
    ensures same_wires { around.new.wires.ghost_name ≡ around.old.wires.ghost_name }
    ensures same_clock { around.new.clock.ghost_name ≡ around.old.clock.ghost_name }
    ensures same_bell { around.new.bell.ghost_name ≡ around.old.bell.ghost_name }
{
    disk_images_are_counted::<D>();
    one_choice();
    covered_end_by_steps();
    let mut crew = crew_of(context, passes, around.wires)?;
    let begun = begin_all(context, scanned, around.folder, &mut crew, storing.keeper);
    let begun = hide_begun(context, scanned, begun, storing.keeper);
    Ok(work(rt, context, begun, crew, storing, around))
}

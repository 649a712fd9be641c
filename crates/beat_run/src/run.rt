ghost use Rattle.std.specs.Prelude.{false, ◌≡◌, ◌⊎◌, All, IfErr, IfOk, IfSome, IsErrOf, IsSome, List, MatchResult, OnOk, Some, ℕ, length, take, vec_len};
ghost use Rattle.beat_config.specs.Document.{AreSettingsOf, IsFirstFault};
ghost use Rattle.beat_config.specs.InRange.{AreInRange};
ghost use Rattle.command_line.specs.Words.{IsNoCommand};
ghost use Rattle.prospect.specs.Lacks.{IsFirstLack};
ghost use Rattle.registry_store.specs.Settled.{AreAtRest};
ghost use Rattle.report.specs.Report.{IsReport};
ghost use Rattle.rounds.specs.WordsOf.{disks_of};
ghost use Rattle.run_steps.specs.Met.{IsMetOf, IsTelling};
ghost use Rattle.run_steps.specs.Registry.{AreRefusedAt};
ghost use Rattle.run_steps.specs.Together.{Areas};
ghost use Rattle.wire_base.specs.declared.limits.Which.{Which};
ghost use Rattle.beat_run.specs.Accounted.{AllTell, IsAccounted, IsAccountedWhereTold, IsOpenedFrom, TellEnough};
ghost use Rattle.beat_run.specs.Asked.{AskFor, AskForOnce, IsAsked};
ghost use Rattle.beat_run.specs.Cause.{Cause, without_sink};
ghost use Rattle.beat_run.specs.Ended.{StandsForMet, ended};
ghost use Rattle.beat_run.specs.Ends.{IsBehindOpening, IsRefusal, IsReportEnd, IsRunEnd, IsScannedEnd, IsSettledEnd, IsUnprepared, RefusesArea, RefusesKey, RefusesLack, RefusesSettings, RefusesWords};
ghost use Rattle.beat_run.specs.Handed.{CausedIn, GoesOn, SameOutside, handed_in, lent_by, objects_by, objects_of, outside_words, signs_of};
ghost use Rattle.beat_run.specs.Printed.{IsReportOf, IsToBePrinted, ReportsStored};
ghost use Rattle.beat_run.specs.Skipped.{all_skipped};
ghost use Rattle.beat_run.specs.Untouched.{IfAreasRefused, IsOnlyReadBy, IsRefused, LeavesUntouched};
ghost use Rattle.beat_run.specs.declared.settings.TheConstants.{LIMIT};

use crate::ending::{Ending, Totals, ending_of};
use crate::laws::unasked_disk_is_only_read;
use crate::objects::Outside;
use crate::parts::{Parts, parts_of};
use crate::prepare::prepare;
use crate::scan::scan;
use crate::status::status_of_registry;
use beat_config::SettingsError;
use event_tree::Settings;
use keeper::Keeper;
use lanes::Outlets;
use outside::{Bell, Clock, Disk, Folder, Link, Source, Wire};
use registry_store::{Store, one_choice};
use report::{Lack, Status};
use rounds::{Stored, Storing};
use run_steps::{
    Context, Scanned, Surroundings, Worked, disk_images_are_counted, open_registry, run_over,
};
use std::alloc::Global;
use std::sync::Wait;
use std::thread::Threads;
use wire_base::Text;

/// Everything but the printing.
pub fn run<
    X: Threads + Wait + Sync,
    F: Folder,
    L: Link + Send,
    W: Wire<Link = L> + Send,
    D: Disk + Send,
    K: Clock,
    B: Bell,
    R: Source,
>(
    rt: &X,
    alloc: Global,
    words: &[Text],
    source: &mut R,
    outside: &mut Outside<F, W, D, K, B>,
) -> Result<Ending, Status>
where
    F::Tail: Send,
    requires wires { vec_len outside.old.wires.now ≡ 16 }
    ensures usage_only { IsErrOf result Status.Usage → IsNoCommand words.now }
    ensures other_words_refused { IsNoCommand words.now →
        MatchResult result (λ _. ⊥) RefusesWords }
    ensures unbuilt_only { (lack : Lack) → IsErrOf result (Status.Unbuilt lack) →
        IsAsked words.now (R.left source.old) lack }
    ensures unbuilt_refused { (lack : Lack) → AskFor words.now lack →
        MatchResult result (λ _. ⊥) (RefusesLack lack) }
    ensures fault_only { (fault : SettingsError) → IsErrOf result (Status.Settings fault) →
        IfSome (R.left source.old) (λ bytes. IsFirstFault (take LIMIT bytes) fault) }
    ensures fault_refused { (fault : SettingsError) → IfSome (R.left source.old) (λ bytes.
        IsFirstFault (take LIMIT bytes) fault →
        MatchResult result (λ _. ⊥) (RefusesSettings fault)) }
    ensures key_refused { (settings : Settings) (key : List ℕ) →
        IfSome (R.left source.old) (λ bytes. AreSettingsOf (take LIMIT bytes) settings →
        IsFirstLack settings key → MatchResult result (λ _. ⊥) (RefusesKey key)) }
    ensures registry_bad { (first second : List ℕ) (area : Which) (at : ℕ) →
        D.contents outside.old.a.now ≡ Some first →
        D.contents outside.old.b.now ≡ Some second →
        IsErrOf result (Status.RegistryBad area at) → AreRefusedAt first second area at }
    ensures areas_refused { IfAreasRefused D.Disk outside.old.a.now outside.old.b.now
        (MatchResult result (λ _. ⊥) RefusesArea) }
    ensures a_unused { IfErr result (λ status. IsUnprepared status →
        outside.new.a.now ≡ outside.old.a.now) }
    ensures b_unused { IfErr result (λ status. IsUnprepared status →
        outside.new.b.now ≡ outside.old.b.now) }
    ensures folder_kept_on_refusal { IfErr result (λ status. IsRefusal status →
        outside.new.folder.now ≡ outside.old.folder.now) }
    ensures wires_kept_on_refusal { IfErr result (λ status. IsRefusal status →
        outside.new.wires.now.items ≡ outside.old.wires.now.items) }
    ensures a_only_read_on_refusal { IfErr result (λ status. IsRefusal status →
        IsSome (D.contents outside.old.a.now) → IsSome (D.contents outside.old.b.now) →
        IsOnlyReadBy D.Disk outside.old.a.now outside.new.a.now) }
    ensures b_only_read_on_refusal { IfErr result (λ status. IsRefusal status →
        IsOnlyReadBy D.Disk outside.old.b.now outside.new.b.now) }
    ensures untouched_where_refused { IsRefused words.now (R.left source.old)
        (D.contents outside.old.a.now) (D.contents outside.old.b.now) →
        LeavesUntouched D.Disk outside.old outside.new }
    ensures once_where_reported { OnOk result (AskForOnce words.now) }
    ensures once_where_followed { IfErr result (λ status. IsBehindOpening status →
        AskForOnce words.now) }
    ensures cause { let all = outside_words F.Folder W.Wire D.Disk K.Clock B.Bell in
        Cause (R.left source.old)
        (without_sink (signs_of all (handed_in outside.old)) (R.faults source.old))
        (without_sink (signs_of all (handed_in outside.new)) (R.faults source.new))
        (ended result) }
    ensures accounted { let all = outside_words F.Folder W.Wire D.Disk K.Clock B.Bell in
        let before = handed_in outside.old in
        let after = handed_in outside.new in
        IsAccountedWhereTold (disks_of D.Disk) (R.left source.old) (lent_by before after)
        (objects_by all before after) (ended result) (IsToBePrinted result) }
    ensures at_rest { IsSome (F.told outside.old.folder.now) →
        AreAtRest D.contents D.images outside.old.a.now outside.old.b.now →
        IsBehindOpening (ended result) →
        AreAtRest D.contents D.images outside.new.a.now outside.new.b.now }
    ensures reported { IsSome (F.told outside.old.folder.now) →
        AreAtRest D.contents D.images outside.old.a.now outside.old.b.now →
        IfOk result (λ ending. ReportsStored (disks_of D.Disk)
        outside.new.a.now outside.new.b.now ending.status ending.report) }
    ensures report { IfOk result (λ ending. IsReportOf ending.status ending.report) }
    ensures with_report { IfOk result (λ ending. IsReportEnd ending.status) }
    ensures ends { IfErr result IsRunEnd }
    ensures goes_on { GoesOn (outside_words F.Folder W.Wire D.Disk K.Clock B.Bell)
        outside.old outside.new }
    ensures same_objects { SameOutside outside.old outside.new }
{
    unasked_disk_is_only_read::<D>();
    one_choice();
    let settings = match prepare(alloc, words, source) {
        Ok(settings) => settings,
        Err(status) => return Err(status),
    };
    run_settings(rt, alloc, &settings, outside)
}

/// Opens the registry, and then follows the files of the settings.
fn run_settings<
    X: Threads + Wait + Sync,
    F: Folder,
    L: Link + Send,
    W: Wire<Link = L> + Send,
    D: Disk + Send,
    K: Clock,
    B: Bell,
>(
    rt: &X,
    alloc: Global,
    settings: &Settings,
    outside: &mut Outside<F, W, D, K, B>,
) -> Result<Ending, Status>
where
    F::Tail: Send,
    requires in_range { AreInRange settings.now }
    requires wires { vec_len outside.old.wires.now ≡ 16 }
    ensures registry_bad { (first second : List ℕ) (area : Which) (at : ℕ) →
        D.contents outside.old.a.now ≡ Some first →
        D.contents outside.old.b.now ≡ Some second →
        IsErrOf result (Status.RegistryBad area at) → AreRefusedAt first second area at }
    ensures areas_refused { IfAreasRefused D.Disk outside.old.a.now outside.old.b.now
        (MatchResult result (λ _. ⊥) RefusesArea) }
    ensures a_only_read_where_bad { (area : Which) (at : ℕ) →
        IsSome (D.contents outside.old.a.now) → IsSome (D.contents outside.old.b.now) →
        IsErrOf result (Status.RegistryBad area at) →
        IsOnlyReadBy D.Disk outside.old.a.now outside.new.a.now }
    ensures b_only_read_where_bad { (area : Which) (at : ℕ) →
        IsErrOf result (Status.RegistryBad area at) →
        IsOnlyReadBy D.Disk outside.old.b.now outside.new.b.now }
    ensures folder_kept_where_bad { (area : Which) (at : ℕ) →
        IsErrOf result (Status.RegistryBad area at) →
        outside.new.folder.now ≡ outside.old.folder.now }
    ensures wires_kept_where_bad { (area : Which) (at : ℕ) →
        IsErrOf result (Status.RegistryBad area at) →
        outside.new.wires.now.items ≡ outside.old.wires.now.items }
    ensures untouched_where_areas_are_refused { IfAreasRefused D.Disk
        outside.old.a.now outside.old.b.now (LeavesUntouched D.Disk outside.old outside.new) }
    ensures cause { CausedIn (outside_words F.Folder W.Wire D.Disk K.Clock B.Bell) settings.now
        outside.old outside.new (ended result) }
    ensures accounted { let all = outside_words F.Folder W.Wire D.Disk K.Clock B.Bell in
        let objects = objects_by all (handed_in outside.old) (handed_in outside.new) in
        AllTell (disks_of D.Disk) objects → IsAccounted (disks_of D.Disk) settings.now objects
        (ended result) (IsToBePrinted result) }
    ensures at_rest { IsSome (F.told outside.old.folder.now) →
        AreAtRest D.contents D.images outside.old.a.now outside.old.b.now →
        IsBehindOpening (ended result) →
        AreAtRest D.contents D.images outside.new.a.now outside.new.b.now }
    ensures reported { IsSome (F.told outside.old.folder.now) →
        AreAtRest D.contents D.images outside.old.a.now outside.old.b.now →
        IfOk result (λ ending. ReportsStored (disks_of D.Disk)
        outside.new.a.now outside.new.b.now ending.status ending.report) }
    ensures report { IfOk result (λ ending. IsReportOf ending.status ending.report) }
    ensures with_report { IfOk result (λ ending. IsReportEnd ending.status) }
    ensures ends { IfErr result IsSettledEnd }
    ensures goes_on { GoesOn (outside_words F.Folder W.Wire D.Disk K.Clock B.Bell)
        outside.old outside.new }
    ensures same_objects { SameOutside outside.old outside.new }
{
    one_choice();
    match open_registry(alloc, outside.a, outside.b) {
        Ok(store) => run_store(rt, alloc, settings, store, outside),
        Err(error) => Err(status_of_registry(error)),
    }
}

/// Scans once, and follows what was listed.
fn run_store<
    X: Threads + Wait + Sync,
    F: Folder,
    L: Link + Send,
    W: Wire<Link = L> + Send,
    D: Disk + Send,
    K: Clock,
    B: Bell,
>(
    rt: &X,
    alloc: Global,
    settings: &Settings,
    store: Store,
    outside: &mut Outside<F, W, D, K, B>,
) -> Result<Ending, Status>
where
    F::Tail: Send,
    requires in_range { AreInRange settings.now }
    requires open { store.closed ≡ false }
    requires wires { vec_len outside.old.wires.now ≡ 16 }
    ensures cause { (from : Areas D) →
        IsOpenedFrom (disks_of D.Disk) from store outside.old.a.now outside.old.b.now →
        CausedIn (outside_words F.Folder W.Wire D.Disk K.Clock B.Bell) settings.now
        outside.old outside.new (ended result) }
    ensures accounted { (from : Areas D) →
        let all = outside_words F.Folder W.Wire D.Disk K.Clock B.Bell in
        let before = objects_of all (handed_in outside.old) in
        let after = objects_of all (handed_in outside.new) in
        IsOpenedFrom (disks_of D.Disk) from store outside.old.a.now outside.old.b.now →
        TellEnough before after → IsAccounted (disks_of D.Disk) settings.now
        (record { before = record before { a = from.a; b = from.b }; after = after })
        (ended result) (IsToBePrinted result) }
    ensures at_rest { (from : Areas D) →
        IsOpenedFrom (disks_of D.Disk) from store outside.old.a.now outside.old.b.now →
        IsSome (F.told outside.old.folder.now) →
        AreAtRest D.contents D.images from.a from.b → IsBehindOpening (ended result) →
        AreAtRest D.contents D.images outside.new.a.now outside.new.b.now }
    ensures reported { (from : Areas D) →
        IsOpenedFrom (disks_of D.Disk) from store outside.old.a.now outside.old.b.now →
        IsSome (F.told outside.old.folder.now) →
        AreAtRest D.contents D.images from.a from.b →
        IfOk result (λ ending. ReportsStored (disks_of D.Disk)
        outside.new.a.now outside.new.b.now ending.status ending.report) }
    ensures report { IfOk result (λ ending. IsReportOf ending.status ending.report) }
    ensures with_report { IfOk result (λ ending. IsReportEnd ending.status) }
    ensures ends { IfErr result IsScannedEnd }
    ensures goes_on { GoesOn (outside_words F.Folder W.Wire D.Disk K.Clock B.Bell)
        outside.old outside.new }
    ensures same_objects { SameOutside outside.old outside.new }
{
    one_choice();
    disk_images_are_counted::<D>();
    let inputs = settings.inputs.as_slice();
    let scanned = scan(alloc, inputs, store.rows(), outside.folder, outside.clock)?;
    let parts = parts_of(alloc, settings.events, store)?;
    let Parts {
        queue,
        desk,
        passes,
        mut keeper,
    } = parts;
    let context = Context {
        alloc,
        settings,
        outlets: Outlets {
            queue: &queue,
            desk: &desk,
        },
        once: true,
    };
    let worked = {
        let mut storing = Storing {
            keeper: &mut keeper,
            a: &mut *outside.a,
            b: &mut *outside.b,
            stored: Stored::begun(),
        };
        let mut around = Surroundings {
            folder: &mut *outside.folder,
            wires: &mut *outside.wires,
            clock: &mut *outside.clock,
            bell: &mut *outside.bell,
        };
        run_over(rt, context, passes, &scanned, &mut storing, &mut around)?
    };
    finish(context, &scanned, worked, keeper)
}

/// Makes the report of the run.
fn finish(
    context: Context<'_, '_>,
    scanned: &Scanned,
    worked: Worked,
    keeper: Keeper,
) -> Result<Ending, Status>
    requires of_these { IsMetOf (length scanned.now.listed.items) worked.met }
    ensures telling { IfOk result (λ _. IsTelling worked.met) }
    ensures report { IfOk result (λ ending. IsReport keeper.store.rows
        (all_skipped worked.passed.items scanned.entry.now)
        keeper.shipped keeper.dropped ending.status ending.report) }
    ensures stands { IfOk result (λ ending. StandsForMet scanned.entry.now.listed.items
        context.entry.settings.now.output.attempts worked.met ending.status) }
    ensures refused { IfErr result (λ status. (status ≡ Status.NoMemory)
        ⊎ StandsForMet scanned.entry.now.listed.items
        context.entry.settings.now.output.attempts worked.met status) }
    ensures with_report { IfOk result (λ ending. IsReportEnd ending.status) }
    ensures without_report { IfErr result IsRunEnd }
{
    let totals = Totals {
        shipped: keeper.shipped(),
        dropped: keeper.dropped(),
    };
    let (store, _) = keeper.end();
    let attempts = context.settings.output.attempts;
    ending_of(context.alloc, worked, &store, totals, scanned, attempts)
}

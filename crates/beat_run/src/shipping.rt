ghost use Rattle.std.specs.Prelude.{◌≡◌, ◌⊎◌, ◌+◌, ◌-◌, ◌^◌, ◌<◌, ◌≤◌, IfSome, IsSome, List, Ok, Some, ℕ, map, take, vec_len, All};
ghost use Rattle.beat_config.specs.Document.{AreSettingsOf, IsFirstFault};
ghost use Rattle.command_line.specs.Words.{IsNoCommand};
ghost use Rattle.event_tree.specs.declared.settings.Settings.{Settings};
ghost use Rattle.outside.specs.Counts.{Rose};
ghost use Rattle.outside.specs.DiskImages.{LeavesOnly};
ghost use Rattle.prospect.specs.Lacks.{IsFirstLack};
ghost use Rattle.registry_store.specs.Settled.{AreAtRest};
ghost use Rattle.report.specs.Writing.{WritesAll};
ghost use Rattle.rounds.specs.WordsOf.{disks_of, wires_of};
ghost use Rattle.run_steps.specs.ClockOn.{MomentsGoOn};
ghost use Rattle.run_steps.specs.Registry.{AreRefusedAt};
ghost use Rattle.run_steps.specs.Questions.{AsksOn, questions_of};
ghost use Rattle.beat_run.specs.Accounted.{IsAccountedWhereTold};
ghost use Rattle.beat_run.specs.Asked.{AskFor, AskForOnce, IsAsked};
ghost use Rattle.beat_run.specs.Cause.{Cause, all_signs};
ghost use Rattle.beat_run.specs.Completeness.{IsUntroubled, IsUntroubledEnd, given_run};
ghost use Rattle.beat_run.specs.Ends.{IsBehindOpening, IsPrintingEnd, IsRefusal, IsReportEnd, IsRunEnd, IsUnprepared, RefusesArea, RefusesKey, RefusesLack, RefusesSettings, RefusesWords};
ghost use Rattle.beat_run.specs.Handed.{handed, lent_by, objects_by, outside_words, signs_of};
ghost use Rattle.beat_run.specs.Printed.{IsPrinted, IsReportOf, Prints, ReportsStored, StandsBehind};
ghost use Rattle.beat_run.specs.Untouched.{IsRefused};
ghost use Rattle.beat_run.specs.declared.settings.TheConstants.{LIMIT};

use crate::ending::Ending;
use crate::objects::Outside;
use crate::run::run;
use beat_config::SettingsError;
use outside::{Bell, Clock, Disk, Folder, Sink, Source, Wire};
use registry_store::one_choice;
use report::{Lack, Status, status_line, write_all};
use std::alloc::Global;
use std::sync::Wait;
use std::thread::Threads;
use wire_base::{Text, Which};

/// The whole run.
pub fn ship<
    X: Threads + Wait + Sync,
    F: Folder,
    W: Wire + Send,
    D: Disk + Send,
    K: Clock,
    B: Bell,
    S: Sink,
    R: Source,
>(
    rt: &X,
    alloc: Global,
    words: &[Text],
    settings: &mut R,
    folder: &mut F,
    wires: &mut Vec<W>,
    area_a: &mut D,
    area_b: &mut D,
    clock: &mut K,
    bell: &mut B,
    out: &mut S,
) -> Status
where
    F::Tail: Send,
    W::Link: Send,
    requires { vec_len wires.old ≡ 16 }

    // Which runs are refused, and by which status.
    ensures usage_only_for_other_words { result ≡ Status.Usage → IsNoCommand words.now }
    ensures other_words_are_usage { IsNoCommand words.now → RefusesWords result }
    ensures unbuilt_only_where_it_is_asked { (lack : Lack) →
        result ≡ Status.Unbuilt lack → IsAsked words.now (R.left settings.old) lack }
    ensures words_for_the_unbuilt_are_refused { (lack : Lack) →
        AskFor words.now lack → RefusesLack lack result }
    ensures settings_fault_only_of_such_bytes { (fault : SettingsError) →
        result ≡ Status.Settings fault →
        IfSome (R.left settings.old) (λ bytes. IsFirstFault (take LIMIT bytes) fault) }
    ensures faulty_settings_are_refused { (fault : SettingsError) →
        IfSome (R.left settings.old) (λ bytes.
        IsFirstFault (take LIMIT bytes) fault → RefusesSettings fault result) }
    ensures keys_of_the_unbuilt_are_refused { (asked : Settings) (key : List ℕ) →
        IfSome (R.left settings.old) (λ bytes.
        AreSettingsOf (take LIMIT bytes) asked → IsFirstLack asked key → RefusesKey key result) }
    ensures registry_bad_only_where_the_areas_are_refused { (first second : List ℕ)
        (area : Which) (at : ℕ) →
        D.contents area_a.old ≡ Some first → D.contents area_b.old ≡ Some second →
        result ≡ Status.RegistryBad area at → AreRefusedAt first second area at }
    ensures refused_areas_end_the_run { (first second : List ℕ) (area : Which) (at : ℕ) →
        D.contents area_a.old ≡ Some first → D.contents area_b.old ≡ Some second →
        AreRefusedAt first second area at → RefusesArea result }

    // Refused runs change nothing.
    ensures refused_runs_keep_the_folder { IsRefused words.now (R.left settings.old)
        (D.contents area_a.old) (D.contents area_b.old) → folder.new ≡ folder.old }
    ensures refused_runs_keep_the_wires { IsRefused words.now (R.left settings.old)
        (D.contents area_a.old) (D.contents area_b.old) → wires.new.items ≡ wires.old.items }
    ensures refused_runs_keep_the_first_area { IsRefused words.now (R.left settings.old)
        (D.contents area_a.old) (D.contents area_b.old) →
        D.contents area_a.new ≡ D.contents area_a.old }
    ensures refused_runs_keep_the_second_area { IsRefused words.now (R.left settings.old)
        (D.contents area_a.old) (D.contents area_b.old) →
        D.contents area_b.new ≡ D.contents area_b.old }
    ensures refused_runs_leave_no_image_of_the_first { IsRefused words.now (R.left settings.old)
        (D.contents area_a.old) (D.contents area_b.old) →
        LeavesOnly D.moment D.images_since area_a.old area_a.new (D.images area_a.old) }
    ensures refused_runs_leave_no_image_of_the_second { IsRefused words.now (R.left settings.old)
        (D.contents area_a.old) (D.contents area_b.old) →
        LeavesOnly D.moment D.images_since area_b.old area_b.new (D.images area_b.old) }
    ensures first_area_unused_before_the_registry { IsUnprepared result → area_a.new ≡ area_a.old }
    ensures second_area_unused_before_the_registry { IsUnprepared result → area_b.new ≡ area_b.old }
    ensures first_area_kept_on_refusal { IsRefusal result →
        IsSome (D.contents area_a.old) → IsSome (D.contents area_b.old) →
        D.contents area_a.new ≡ D.contents area_a.old }
    ensures second_area_kept_on_refusal { IsRefusal result →
        D.contents area_b.new ≡ D.contents area_b.old }
    ensures no_image_of_the_first_on_refusal { IsRefusal result →
        IsSome (D.contents area_a.old) → IsSome (D.contents area_b.old) →
        LeavesOnly D.moment D.images_since area_a.old area_a.new (D.images area_a.old) }
    ensures no_image_of_the_second_on_refusal { IsRefusal result →
        LeavesOnly D.moment D.images_since area_b.old area_b.new (D.images area_b.old) }
    ensures folder_kept_on_refusal { IsRefusal result → folder.new ≡ folder.old }
    ensures wires_kept_on_refusal { IsRefusal result → wires.new.items ≡ wires.old.items }

    // What a run that is not refused has done.
    ensures files_are_followed_only_with_once { IsBehindOpening result → AskForOnce words.now }
    ensures first_area_still_tells { IsSome (D.contents area_a.old) →
        IsSome (D.contents area_a.new) }
    ensures second_area_still_tells { IsSome (D.contents area_b.old) →
        IsSome (D.contents area_b.new) }
    ensures last_line_is_printed { IfSome (S.written out.old) (λ written.
        IsPrinted written (S.written out.new) result) }

    // The account of the run, and its rows.
    ensures accounted_for_where_all_tell { let all =
        outside_words F.Folder W.Wire D.Disk K.Clock B.Bell in
        let before = handed folder.old wires.old.items area_a.old area_b.old clock.old bell.old in
        let after = handed folder.new wires.new.items area_a.new area_b.new clock.new bell.new in
        IsAccountedWhereTold (disks_of D.Disk) (R.left settings.old) (lent_by before after)
        (objects_by all before after) result
        (StandsBehind (S.written out.old) (S.written out.new)) }
    ensures reported_rows_are_stored { IsSome (F.told folder.old) →
        AreAtRest D.contents D.images area_a.old area_b.old →
        IsReportEnd result → IfSome (S.written out.old) (λ written.
        Prints (ReportsStored (disks_of D.Disk) area_a.new area_b.new result) written
        (S.written out.new)) }
    ensures areas_are_at_rest_again { IsSome (F.told folder.old) →
        AreAtRest D.contents D.images area_a.old area_b.old →
        IsBehindOpening result → AreAtRest D.contents D.images area_a.new area_b.new }

    // Whom the status blames.
    ensures each_status_only_for_its_cause { let all =
        outside_words F.Folder W.Wire D.Disk K.Clock B.Bell in
        let before = handed folder.old wires.old.items area_a.old area_b.old clock.old bell.old in
        let after = handed folder.new wires.new.items area_a.new area_b.new clock.new bell.new in
        Cause (R.left settings.old)
        (all_signs (signs_of all before) (R.faults settings.old) (S.faults out.old))
        (all_signs (signs_of all after) (R.faults settings.new) (S.faults out.new)) result }

    // When it has to be done.
    ensures what_an_untroubled_run_ends_with { let all =
        outside_words F.Folder W.Wire D.Disk K.Clock B.Bell in
        let before = handed folder.old wires.old.items area_a.old area_b.old clock.old bell.old in
        let after = handed folder.new wires.new.items area_a.new area_b.new clock.new bell.new in
        IsUntroubled (disks_of D.Disk)
        (given_run words.now (R.left settings.old) area_a.old area_b.old)
        (all_signs (signs_of all before) (R.faults settings.old) (S.faults out.old))
        (all_signs (signs_of all after) (R.faults settings.new) (S.faults out.new)) →
        IsUntroubledEnd result }

    // What is closed, and what goes on.
    ensures clock_goes_on { MomentsGoOn (K.moments clock.old) (K.moments clock.new) }
    ensures the_clock_is_asked_as_often_as_the_bell { AsksOn 0
        (questions_of K.Clock B.Bell clock.old bell.old)
        (questions_of K.Clock B.Bell clock.new bell.new) }
    ensures as_many_wires { vec_len wires.new ≡ vec_len wires.old }
    ensures tails_closed { F.open_tails folder.old + 65_536 < 2 ^ 64 - 1 →
        F.open_tails folder.new ≡ F.open_tails folder.old }
    ensures links_finished { All (λ wire. W.open_links wire < 2 ^ 64 - 1) wires.old.items →
        map W.open_links wires.new.items ≡ map W.open_links wires.old.items }
{
    one_choice();
    let mut outside = Outside {
        folder: &mut *folder,
        wires: &mut *wires,
        a: &mut *area_a,
        b: &mut *area_b,
        clock: &mut *clock,
        bell: &mut *bell,
    };
    match run(rt, alloc, words, settings, &mut outside) {
        Ok(ending) => print_report(ending, out),
        Err(status) => print_status(status, out),
    }
}

fn print_report<S: Sink>(ending: Ending, out: &mut S) -> Status
    requires with_report { IsReportEnd ending.status }
    requires report { IsReportOf ending.status ending.report }
    ensures ends { IsPrintingEnd (S.faults out.old) (S.faults out.new) ending.status result }
    ensures printed { result ≡ ending.status → WritesAll (S.written out.old) ending.report (Ok tt)
        (S.written out.new) }
    ensures told { IfSome (S.written out.old) (λ written.
        IsPrinted written (S.written out.new) result) }
{
    let Ending { report, status } = ending;
    match write_all(out, report.bytes()) {
        Ok(()) => status,
        Err(_) => Status::OutFault,
    }
}

fn print_status<S: Sink>(status: Status, out: &mut S) -> Status
    requires without_report { IsRunEnd status }
    ensures printed { (result ≡ status)
        ⊎ ((result ≡ Status.OutFault) × Rose (S.faults out.old) (S.faults out.new)) }
    ensures told { IfSome (S.written out.old) (λ written.
        IsPrinted written (S.written out.new) result) }
    ensures faults_never_fall { S.faults out.old ≤ S.faults out.new }
{
    match status_line(&status, out) {
        Ok(()) => status,
        Err(_) => Status::OutFault,
    }
}

ghost use Rattle.std.specs.Prelude.{◌≡◌, ◌⊎◌, ◌++◌, length, map, IfErr, IfOk, OnOk};
ghost use Rattle.report.specs.Report.{IsReport};
ghost use Rattle.run_steps.specs.Met.{IsMetOf, IsTelling};
ghost use Rattle.beat_run.specs.Ended.{StandsForMet};
ghost use Rattle.beat_run.specs.Ends.{IsReportEnd, IsRunEnd};
ghost use Rattle.beat_run.specs.Skipped.{all_skipped, skipped_for};

use crate::status::status_of;
use prospect::Listed;
use registry_store::Store;
use report::{Passing, Status, Why, report_text};
use run_steps::{Met, Scanned, Worked, pass_over};
use std::alloc::Global;
use wire_base::{Blob, NoMemory};

/// What a run that was done or stopped reports.
#[derive(Drop)]
pub struct Ending {
    pub report: Blob,
    /// `Done` or `Stopped`.
    pub status: Status,
}

/// How many events of a run were shipped and dropped, by the settlements that the keeper collected.
#[derive(Clone, Copy)]
pub struct Totals {
    pub shipped: u64,
    pub dropped: u64,
}

/// What is reported of what a run has done, or the status that it ends with.
pub fn ending_of(
    alloc: Global,
    worked: Worked,
    store: &Store,
    totals: Totals,
    scanned: &Scanned,
    attempts: u32,
) -> Result<Ending, Status>
    requires of_these { IsMetOf (length scanned.now.listed.items) worked.met }
    ensures telling { IfOk result (λ _. IsTelling worked.met) }
    ensures report { IfOk result (λ ending. IsReport store.now.rows
        (all_skipped worked.passed.items scanned.entry.now)
        totals.shipped totals.dropped ending.status ending.report) }
    ensures stands { IfOk result (λ ending.
        StandsForMet scanned.entry.now.listed.items attempts worked.met ending.status) }
    ensures with_report { IfOk result (λ ending. IsReportEnd ending.status) }
    ensures refused { IfErr result (λ status. (status ≡ Status.NoMemory)
        ⊎ StandsForMet scanned.entry.now.listed.items attempts worked.met status) }
    ensures without_report { IfErr result IsRunEnd }
{
    let Worked { passed, met } = worked;
    let status = status_of(alloc, met, scanned.listed.as_slice(), attempts);
    match met {
        Met::Done | Met::Stopped => {
            let passed = with_skipped(alloc, passed, scanned)?;
            let report = report_text(
                alloc,
                store.rows(),
                &passed,
                totals.shipped,
                totals.dropped,
                &status,
            )?;
            Ok(Ending { report, status })
        }
        _ => Err(status),
    }
}

/// The paths that were skipped as files were opened, and after them those of files that the scan skipped.
fn with_skipped(
    alloc: Global,
    passed: Vec<Passing>,
    scanned: &Scanned,
) -> Result<Vec<Passing>, NoMemory>
    ensures { IfOk result (λ all. all.items ≡ all_skipped passed.items scanned.entry.now) }
{
    let mut all = passed;
    skip_for(alloc, Why::Gone, scanned.gone.as_slice(), &mut all)?;
    skip_for(alloc, Why::Small, scanned.small.as_slice(), &mut all)?;
    skip_for(alloc, Why::Doubled, scanned.doubled.as_slice(), &mut all)?;
    Ok(all)
}

/// Adds the paths of these files, which are skipped for this reason.
fn skip_for(
    alloc: Global,
    why: Why,
    files: &[Listed],
    passed: &mut Vec<Passing>,
) -> Result<(), NoMemory>
    ensures { OnOk result (passed.new.items ≡ passed.old.items ++ map (skipped_for why) files.now) }
{
    for one in files {
        pass_over(alloc, one, why, passed)?;
    }
    Ok(())
}

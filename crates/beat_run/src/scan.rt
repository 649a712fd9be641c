ghost use Rattle.std.specs.Prelude.{◌<◌, ◌≡◌, ◌≤◌, ◌-◌, ◌^◌, ℕ, length, All, IfErr, IfOk, IfSome, OnErr};
ghost use Rattle.outside.specs.Counts.{next_count};
ghost use Rattle.outside.specs.Times.{GivesMoment};
ghost use Rattle.prospect.specs.AskedFiles.{AreAskable};
ghost use Rattle.prospect.specs.Doubled.{AreKeysApart, PartsDoubled};
ghost use Rattle.prospect.specs.ListedFiles.{IsListedInRange};
ghost use Rattle.prospect.specs.Members.{HaveGlobs, HaveShortIds};
ghost use Rattle.wire_base.specs.Ranges.{IsMoment};
ghost use Rattle.run_steps.specs.Starting.{AreFewFiles, HaveRoomBefore, starts_among};
ghost use Rattle.beat_run.specs.Ends.{IsPartedEnd, IsScanEnd, IsStartEnd, ShowsScanEnd};
ghost use Rattle.beat_run.specs.Scanning.{TellsScanned};
ghost use Rattle.run_steps.specs.ClockOn.{MomentsGoOn};

use crate::status::{status_of_asking, status_of_join, status_of_scan};
use event_tree::InputRule;
use outside::{Clock, Folder};
use prospect::{Keyed, Listed, ask_files, list_files, part_doubled};
use report::Status;
use restart_join::Start;
use run_steps::{Scanned, starts_of};
use ship_core::Rows;
use std::alloc::Global;
use wire_base::Moment;

/// The files that the folder shows, at the moment before the scan, asked for their keys; those that have one, parted into the first of
/// each key and the others, and where each of the first starts by its row.
pub fn scan<F: Folder, K: Clock>(
    alloc: Global,
    inputs: &[InputRule],
    rows: &Rows,
    folder: &mut F,
    clock: &mut K,
) -> Result<Scanned, Status>
    requires globs { HaveGlobs inputs.now }
    requires short_ids { HaveShortIds inputs.now }
    requires askable { AreAskable inputs.now }
    requires few_rows { length rows.now ≤ 65_536 }
    ensures scanned { IfOk result (λ scanned. IfSome (F.told folder.old) (λ told.
        TellsScanned inputs.now told scanned (F.told folder.new))) }
    ensures few_listed { IfOk result (λ scanned. length scanned.listed.items ≤ 65_536) }
    ensures few { IfOk result (λ scanned. AreFewFiles rows.now scanned.listed.items) }
    ensures room { IfOk result (λ scanned.
        HaveRoomBefore rows.now scanned.listed.items (length scanned.listed.items)) }
    ensures starts { IfOk result (λ scanned.
        scanned.starts.items ≡ starts_among rows.now scanned.listed.items) }
    ensures of_inputs { IfOk result (λ scanned.
        All (λ one. one.input < length inputs.now) scanned.listed.items) }
    ensures in_range { IfOk result (λ scanned. All IsListedInRange scanned.listed.items) }
    ensures moment { IfOk result (λ scanned. IsMoment scanned.now) }
    ensures moment_given { IfOk result (λ scanned.
        GivesMoment (K.moments clock.old) scanned.now.0 (K.moments clock.new)) }
    ensures moment_given_first { OnErr result ((moment : ℕ) ×
        GivesMoment (K.moments clock.old) moment (K.moments clock.new)) }
    ensures clock_goes_on { MomentsGoOn (K.moments clock.old) (K.moments clock.new) }
    ensures asked { K.questions clock.new ≡ next_count (K.questions clock.old) }
    ensures shows_end { IfErr result (λ status. IfSome (F.told folder.old) (λ told.
        ShowsScanEnd inputs.now told rows.now (F.told folder.new) status)) }
    ensures ends { IfErr result (IsScanEnd (F.faults folder.old) (F.faults folder.new)) }
    ensures open_tails_kept { F.open_tails folder.old < 2 ^ 64 - 1 →
        F.open_tails folder.new ≡ F.open_tails folder.old }
    ensures folder_faults_never_fall { F.faults folder.old ≤ F.faults folder.new }
    ensures clock_faults_never_fall { K.faults clock.old ≤ K.faults clock.new }
{
    let now = clock.now();
    let listed = match list_files(alloc, folder, inputs) {
        Ok(listed) => listed,
        Err(error) => return Err(status_of_scan(error)),
    };
    match ask_files(alloc, folder, inputs, listed) {
        Ok(keyed) => part_files(alloc, rows, keyed, now),
        Err(error) => Err(status_of_asking(error)),
    }
}

/// The files with keys, parted, with where each of the first starts; and those that have none.
fn part_files(alloc: Global, rows: &Rows, keyed: Keyed, now: Moment) -> Result<Scanned, Status>
    requires few_rows { length rows.now ≤ 65_536 }
    ensures parts { IfOk result (λ scanned.
        PartsDoubled keyed.files.items scanned.listed.items scanned.doubled.items) }
    ensures gone { IfOk result (λ scanned. scanned.gone ≡ keyed.gone) }
    ensures small { IfOk result (λ scanned. scanned.small ≡ keyed.small) }
    ensures now { IfOk result (λ scanned. scanned.now ≡ now) }
    ensures few_listed { IfOk result (λ scanned. length scanned.listed.items ≤ 65_536) }
    ensures few { IfOk result (λ scanned. AreFewFiles rows.now scanned.listed.items) }
    ensures room { IfOk result (λ scanned.
        HaveRoomBefore rows.now scanned.listed.items (length scanned.listed.items)) }
    ensures starts { IfOk result (λ scanned.
        scanned.starts.items ≡ starts_among rows.now scanned.listed.items) }
    ensures refused { IfErr result (IsPartedEnd rows.now keyed.files.items) }
{
    let Keyed { files, gone, small } = keyed;
    match part_doubled(alloc, files) {
        Ok(parted) => {
            let starts = starts_by_rows(alloc, rows, parted.files.as_slice())?;
            Ok(Scanned {
                listed: parted.files,
                doubled: parted.doubled,
                gone,
                small,
                starts,
                now,
            })
        }
        Err(_) => Err(Status::NoMemory),
    }
}

/// Where each of these files starts.
fn starts_by_rows(alloc: Global, rows: &Rows, files: &[Listed]) -> Result<Vec<Start>, Status>
    requires few_rows { length rows.now ≤ 65_536 }
    requires apart { AreKeysApart files.now }
    ensures few_listed { IfOk result (λ _. length files.now ≤ 65_536) }
    ensures few { IfOk result (λ _. AreFewFiles rows.now files.now) }
    ensures room { IfOk result (λ _. HaveRoomBefore rows.now files.now (length files.now)) }
    ensures starts { IfOk result (λ starts. starts.items ≡ starts_among rows.now files.now) }
    ensures refused { IfErr result (IsStartEnd rows.now files.now) }
{
    match starts_of(alloc, rows, files) {
        Ok(starts) => Ok(starts),
        Err(error) => Err(status_of_join(error)),
    }
}

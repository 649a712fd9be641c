ghost use Rattle.std.specs.Prelude.{◌≡◌, ◌≢◌, ◌≤◌, ◌+◌, ◌==◌, [], All, Contains, IfErr, IfNone, IfOk, IfSome, OnErr, OnOk, false, filter, length, map, not, None, Some};
ghost use Rattle.std.specs.Bool.{OnFalse, OnTrue};
ghost use Rattle.file_table.specs.Entries.{opening_at};
ghost use Rattle.file_table.specs.Events.{Gone, News};
ghost use Rattle.file_table.specs.Tables.{Adds, AreSame, Closes, Finds, MayHear, StandsFor, closing_at, event_at, file_of, may_go};
ghost use Rattle.prospector_core.specs.KnownFiles.{AreBegun, known_of};
ghost use Rattle.prospector_core.specs.Limits.{IsFirstRefusal, refusals};
ghost use Rattle.watched_files.specs.Seen.{seen_in};
ghost use Rattle.watched_files.specs.Telling.{began_events, tell};
ghost use Rattle.watched_files.specs.Waits.{IsOpenedSo, IsSpent, waiting_key};
ghost use Rattle.watched_files.specs.Watching.{AreWatched, HaveSameFiles, IsTooMany, TakesScan};

use crate::scan_steps::{begin_files, compare_created, miss_unshown, show_all, take_changes};
use crate::seen::seen_in;
use crate::{SlotDeed, Waiting};
use file_table::{At, Deed, FileEntry, FileNews, FileTable, Inactive, TailLook};
use prospect::Listed;
use prospector_core::{Known, MAX_FILES, ProspectError, Prospector};
use ship_core::Rows;
use std::alloc::Global;
use wire_base::{Begin, Full, NoMemory, Slot};

/// What a scan listed.
#[derive(Drop)]
pub struct Scan<'a> {
    /// Its number, counted from 0; each scan has a greater one than those before it.
    pub number: u64,
    /// The files, in byte order of their paths. Those without keys are left out.
    pub listed: &'a [Listed],
    /// Whether no listing failed, and no asking: only by a whole scan is a file removed.
    pub whole: bool,
    /// Whether removed files of each input are to be forgotten, by the input's place in the settings.
    pub clean: &'a [bool],
}

/// The files that a run follows: each has a slot, a key that no other has, and a state.
#[derive(Debug, Drop)]
pub struct WatchedFiles {
    prospector: Prospector,
    table: FileTable,
    ghost in_step: { AreWatched prospector table },
}

impl WatchedFiles {
    /// The files with which a run begins. A file whose key has a row in the registry goes on at the row's epoch and offset, and
    /// each other one at epoch 0 and 0. `others` is the number of rows that are of no followed file.
    pub fn begin(
        alloc: Global,
        rows: &Rows,
        begins: &[Begin],
        others: u32,
    ) -> Result<WatchedFiles, NoMemory>
        requires begun { AreBegun begins.now }
        requires few { length begins.now + others ≤ MAX_FILES }
        ensures known { IfOk result (λ files. files.prospector ≡ record
            { files = map known_of begins.now; next = length begins.now; others = others }) }
        ensures begun { IfOk result (λ files.
            StandsFor (tell [] (began_events rows.now begins.now)) files.table) }
    {
        let prospector = Prospector::begin(alloc, begins, others)?;
        let mut table = FileTable::new(alloc);
        begin_files(&mut table, rows, begins)?;
        Ok(WatchedFiles { prospector, table })
    }

    /// Takes a scan in; what is to be done, in this order. The path of a Rename, and of the Begin of a removed file, is that of
    /// `known`.
    ///
    /// `TooMany` names what is at its limit, and the path of the first file that needs one more; then all stays as it was. Out of
    /// memory, the scan may be taken in part, with each file still known by one slot.
    pub fn take_scan(
        &mut self,
        alloc: Global,
        scan: &Scan<'_>,
    ) -> Result<Vec<SlotDeed>, ProspectError>
        ensures taken { IfOk result (λ deeds. TakesScan scan.now.number scan.now.clean.now
            scan.now.whole
            (seen_in scan.now.listed.now) self.old.prospector self.old.table
            deeds.items self.new.prospector self.new.table) }
        ensures none_too_many { OnOk result
            (refusals self.old.prospector (seen_in scan.now.listed.now) ≡ []) }
        ensures refused { IfErr result
            (IsFirstRefusal (refusals self.old.prospector (seen_in scan.now.listed.now))) }
        ensures known_kept { IfErr result (λ error. IsTooMany error →
            self.new.prospector ≡ self.old.prospector) }
        ensures files_kept { IfErr result (λ error. IsTooMany error →
            HaveSameFiles self.old.table self.new.table) }
    {
        let seen = seen_in(alloc, scan.listed)?;
        let prospector = &mut self.prospector;
        let table = &mut self.table;
        let (whole, clean) = (scan.whole, scan.clean);
        let changes = compare_created(alloc, prospector, table, &seen, whole, clean)?;
        let mut deeds = Vec::new(alloc);
        take_changes(table, prospector, clean, scan.number, &changes, &mut deeds)?;
        show_all(table, prospector, scan.number, &seen);
        miss_unshown(table, prospector, scan.number, whole, &mut deeds)?;
        Ok(deeds)
    }

    /// The known file of this slot, with the path by which a scan showed it last. `None` exactly if there is none.
    pub fn known(&self, slot: Slot) -> Option<&Known>
        ensures found { IfSome result (λ file. Contains self.now.prospector.files file.now) }
        ensures of_slot { IfSome result (λ file. file.now.slot ≡ slot) }
        ensures none { IfNone result (All (λ file. file.slot ≢ slot) self.now.prospector.files) }
    {
        self.prospector.file_of(slot)
    }

    /// The state of the file of this slot. `None` exactly if there is none.
    pub fn state(&self, slot: Slot) -> Option<&FileEntry>
        ensures { Finds (file_of self.now.table slot.0) result }
    {
        self.table.find(slot)
    }

    /// How a listed file is to be opened after the scan of this number. `None` exactly if it is not to be opened; `Err` exactly if it
    /// is, and is shorter than the place from which it goes on, in its last epoch.
    pub fn waiting(&self, number: u64, listed: &Listed) -> Result<Option<Waiting>, Full>
        ensures answered { IfOk result (IsOpenedSo (waiting_key number
            self.now.prospector self.now.table listed.now.key) listed.now.size) }
        ensures spent { OnErr result (IsSpent (waiting_key number
            self.now.prospector self.now.table listed.now.key) listed.now.size) }
        ensures of_epochs { IfErr result (λ what. what ≡ Full.Epochs) }
    {
        let Some(key) = &listed.key else {
            return Ok(None);
        };
        let Some(slot) = self.prospector.slot_of(key.bytes()) else {
            return Ok(None);
        };
        match self.table.find(slot) {
            Some(entry) if entry.waits_in(number) => opening(slot, entry, listed.size),
            _ => Ok(None),
        }
    }

    /// A tail of a file that waits was opened, and is read from this place on.
    pub fn opened(&mut self, slot: Slot, at: At)
        requires { MayHear (FileNews.Opened at) (file_of self.old.table slot.0) }
        ensures opened { Adds (event_at slot (News (FileNews.Opened at)))
            self.old.table self.new.table }
        ensures known { self.new.prospector ≡ self.old.prospector }
    {
        self.table.opened(slot, at);
    }

    /// Closes the tail of this slot's file, if a look at it asks for that; what is to be done then. `None` exactly if the tail
    /// stays open, or there is none.
    pub fn close(&mut self, slot: Slot, look: &TailLook, inactive: Inactive) -> Option<Deed>
        ensures closed { IfSome result (λ asked.
            Closes slot look.now inactive self.old.table asked self.new.table) }
        ensures stays_open { IfNone result
            (closing_at (file_of self.old.table slot.0) look.now inactive ≡ None) }
        ensures kept { IfNone result (AreSame self.old.table self.new.table) }
        ensures known { self.new.prospector ≡ self.old.prospector }
    {
        self.table.close(slot, look, inactive)
    }

    /// Forgets the file of this slot if it is to go, unless a row of it is still stored. Whether it left: its key is then not known,
    /// and a scan that shows it gives it a new slot.
    pub fn gone(&mut self, slot: Slot, stored: bool) -> bool
        ensures exactly { result ≡ may_go stored (file_of self.old.table slot.0) }
        ensures left { OnTrue result (Adds (event_at slot Gone) self.old.table self.new.table) }
        ensures unknown { OnTrue result (self.new.prospector ≡ record self.old.prospector
            { files = filter (λ file. not (file.slot.0 == slot.0)) self.old.prospector.files }) }
        ensures kept { OnFalse result (AreSame self.old.table self.new.table) }
        ensures known { OnFalse result (self.new.prospector ≡ self.old.prospector) }
    {
        let left = self.table.gone(slot, stored);
        if left {
            self.prospector.gone(slot);
        }
        left
    }
}

/// How a file of this entry is opened that was listed with this size in bytes.
fn opening(slot: Slot, entry: &FileEntry, size: u64) -> Result<Option<Waiting>, Full>
    ensures opened { IfOk result (IsOpenedSo
        (Some (record { slot = slot; entry = entry.now })) size) }
    ensures spent { OnErr result (opening_at entry.now.at size ≡ None) }
    ensures of_epochs { IfErr result (λ what. what ≡ Full.Epochs) }
{
    match entry.opening(size) {
        Some(at) => Ok(Some(Waiting {
            slot,
            at,
            registered: entry.registered,
        })),
        None => Err(Full::Epochs),
    }
}

ghost use Rattle.std.specs.Prelude.{◌≡◌, [], IfOk, IfSome, IfNone, None, OnErr, OnOk, Some};
ghost use Rattle.std.specs.Bool.{OnFalse, OnTrue};
ghost use Rattle.file_table.specs.Entries.{created_entry};
ghost use Rattle.file_table.specs.Events.{Began, Created, Gone, IsCreated, News, news_of};
ghost use Rattle.file_table.specs.Tables.{Adds, AreSame, Closes, EndsScan, Finds, Hears, IsFirstFrom, MayHear, Puts, StandsFor, Takes, closing_at, event_at, file_of, may_go, was_missed};

use crate::closing::closing_of;
use crate::{At, Deed, FileEntry, FileNews, Inactive, Stand, TailLook};
use prospector_core::Change;
use std::alloc::Global;
use std::collections::BTreeMap;
use wire_base::{NoMemory, Slot};

/// The known files, by their slots.
#[derive(Debug, Drop)]
pub struct FileTable {
    files: BTreeMap<u32, FileEntry>,
}

impl FileTable {
    /// A table without files. Takes no memory.
    pub fn new(alloc: Global) -> FileTable
        ensures { StandsFor [] result }
    {
        FileTable {
            files: BTreeMap::new(alloc),
        }
    }

    /// The file of this slot. `None` exactly if the table has none.
    pub fn find(&self, slot: Slot) -> Option<&FileEntry>
        ensures { Finds (file_of self.now slot.0) result }
    {
        self.files.get(&slot.0)
    }

    /// The first file from this slot on. `None` exactly if there is none.
    pub fn first_from(&self, from: Slot) -> Option<(Slot, &FileEntry)>
        ensures { IsFirstFrom from.0 self.now result }
    {
        let (slot, entry) = self.files.range(from.0..).next()?;
        Some((Slot(*slot), entry))
    }

    /// The run begins with a file, which goes on at this place; `row` says whether a row of it is stored.
    pub fn begin(&mut self, slot: Slot, at: At, row: bool) -> Result<(), NoMemory>
        ensures begun { OnOk result (Adds (event_at slot (Began at row)) self.old self.new) }
        ensures kept { OnErr result (AreSame self.old self.new) }
    {
        self.files.insert(slot.0, FileEntry::begun(at, row))?;
        Ok(())
    }

    /// Takes in what the scan of this number found of a file; what is to be done. `clean` says whether removed files of its
    /// input are to be forgotten. Takes memory only for a file that is Created.
    pub fn take(&mut self, change: &Change, scan: u64, clean: bool) -> Result<Deed, NoMemory>
        ensures taken { IfOk result (λ asked.
            Takes (news_of scan clean change.now) self.old asked self.new) }
        ensures kept { OnErr result (AreSame self.old self.new) }
        ensures refused_only_where_created { OnErr result (IsCreated change.now) }
    {
        match change {
            Change::Created { slot, .. } => self.create(*slot),
            Change::Returned { slot, .. } => Ok(self.hear(*slot, FileNews::Returned)),
            Change::Renamed { slot, .. } => Ok(self.hear(*slot, FileNews::Renamed { scan })),
            Change::Written { slot, .. } | Change::Truncated { slot, .. } => {
                Ok(self.hear(*slot, FileNews::Resized))
            }
            Change::Removed { slot } => Ok(self.hear(*slot, FileNews::Removed { clean })),
            Change::Doubled { .. } => Ok(Deed::Nothing),
        }
    }

    /// The scan of this number showed the key of this slot's file.
    pub fn show(&mut self, slot: Slot, scan: u64)
        ensures { Adds (event_at slot (News (FileNews.Shown scan))) self.old self.new }
    {
        self.hear(slot, FileNews::Shown { scan });
    }

    /// The scan of this number is over: a file that a whole one did not show is forgotten, if it is lost.
    pub fn end_scan(&mut self, slot: Slot, scan: u64, whole: bool) -> Deed
        ensures { EndsScan (was_missed scan whole (file_of self.old slot.0)) slot self.old result
            self.new }
    {
        match self.find(slot) {
            Some(entry) if whole && entry.shown != Some(scan) => self.hear(slot, FileNews::Missed),
            _ => Deed::Nothing,
        }
    }

    /// A tail of a file that waits was opened, and goes on at this place.
    pub fn opened(&mut self, slot: Slot, at: At)
        requires { MayHear (FileNews.Opened at) (file_of self.old slot.0) }
        ensures { Adds (event_at slot (News (FileNews.Opened at))) self.old self.new }
    {
        self.hear(slot, FileNews::Opened { at });
    }

    /// Closes the tail of this slot's file, if a look at it asks for that; what is to be done then. `None` exactly if the tail
    /// stays open, or there is none.
    pub fn close(&mut self, slot: Slot, look: &TailLook, inactive: Inactive) -> Option<Deed>
        ensures closed { IfSome result (λ asked.
            Closes slot look.now inactive self.old asked self.new) }
        ensures stays_open { IfNone result
            (closing_at (file_of self.old slot.0) look.now inactive ≡ None) }
        ensures kept { IfNone result (AreSame self.old self.new) }
    {
        let closing = closing_of(self.find(slot)?.stand, look, inactive)?;
        let at = look.told;
        Some(self.hear(slot, FileNews::Shut { at, closing }))
    }

    /// Takes a file that is forgotten out, unless a row of it is still stored. Whether it left.
    pub fn gone(&mut self, slot: Slot, stored: bool) -> bool
        ensures exactly { result ≡ may_go stored (file_of self.old slot.0) }
        ensures left { OnTrue result (Adds (event_at slot Gone) self.old self.new) }
        ensures kept { OnFalse result (AreSame self.old self.new) }
    {
        match self.find(slot) {
            Some(entry) if !stored && entry.stand == Stand::Forgotten => {
                self.files.remove(&slot.0);
                true
            }
            _ => false,
        }
    }

    /// A scan shows a file for the first time. The same as `take` of its change, for a caller that takes the memory for all of them
    /// before it takes a change.
    pub fn create(&mut self, slot: Slot) -> Result<Deed, NoMemory>
        ensures created { IfOk result (λ asked.
            Hears (event_at slot Created) self.old asked self.new) }
        ensures puts { OnOk result (Puts self.old self.new slot.0 (Some created_entry)) }
        ensures kept { OnErr result (AreSame self.old self.new) }
    {
        self.files.insert(slot.0, FileEntry::created())?;
        Ok(Deed::Nothing)
    }

    /// Takes the file of this slot out, as if no scan had shown it: for a scan that is refused after its files were created.
    pub fn withdraw(&mut self, slot: Slot)
        ensures { Puts self.old self.new slot.0 None }
    {
        self.files.remove(&slot.0);
    }

    /// Takes in one piece of news; what it asks for.
    fn hear(&mut self, slot: Slot, news: FileNews) -> Deed
        requires { MayHear news (file_of self.old slot.0) }
        ensures { Hears (event_at slot (News news)) self.old result self.new }
    {
        match self.files.get_mut(&slot.0) {
            Some(entry) => entry.hear(news),
            None => Deed::Nothing,
        }
    }
}

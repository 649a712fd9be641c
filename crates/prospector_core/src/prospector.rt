ghost use Rattle.std.specs.Prelude.{◌≡◌, ◌≢◌, ◌≤◌, ◌+◌, ◌==◌, [], All, Contains, IfErr, IfNone, IfOk, IfSome, OnErr, OnOk, false, filter, length, map, not, true};
ghost use Rattle.prospector_core.specs.Changes.{changes_between, known_after};
ghost use Rattle.prospector_core.specs.KnownFiles.{AreBegun, AreKnown, known_of, slot_with};
ghost use Rattle.prospector_core.specs.Limits.{IsFirstRefusal, refusals};
ghost use Rattle.prospector_core.specs.Marks.{AreApart, Stays, forgotten, here};

use crate::key_index::{grow_index, index_keys, need_index, place_by_key, place_of_slot};
use crate::marks::{Mark, Watched, clear_marks, settle};
use crate::told::{Scan, tell_scan};
use crate::{Change, Known, MAX_FILES, ProspectError, Seen};
use std::alloc::Global;
use std::marker::Model;
use wire_base::{Begin, NoMemory, Slot};

/// The files that are remembered from one scan to the next.
#[derive(Debug, Drop)]
pub struct Prospector {
    /// In the order of their slots, with those that are gone since the last scan.
    watched: Vec<Watched>,
    /// The places of these in byte order of their keys.
    order: Vec<usize>,
    /// The order is of the files as they are.
    indexed: bool,
    /// Some of them are gone.
    some_gone: bool,
    /// The slot of the next file.
    next: u32,
    /// How many rows of other inputs count as files.
    others: u32,
}

impl Model for Prospector {
    ghost use Rattle.prospector_core.specs.KnownFiles.{KnownFiles};
    ghost use Rattle.prospector_core.specs.Watching.{IsWatching, known_by};

    ghost Value = { KnownFiles };

    ghost view = { λ p. known_by p.watched.items p.next p.others };

    ghost invariant = { λ p. IsWatching p.watched.items p.order.items p.indexed p.some_gone p.next p.others };
}

impl Prospector {
    /// Remembers the files with which a run begins; `others` counts the rows of other inputs.
    pub fn begin(alloc: Global, begins: &[Begin], others: u32) -> Result<Prospector, NoMemory>
        requires begun { AreBegun begins.now }
        requires few { length begins.now + others ≤ MAX_FILES }
        ensures remembers { IfOk result (λ prospector. prospector ≡ record { files = map known_of begins.now; next = length begins.now; others = others }) }
        ensures known { IfOk result AreKnown }
    {
        let mut watched = Vec::with_capacity(alloc, begins.len())?;
        for begin in begins {
            let file = known_of(alloc, begin)?;
            watched.push(Watched {
                file,
                mark: Mark::Unseen,
                gone: false,
            })?;
        }
        let mut order = Vec::new(alloc);
        index_keys(&watched, &mut order)?;
        let next = watched.len() as u32;
        Ok(Prospector {
            watched,
            order,
            indexed: true,
            some_gone: false,
            next,
            others,
        })
    }

    /// Reports what one scan says, and remembers it.
    ///
    /// `seen` is given in byte order of the paths, so that of several paths of one file the first is followed. `clean`
    /// says of each input, by its number, whether its removed files are to be forgotten. A scan is `whole` if none of
    /// its listings and no identity asked for it failed.
    pub fn compare(
        &mut self,
        alloc: Global,
        seen: &[Seen],
        whole: bool,
        clean: &[bool],
    ) -> Result<Vec<Change>, ProspectError>
        ensures told { IfOk result (λ changes. changes.items ≡ changes_between clean.now whole self.old seen.now) }
        ensures remembered { OnOk result (self.new ≡ known_after clean.now whole self.old seen.now) }
        ensures none_too_many { OnOk result (refusals self.old seen.now ≡ []) }
        ensures refused { IfErr result (IsFirstRefusal (refusals self.old seen.now)) }
        ensures kept_on_refusal { OnErr result (self.new ≡ self.old) }
        ensures known { AreKnown self.new }
    {
        self.indexed = sweep(&mut self.watched, self.some_gone, self.indexed);
        self.some_gone = false;
        need_index(&self.watched, &mut self.order, self.indexed)?;
        self.indexed = true;
        let scan = Scan { seen, clean, whole };
        let files = self.watched.len() + self.others as usize;
        let told = match tell_scan(
            alloc,
            &mut self.watched,
            &self.order,
            &scan,
            self.next,
            files,
        ) {
            Ok(told) => told,
            Err(error) => {
                clear_marks(&mut self.watched);
                return Err(error);
            }
        };
        settle(&mut self.watched, whole);
        let grown = told.next != self.next;
        self.indexed = grow_index(&self.watched, &mut self.order, grown);
        self.next = told.next;
        Ok(told.changes)
    }

    /// Forgets a file whose row is gone. Takes no memory, and little time: it leaves with the next scan.
    pub fn gone(&mut self, slot: Slot)
        ensures forgotten { self.new ≡ record self.old { files = filter (λ file. not (file.slot.0 == slot.0)) self.old.files } }
        ensures known { AreKnown self.new }
    {
        forget(&mut self.watched, slot);
        self.some_gone = true;
    }

    /// The known file of this slot. `None` exactly if there is none. Takes little time.
    pub fn file_of(&self, slot: Slot) -> Option<&Known>
        ensures found { IfSome result (λ file. Contains self.now.files file.now) }
        ensures of_slot { IfSome result (λ file. file.now.slot ≡ slot) }
        ensures none { IfNone result (All (λ file. file.slot ≢ slot) self.now.files) }
    {
        let place = place_of_slot(&self.watched, slot)?;
        let one = &self.watched[place];
        if one.gone {
            return None;
        }
        Some(&one.file)
    }

    /// The slot that the next file gets.
    pub fn next_slot(&self) -> Slot
        ensures { result.0 ≡ self.now.next }
    {
        Slot(self.next)
    }

    /// The slot of the known file with this key. `None` exactly where there is none. Takes little time; only after a scan that
    /// was told without memory for its keys it looks at each file, until the next scan.
    pub fn slot_of(&self, key: &[u8]) -> Option<Slot>
        ensures { result ≡ slot_with key.now self.now.files }
    {
        let place = place_by_key(&self.watched, &self.order, self.indexed, key)?;
        let one = &self.watched[place];
        if one.gone {
            return None;
        }
        Some(one.file.slot)
    }
}

/// Takes those that are gone out; whether the index is still of the files as they are.
fn sweep(watched: &mut Vec<Watched>, some_gone: bool, indexed: bool) -> bool
    requires { some_gone ≡ false → All Stays watched.old.items }
    ensures swept { watched.new.items ≡ here watched.old.items }
    ensures indexed { result ≡ true → indexed ≡ true }
    ensures all_kept { result ≡ true → watched.new.items ≡ watched.old.items }
{
    if !some_gone {
        return indexed;
    }
    watched.retain(|one| !one.gone);
    false
}

/// The file of this slot is gone.
fn forget(watched: &mut [Watched], slot: Slot)
    requires { AreApart watched.old }
    ensures { watched.new ≡ map (forgotten slot.0) watched.old }
{
    match place_of_slot(watched, slot) {
        Some(place) => watched[place].gone = true,
        None => {}
    }
}

fn known_of(alloc: Global, begin: &Begin) -> Result<Known, NoMemory>
    ensures { IfOk result (λ file. file ≡ known_of begin.now) }
{
    Ok(Known {
        slot: begin.slot,
        input: begin.input,
        key: begin.key.copy(alloc)?,
        path: begin.path.copy(alloc)?,
        size: begin.size,
        present: true,
    })
}

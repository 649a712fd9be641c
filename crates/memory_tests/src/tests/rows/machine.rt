//! Notes given to the registry machine and to the tracker, each of which may follow those before it.
ghost use Rattle.std.specs.Prelude.{◌≡◌, [], true, IfOk, OnOk};
ghost use Rattle.wire_base.specs.Ranges.{IsNote};

use crate::tests::rows::orderly::may_follow;
use ack_tracker::Tracker;
use ship_core::{CoreStep, Rows, World};
use std::alloc::Global;
use std::process::Abort;
use std::test::Fail;
use wire_base::{NoMemory, Note};

fn copy_of(alloc: Global, note: &Note) -> Result<Note, NoMemory>
    ensures { IfOk result (λ copy. copy ≡ note.now) }
{
    Ok(match note {
        Note::Begin {
            slot,
            key,
            path,
            epoch,
            base,
            changed,
        } => Note::Begin {
            slot: *slot,
            key: key.copy(alloc)?,
            path: path.copy(alloc)?,
            epoch: *epoch,
            base: *base,
            changed: *changed,
        },
        Note::Announce { slot, epoch } => Note::Announce {
            slot: *slot,
            epoch: *epoch,
        },
        Note::Settle {
            slot,
            epoch,
            span,
            cause,
        } => Note::Settle {
            slot: *slot,
            epoch: *epoch,
            span: *span,
            cause: *cause,
        },
        Note::Rename { slot, scan, path } => Note::Rename {
            slot: *slot,
            scan: *scan,
            path: path.copy(alloc)?,
        },
        Note::Seen { slot, changed } => Note::Seen {
            slot: *slot,
            changed: *changed,
        },
        Note::Forget { slot, epoch, end } => Note::Forget {
            slot: *slot,
            epoch: *epoch,
            end: *end,
        },
    })
}

/// The machine and the tracker, given the same notes.
#[derive(Drop)]
pub(crate) struct Told {
    pub(crate) world: World,
    pub(crate) tracker: Tracker,
    // those since the machine runs
    pub(crate) notes: Vec<Note>,
}

impl Told {
    pub(crate) fn new(alloc: Global) -> Result<Told, NoMemory>
        ensures runs { IfOk result (λ told. told.world.runs ≡ true) }
        ensures same { IfOk result (λ told. told.world.notes ≡ told.notes.items) }
    {
        Ok(Told {
            world: World::new(alloc),
            tracker: Tracker::new(alloc, &Rows::new(alloc))?,
            notes: Vec::new(alloc),
        })
    }

    /// Gives both a note.
    pub(crate) fn note(&mut self, rt: &impl Abort, alloc: Global, note: Note) -> Result<(), Fail>
        requires in_range { IsNote note }
        requires runs { self.old.world.runs ≡ true }
        requires same { self.old.world.notes ≡ self.old.notes.items }
        ensures runs { OnOk result (self.new.world.runs ≡ true) }
        ensures same { OnOk result (self.new.world.notes ≡ self.new.notes.items) }
    {
        assert!(rt; may_follow(&self.notes, &note));
        self.notes.push(copy_of(alloc, &note)?)?;
        self.tracker
            .note(alloc, copy_of(alloc, &note)?)
            .map_err(|_| NoMemory)?;
        self.world.step(alloc, CoreStep::Noted(note))?;
        Ok(())
    }

    /// Stores what is pending.
    pub(crate) fn commit(&mut self, alloc: Global) -> Result<(), NoMemory>
        requires runs { self.old.world.runs ≡ true }
        requires same { self.old.world.notes ≡ self.old.notes.items }
        ensures runs { OnOk result (self.new.world.runs ≡ true) }
        ensures same { OnOk result (self.new.world.notes ≡ self.new.notes.items) }
    {
        self.tracker.committed();
        self.world.step(alloc, CoreStep::Commit)
    }

    /// A crash leaves so many updates, and both begin again; answers the rows of the crashed machine.
    pub(crate) fn crash(&mut self, rt: &impl Abort, alloc: Global, left: u64) -> Result<Rows, Fail>
        requires { self.old.world.runs ≡ true }
        ensures runs { OnOk result (self.new.world.runs ≡ true) }
        ensures same { OnOk result (self.new.world.notes ≡ self.new.notes.items) }
    {
        let (committed, all) = self.world.updates();
        assert!(rt; committed <= left && left <= all);
        self.world.step(alloc, CoreStep::Crash(left))?;
        let rows = self.world.rows().copy(alloc)?;
        self.world.step(alloc, CoreStep::Restart)?;
        self.notes.clear();
        self.tracker = Tracker::new(alloc, self.world.rows())?;
        Ok(rows)
    }
}

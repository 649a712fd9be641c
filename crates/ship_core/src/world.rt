ghost use Rattle.std.specs.Prelude.{◌≡◌, ◌≤◌, ◌++◌, true, false, List, [], length, OnOk, OnErr};
ghost use Rattle.wire_base.specs.Ranges.{IsNote};
ghost use Rattle.wire_base.specs.declared.row.Row.{Row};
ghost use Rattle.wire_base.specs.declared.row.Op.{Op};
ghost use Rattle.ship_core.specs.Machine.{ArePending, AreRowsOf, IsCut, MayStep, Steps, at_start};
ghost use Rattle.ship_core.specs.Orderly.{MayFollow};
ghost use Rattle.ship_core.specs.declared.step.CoreStep.TheVariants.{Noted, Commit, Crash, Restart};

use crate::pending::{Ahead, replayed};
use crate::reading::slot_of;
use crate::rows::Rows;
use crate::step::CoreStep;
use std::alloc::Global;
use std::marker::Model;
use wire_base::{NoMemory, Note, Op};

/// The registry machine: the plain program of what notes, commits, crashes and restarts make of the registry's rows. It
/// keeps its notes and updates as lists.
#[derive(Debug, Drop)]
pub struct World {
    opening: Rows,
    notes: Vec<Note>,
    updates: Vec<Op>,
    runs: bool,
    ahead: Ahead,
}

impl Model for World {
    ghost use Rattle.ship_core.specs.Machine.{Core};
    ghost use Rattle.ship_core.specs.Standing.{IsWorld};

    ghost Value = { Core };

    ghost view = { λ w. record {
      opening = w.opening;
      notes = w.notes.items;
      updates = w.updates.items;
      runs = w.runs;
    } };

    ghost invariant = { λ w. IsWorld (record {
      opening = w.opening;
      notes = w.notes.items;
      updates = w.updates.items;
      runs = w.runs;
    }) w.ahead.durable w.ahead.rows w.ahead.pending.items };
}

impl World {
    /// Nothing is there yet, and it runs. Takes no memory yet, and keeps the allocator.
    pub fn new(alloc: Global) -> World
        ensures { result ≡ at_start }
    {
        World {
            opening: Rows::new(alloc),
            notes: Vec::new(alloc),
            updates: Vec::new(alloc),
            runs: true,
            ahead: Ahead {
                durable: Rows::new(alloc),
                rows: Rows::new(alloc),
                pending: Vec::new(alloc),
            },
        }
    }

    /// Makes one step.
    pub fn step(&mut self, alloc: Global, step: CoreStep) -> Result<(), NoMemory>
        requires { MayStep self.old step }
        ensures stepped { OnOk result (Steps self.old step self.new) }
        ensures kept { OnErr result (self.new ≡ self.old) }
    {
        match step {
            CoreStep::Noted(note) => self.note(alloc, note),
            CoreStep::Commit => self.commit(alloc),
            CoreStep::Crash(left) => self.crash(alloc, left),
            CoreStep::Restart => self.restart(alloc),
        }
    }

    fn note(&mut self, alloc: Global, note: Note) -> Result<(), NoMemory>
        requires in_range { IsNote note }
        requires follows { self.old.runs ≡ true → MayFollow self.old.notes note }
        ensures stepped { OnOk result (Steps self.old (Noted note) self.new) }
        ensures kept { OnErr result (self.new ≡ self.old) }
    {
        if !self.runs {
            return Ok(());
        }
        let slot = slot_of(&note);
        self.notes.push(note)?;
        match self.ahead.renew(alloc, &self.opening, &self.notes, slot) {
            Ok(()) => Ok(()),
            Err(full) => {
                self.notes.pop();
                Err(full)
            }
        }
    }

    fn commit(&mut self, alloc: Global) -> Result<(), NoMemory>
        ensures stepped { OnOk result (Steps self.old Commit self.new) }
        ensures kept { OnErr result (self.new ≡ self.old) }
    {
        if !self.runs {
            return Ok(());
        }
        let durable = self.ahead.rows.copy(alloc)?;
        self.updates.append(&mut self.ahead.pending)?;
        self.ahead.durable = durable;
        Ok(())
    }

    fn crash(&mut self, alloc: Global, left: u64) -> Result<(), NoMemory>
        requires { self.old.runs ≡ true → IsCut self.old left }
        ensures stepped { OnOk result (Steps self.old (Crash left) self.new) }
        ensures kept { OnErr result (self.new ≡ self.old) }
    {
        if !self.runs {
            return Ok(());
        }
        let left = left as usize;
        let stored = &self.ahead.pending[..left - self.updates.len()];
        let durable = replayed(alloc, &self.ahead.durable, stored)?;
        let rows = durable.copy(alloc)?;
        self.updates.append(&mut self.ahead.pending)?;
        self.updates.truncate(left);
        self.notes.clear();
        self.ahead.durable = durable;
        self.ahead.rows = rows;
        self.runs = false;
        Ok(())
    }

    fn restart(&mut self, alloc: Global) -> Result<(), NoMemory>
        ensures stepped { OnOk result (Steps self.old Restart self.new) }
        ensures kept { OnErr result (self.new ≡ self.old) }
    {
        let opening = self.ahead.durable.copy(alloc)?;
        let rows = self.ahead.durable.copy(alloc)?;
        self.opening = opening;
        self.ahead.rows = rows;
        self.ahead.pending.clear();
        self.notes.clear();
        self.runs = true;
        Ok(())
    }

    /// The rows over the opening rows and the notes while it runs, else what is left of the updates.
    pub fn rows(&self) -> &Rows
        ensures { AreRowsOf self.now result.now }
    {
        &self.ahead.rows
    }

    /// How many updates were committed, and how many there are with the pending ones, of which there are none after a
    /// crash. Takes no memory.
    pub fn updates(&self) -> (u64, u64)
        ensures committed { result.0 ≡ length self.now.updates }
        ensures all { (pending : List Op) → ArePending self.now pending →
            result.1 ≡ length (self.now.updates ++ pending) }
        ensures stopped { self.now.runs ≡ false → result.1 ≡ result.0 }
    {
        let committed = self.updates.len() as u64;
        (committed, committed + self.ahead.pending.len() as u64)
    }
}

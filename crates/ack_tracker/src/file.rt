ghost use Rattle.std.specs.Prelude.{◌≡◌, ℕ, List, [], ◌∷◌, ◌++◌, max, IsTrue, IfOk, IfErr, IfSome, OnOk, OnErr, None, Some};
ghost use Rattle.std.specs.Str.{bytes_eq};
ghost use Rattle.wire_base.specs.Ranges.{IsKey, IsMoment, IsNote, IsPath, IsPlace, IsRow};
ghost use Rattle.wire_base.specs.declared.note.Note.{Note};
ghost use Rattle.wire_base.specs.declared.note.Note.TheVariants.{Begin};
ghost use Rattle.ack_tracker.specs.FileState.{MayAdd, Settles, Stands, forgotten, is_gone, is_older, lesser, place_in, renamed, risen, row_in};

use crate::coverage::Coverage;
use crate::reach::Reach;
use std::alloc::Global;
use std::marker::Model;
use wire_base::{Epoch, Moment, NoMemory, Note, Row, Slot, Span, Text};

/// What is kept of one file in place of its notes.
#[derive(Debug, Drop)]
pub(crate) struct File {
    key: Text,
    path: Text,
    /// The scan that found the path; none if the Begin gave it.
    scan: Option<u64>,
    /// The greatest that was named.
    epoch: u32,
    coverage: Coverage,
    /// The least from which on the file is to go.
    least: Option<Reach>,
    /// The greatest moment of change.
    changed: u64,
}

impl Model for File {
    ghost use Rattle.ack_tracker.specs.FileState.{FileState, IsFile};

    ghost Value = { FileState };

    ghost view = { λ f. record { key = f.key; path = f.path; scan = f.scan; epoch = f.epoch; covered = f.coverage; least = f.least; changed = f.changed } };

    ghost invariant = { λ f. IsFile f.key f.path f.changed };
}

impl File {
    pub(crate) fn begin(
        alloc: Global,
        key: Text,
        path: Text,
        epoch: Epoch,
        base: u64,
        changed: Moment,
    ) -> File
        requires key { IsKey key }
        requires path { IsPath path }
        requires base { IsPlace base }
        requires changed { IsMoment changed }
        ensures { result ≡ record {
          key = key;
          path = path;
          scan = None;
          epoch = epoch.0;
          covered = record { end = base; ahead = [] };
          least = None;
          changed = changed.0;
        } }
    {
        File {
            key,
            path,
            scan: None,
            epoch: epoch.0,
            coverage: Coverage::new(alloc, base),
            least: None,
            changed: changed.0,
        }
    }

    /// The note by which the file of the slot began.
    pub(crate) fn into_begin(self, slot: Slot) -> Note
        ensures { result ≡ Begin slot self.key self.path (record { 0 = self.epoch })
            self.covered.end (record { 0 = self.changed }) }
    {
        let File {
            key,
            path,
            scan: _,
            epoch,
            coverage,
            least: _,
            changed,
        } = self;
        Note::Begin {
            slot,
            key,
            path,
            epoch: Epoch(epoch),
            base: coverage.end(),
            changed: Moment(changed),
        }
    }

    pub(crate) fn key(&self) -> &Text
        ensures key { result.now ≡ self.now.key }
        ensures in_range { IsKey result.now }
    {
        &self.key
    }

    pub(crate) fn has_key(&self, key: &Text) -> bool
        ensures { result ≡ bytes_eq self.now.key key.now }
    {
        self.key == *key
    }

    /// Notes one thing more of the file. `Err` means out of memory, and gives the note back.
    pub(crate) fn note(&mut self, alloc: Global, note: Note) -> Result<(), Note>
        requires { IsNote note }
        ensures noted { OnOk result ((notes : List Note) → MayAdd notes note →
            Stands notes self.old → Stands (notes ++ note ∷ []) self.new) }
        ensures gone_stays { IsTrue (is_gone self.old) → IsTrue (is_gone self.new) }
        ensures key_stays { self.new.key ≡ self.old.key }
        ensures kept { OnErr result (self.new ≡ self.old) }
        ensures given_back { IfErr result (λ back. back ≡ note) }
    {
        match note {
            Note::Settle {
                slot,
                epoch,
                span,
                cause,
            } => match self.settle(alloc, epoch.0, span) {
                Ok(()) => Ok(()),
                Err(_) => Err(Note::Settle {
                    slot,
                    epoch,
                    span,
                    cause,
                }),
            },
            Note::Announce { epoch, .. } => {
                self.rise(alloc, epoch.0);
                Ok(())
            }
            Note::Rename { scan, path, .. } => {
                self.rename(scan, path);
                Ok(())
            }
            Note::Seen { changed, .. } => {
                self.see(changed);
                Ok(())
            }
            Note::Forget { epoch, end, .. } => {
                let reach = Reach {
                    epoch: epoch.0,
                    end,
                };
                self.forget(alloc, reach);
                Ok(())
            }
            Note::Begin { .. } => Ok(()),
        }
    }

    /// A later epoch begins at the first byte.
    fn rise(&mut self, alloc: Global, epoch: u32)
        ensures { self.new ≡ risen epoch self.old }
    {
        if epoch <= self.epoch {
            return;
        }
        self.epoch = epoch;
        self.coverage = Coverage::new(alloc, 0);
    }

    /// A span is settled for the epoch; one of an older epoch changes nothing.
    fn settle(&mut self, alloc: Global, epoch: u32, span: Span) -> Result<(), NoMemory>
        requires { IsPlace span.end }
        ensures settled { OnOk result (Settles self.old epoch span self.new) }
        ensures kept { OnErr result (self.new ≡ self.old) }
    {
        if epoch == self.epoch {
            self.coverage.settle(span)?;
            return Ok(());
        }
        if epoch < self.epoch {
            return Ok(());
        }
        let mut coverage = Coverage::new(alloc, 0);
        coverage.settle(span)?;
        self.epoch = epoch;
        self.coverage = coverage;
        Ok(())
    }

    /// A scan found the path; that of the newest scan holds.
    fn rename(&mut self, scan: u64, path: Text)
        requires { IsPath path }
        ensures { self.new ≡ renamed scan path self.old }
    {
        if is_older(self.scan, scan) {
            self.path = path;
            self.scan = Some(scan);
        }
    }

    fn see(&mut self, changed: Moment)
        requires { IsMoment changed }
        ensures { self.new ≡ record self.old { changed = max self.old.changed changed.0 } }
    {
        self.changed = self.changed.max(changed.0);
    }

    /// The file is to go once it has come so far.
    fn forget(&mut self, alloc: Global, reach: Reach)
        ensures { self.new ≡ forgotten reach self.old }
    {
        self.rise(alloc, reach.epoch);
        self.least = Some(lesser(self.least, reach));
    }

    pub(crate) fn is_gone(&self) -> bool
        ensures { result ≡ is_gone self.now }
    {
        let reach = Reach {
            epoch: self.epoch,
            end: self.coverage.end(),
        };
        match self.least {
            Some(least) => least.is_not_above(reach),
            None => false,
        }
    }

    /// How far the file is done; none if its row is gone.
    pub(crate) fn place(&self) -> Option<(Epoch, u64)>
        ensures place { result ≡ place_in self.now }
        ensures in_range { IfSome result (λ place. IsPlace place.1) }
    {
        if self.is_gone() {
            None
        } else {
            Some((Epoch(self.epoch), self.coverage.end()))
        }
    }

    /// The file's row; none if it is gone.
    pub(crate) fn row(&self, alloc: Global) -> Result<Option<Row>, NoMemory>
        ensures row { IfOk result (λ row. row ≡ row_in self.now) }
        ensures in_range { IfOk result (λ row. IfSome row IsRow) }
    {
        if self.is_gone() {
            return Ok(None);
        }
        Ok(Some(Row {
            key: self.key.copy(alloc)?,
            path: self.path.copy(alloc)?,
            epoch: Epoch(self.epoch),
            offset: self.coverage.end(),
            changed: Moment(self.changed),
        }))
    }
}

/// Whether the path was found by a scan before this one, or given by the Begin.
fn is_older(found: Option<u64>, scan: u64) -> bool
    ensures { result ≡ is_older found scan }
{
    match found {
        Some(other) => other < scan,
        None => true,
    }
}

fn lesser(least: Option<Reach>, reach: Reach) -> Reach
    ensures { result ≡ lesser least reach }
{
    match least {
        Some(other) if other.is_not_above(reach) => other,
        _ => reach,
    }
}

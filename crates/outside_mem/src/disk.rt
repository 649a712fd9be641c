ghost use Rattle.std.specs.Prelude.{◌≡◌, ◌<◌, ◌≤◌, ◌+◌, [], Some, IfOk, OnOk, OnErr, length, vec_len};
ghost use Rattle.outside_mem.specs.Images.{after, fresh};

use crate::change::{Change, Write};
use crate::crash::{Filler, Replay, patched};
use crate::failures::Failures;
use crate::front::put_front;
use outside::{Disk, Failed};
use std::alloc::Global;
use wire_base::NoMemory;

/// A disk in memory that may stop at any call, all known: its bytes, and what a crash now or at any
/// earlier moment may leave.
#[derive(Drop)]
pub struct MemDisk {
    alloc: Global,
    first: Vec<u8>,
    changes: Vec<Change>,
    bytes: Vec<u8>,
    failures: Failures,
    ghost as_told: { bytes.items ≡ (after (fresh first.items) changes.items).bytes },
}

impl MemDisk {
    ghost use Rattle.std.specs.Prelude.{List, ℕ, length};
    ghost use Rattle.outside.specs.Counts.{added_counts};
    ghost use Rattle.outside.specs.DiskImages.{Only};
    ghost use Rattle.outside_mem.specs.Asked.{disk_asked};
    ghost use Rattle.outside_mem.specs.Filled.{image_by, image_of};
    ghost use Rattle.outside_mem.specs.Images.{after_change, IsImageOf};
    ghost use Rattle.outside_mem.specs.Disks.{now, Changes, IsUnchanged, StaysOrTears, Writes, Cuts};

    /// A disk with these bytes, all of them synced.
    pub fn new(alloc: Global, bytes: &[u8]) -> Result<MemDisk, NoMemory>
        ensures contents { IfOk result (λ disk. ⟦<MemDisk as Disk>⟧.contents disk ≡ Some bytes.now) }
        ensures durable { IfOk result (λ disk.
            Only (Some bytes.now) (⟦<MemDisk as Disk>⟧.images disk)) }
        ensures faults { IfOk result (λ disk. ⟦<MemDisk as Disk>⟧.faults disk ≡ 0) }
        ensures asked { IfOk result (λ disk. disk_asked disk ≡ 0) }
    {
        Ok(MemDisk {
            alloc,
            first: bytes.to_vec(alloc)?,
            changes: Vec::new(alloc),
            bytes: bytes.to_vec(alloc)?,
            failures: Failures::new(alloc),
        })
    }

    /// Names the calls that fail, counted from 0.
    pub fn fail_at(&mut self, calls: &[u64]) -> Result<(), NoMemory>
        ensures reading { now self.new ≡ now self.old }
        ensures faults { ⟦<MemDisk as Disk>⟧.faults self.new ≡ ⟦<MemDisk as Disk>⟧.faults self.old }
        ensures asked { disk_asked self.new ≡ disk_asked self.old }
    {
        self.failures.fail_at(calls)
    }

    /// Lets all calls but the first `calls` fail, counted from when the disk was made.
    pub fn stop_after(&mut self, calls: u64)
        ensures reading { now self.new ≡ now self.old }
        ensures faults { ⟦<MemDisk as Disk>⟧.faults self.new ≡ ⟦<MemDisk as Disk>⟧.faults self.old }
        ensures asked { disk_asked self.new ≡ disk_asked self.old }
    {
        self.failures.stop_after(calls);
    }

    /// How often it failed because it was out of memory.
    pub fn starved(&self) -> u64
        ensures { ⟦<MemDisk as Disk>⟧.faults self.now ≡ added_counts result (disk_asked self.now) }
    {
        self.failures.starved
    }

    /// The bytes as they read.
    pub fn bytes(&self) -> &[u8]
        ensures { ⟦<MemDisk as Disk>⟧.contents self.now ≡ Some result.now }
    {
        &self.bytes
    }

    /// A disk as a crash now may leave it. Pick 1 gives the pending ranges their bytes of the last
    /// sync, and zeros past the old end; pick 2 gives them the byte `7` and pick 3 the byte `{`; after
    /// a pending cut these give the old length. Every other pick gives what a read gives.
    pub fn image(&self, pick: u64) -> Result<MemDisk, NoMemory>
        ensures image { IfOk result (λ disk. (image : List ℕ) ×
            ⟦<MemDisk as Disk>⟧.images self.now image ×
            (⟦<MemDisk as Disk>⟧.contents disk ≡ Some image)) }
        ensures picked { IfOk result (λ disk.
            ⟦<MemDisk as Disk>⟧.contents disk ≡ Some (image_of pick (now self.now))) }
    {
        match Filler::of(pick) {
            None => MemDisk::new(self.alloc, &self.bytes),
            Some(filler) => {
                let image = self.torn(filler)?;
                MemDisk::new(self.alloc, &image)
            }
        }
    }

    /// The bytes of the last sync with each pending range filled.
    fn torn(&self, filler: Filler) -> Result<Vec<u8>, NoMemory>
        ensures is_left { IfOk result (λ image. IsImageOf (now self.now) image.items) }
        ensures filled { IfOk result (λ image. image.items ≡ image_by (Some filler) (now self.now)) }
    {
        let mut replay = Replay::new(self.alloc, &self.first)?;
        for change in &self.changes {
            replay.step(self.alloc, change, filler)?;
        }
        Ok(replay.image)
    }

    /// Adds one change that leaves the bytes as they read.
    fn note(&mut self, change: Change) -> Result<(), NoMemory>
        requires { (after_change (now self.old) change).bytes ≡ (now self.old).bytes }
        ensures ok { OnOk result (Changes self.old self.new change) }
        ensures err { OnErr result (IsUnchanged self.old self.new) }
    {
        self.changes.push(change)?;
        Ok(())
    }

    /// Adds one change, after which the disk reads as `next`.
    fn replace(&mut self, change: Change, next: Vec<u8>) -> Result<(), NoMemory>
        requires { next.items ≡ (after_change (now self.old) change).bytes }
        ensures ok { OnOk result (Changes self.old self.new change) }
        ensures err { OnErr result (IsUnchanged self.old self.new) }
    {
        self.changes.push(change)?;
        self.bytes = next;
        Ok(())
    }

    /// Leaves the range of a write that failed open to any bytes, as far as there is memory to say so.
    fn leave_open(&mut self, at: u64, len: usize)
        ensures { StaysOrTears self.old self.new at len }
    {
        let _ = self.note(Change::WriteFailed { at, len });
    }

    /// Writes at least one byte.
    fn try_write(&mut self, at: u64, bytes: &[u8]) -> Result<(), NoMemory>
        requires { 0 < length bytes.now }
        ensures ok { OnOk result (Writes self.old self.new at bytes.now) }
        ensures err { OnErr result (IsUnchanged self.old self.new) }
    {
        let next = patched(self.alloc, &self.bytes, at, 0, bytes)?;
        let bytes = bytes.to_vec(self.alloc)?;
        self.replace(Change::Wrote(Write { at, bytes }), next)
    }

    fn try_cut(&mut self, len: u64) -> Result<(), NoMemory>
        ensures ok { OnOk result (Cuts self.old self.new len) }
        ensures err { OnErr result (IsUnchanged self.old self.new) }
    {
        let end = (len as usize).min(self.bytes.len());
        let next = self.bytes[..end].to_vec(self.alloc)?;
        self.replace(Change::CutTo { len }, next)
    }
}

impl Disk for MemDisk {
    ghost use Rattle.std.specs.Prelude.{length, Some, refl};
    ghost use Rattle.outside_mem.specs.Images.{fresh, after, IsImageOf, IsImageSince, reads-after, since_now, since-counts_now};

    ghost contents = { λ d. Some (after (fresh d.first.items) d.changes.items).bytes };

    ghost images = { λ d image. IsImageOf (after (fresh d.first.items) d.changes.items) image };

    ghost moment = { λ d. length d.changes.items };

    ghost images_since = { λ d since image. IsImageSince d.first.items d.changes.items since image };

    ghost faults = { λ d. d.failures.faults };

    ghost reads_as_an_image = { λ d. reads-after d.changes.items (fresh d.first.items) refl };

    ghost images_where_told = { λ d since image left. refl };

    ghost counts_now = { λ d since image le is. since-counts_now d.first.items d.changes.items since image le is };

    ghost only_now = { λ d image left. since_now d.first.items d.changes.items image left };

    fn len(&mut self) -> Result<u64, Failed> {
        if self.failures.next_call_fails() {
            return Err(Failed);
        }
        Ok(self.bytes.len() as u64)
    }

    fn read(&mut self, at: u64, into: &mut [u8]) -> Result<usize, Failed> {
        if self.failures.next_call_fails() {
            return Err(Failed);
        }
        let start = (at as usize).min(self.bytes.len());
        Ok(put_front(&self.bytes[start..], into))
    }

    fn write_at(&mut self, at: u64, bytes: &[u8]) -> Result<(), Failed> {
        if self.failures.next_call_fails() {
            self.leave_open(at, bytes.len());
            return Err(Failed);
        }
        if bytes.is_empty() {
            return Ok(());
        }
        match self.try_write(at, bytes) {
            Ok(()) => Ok(()),
            Err(_) => {
                self.failures.starve();
                Err(Failed)
            }
        }
    }

    fn cut(&mut self, len: u64) -> Result<(), Failed> {
        if self.failures.next_call_fails() {
            return Err(Failed);
        }
        match self.try_cut(len) {
            Ok(()) => Ok(()),
            Err(_) => {
                self.failures.starve();
                Err(Failed)
            }
        }
    }

    fn sync(&mut self) -> Result<(), Failed> {
        if self.failures.next_call_fails() {
            return Err(Failed);
        }
        match self.note(Change::Synced) {
            Ok(()) => Ok(()),
            Err(_) => {
                self.failures.starve();
                Err(Failed)
            }
        }
    }
}

ghost use Rattle.std.specs.Prelude.{◌≡◌, ◌≢◌, ◌<◌, ◌≤◌, ◌+◌, ◌-◌, ◌^◌, ◌⊎◌, ℕ, Err, IfErr, IfOk, IsErrOf, List, MatchResult, OnErr, OnOk, Some, drop, length, take};
ghost use Rattle.outside.specs.Counts.{Rose};
ghost use Rattle.spool_queue.specs.Log.{Log, Then, payloads};
ghost use Rattle.spool_queue.specs.OnlyRead.{IsOnlyRead};
ghost use Rattle.spool_queue.specs.Records.{Event, head_bytes};
ghost use Rattle.spool_queue.specs.Spool.{BreaksAt, EndsAt};
ghost use Rattle.wire_base.specs.Ranges.{IsPlace};

use crate::head::{HEAD_BYTES, Head, read_head};
use crate::reading::read_full;
use crate::{MAX_EVENT_BYTES, SpoolError};
use outside::{Disk, Failed};
use std::alloc::Global;
use wire_base::{Blob, read_decimal};

/// The most digits of a settled number.
const MAX_DIGITS: usize = 20;

/// The bytes of a head and a line feed.
const FRAME_BYTES: u64 = 14;

/// A walk over the records of a spool, from the front.
#[derive(Clone, Copy, Drop)]
pub(crate) struct Walk {
    /// the gate at which it is
    pub(crate) place: u64,
    /// how many events it has passed
    pub(crate) events: u64,
    /// the number of the last settlement that it has passed, or 0
    pub(crate) settled: u64,
    ghost in_range: { IsPlace place },
    ghost counted: { events ≤ place },
    ghost some_settled: { settled ≤ events },
}

/// What a walk has found at a gate.
#[derive(Clone, Copy, Drop)]
pub(crate) enum Step {
    /// An event with a payload of this length, which it has passed.
    Event(u64),
    /// A settlement, which it has passed.
    Settlement,
    /// The records end here.
    Closed,
    /// The gate is absent, or it is open and no record follows.
    Bad,
}

impl Walk {
    ghost use Rattle.spool_queue.specs.Walking.{GoesOn, IsStepOf, IsWalkOf};

    pub(crate) fn start() -> Walk
        ensures place { result.place ≡ 0 }
        ensures events { result.events ≡ 0 }
        ensures settled { result.settled ≡ 0 }
    {
        Walk {
            place: 0,
            events: 0,
            settled: 0,
        }
    }

    /// Passes all records. `Bad` is reported unless they end at a gate that is not open.
    pub(crate) fn pass_all<D: Disk>(&mut self, disk: &mut D) -> Result<(), SpoolError>
        ensures told { (bytes : List ℕ) (log : Log) → D.contents disk.old ≡ Some bytes →
            IsWalkOf bytes self.old log →
            MatchResult result (λ _. (whole : Log) × IsWalkOf bytes self.new whole ×
            EndsAt bytes whole self.new.place)
            (λ error. (at : ℕ) → error ≡ SpoolError.Bad at → (whole : Log) ×
            BreaksAt bytes whole at) }
        ensures errors { IfErr result (λ error. (error ≡ SpoolError.DiskFault) ⊎ ((at : ℕ) ×
            (error ≡ SpoolError.Bad at))) }
        ensures only_read { IsOnlyRead D.contents D.images D.moment D.images_since D.faults
            disk.old disk.new }
        ensures disk_fault_only_where_faults_rose { IsErrOf result SpoolError.DiskFault →
            Rose (D.faults disk.old) (D.faults disk.new) }
    {
        'records: loop {
            let step = self.step(disk)?;
            match step {
                Step::Event(_) => {}
                Step::Settlement => {}
                Step::Closed => return Ok(()),
                Step::Bad => return Err(SpoolError::Bad { at: self.place }),
            }
        }
    }

    /// Reads the payload of the event of this number, from 0 on, and is after it. `Bad` is reported if there is no such
    /// event.
    pub(crate) fn read_event<D: Disk>(
        &mut self,
        alloc: Global,
        disk: &mut D,
        number: u64,
    ) -> Result<Blob, SpoolError>
        requires { self.old.events ≤ number }
        ensures told { (bytes : List ℕ) (log : Log) → D.contents disk.old ≡ Some bytes →
            IsWalkOf bytes self.old log →
            IfOk result (λ blob. (front : Log) ×
            IsWalkOf bytes self.new (Then front (Event blob)) ×
            (length (payloads front) ≡ number)) }
        ensures never_bad { (bytes : List ℕ) (log whole : Log) (end : ℕ) →
            D.contents disk.old ≡ Some bytes → IsWalkOf bytes self.old log →
            EndsAt bytes whole end → number < length (payloads whole) → (at : ℕ) →
            result ≢ Err (SpoolError.Bad at) }
        ensures events { OnOk result (self.new.events ≡ number + 1) }
        ensures short { IfOk result (λ blob. length blob ≤ MAX_EVENT_BYTES) }
        ensures errors { IfErr result (λ error. (error ≡ SpoolError.DiskFault) ⊎
            ((error ≡ SpoolError.NoMemory) ⊎ ((at : ℕ) × (error ≡ SpoolError.Bad at)))) }
        ensures only_read { IsOnlyRead D.contents D.images D.moment D.images_since D.faults
            disk.old disk.new }
        ensures disk_fault_only_where_faults_rose { IsErrOf result SpoolError.DiskFault →
            Rose (D.faults disk.old) (D.faults disk.new) }
    {
        let size = self.find(disk, number)?;
        let place = self.place - 1 - size;
        let mut payload = vec![in alloc; 0u8; size as usize]?;
        let count = read_full(disk, place, &mut payload)?;
        if count < payload.len() {
            return Err(SpoolError::Bad { at: place });
        }
        Ok(Blob::from_vec(payload))
    }

    /// Passes the records up to the event of this number, and this, and answers the length of its payload.
    fn find<D: Disk>(&mut self, disk: &mut D, number: u64) -> Result<u64, SpoolError>
        requires { self.old.events ≤ number }
        ensures told { (bytes : List ℕ) (log : Log) → D.contents disk.old ≡ Some bytes →
            IsWalkOf bytes self.old log →
            IfOk result (λ size. (front : Log) ×
            IsWalkOf bytes self.new (Then front (Event (take size (drop (self.new.place - 1 -
            size) bytes)))) × (length (payloads front) ≡ number)
            × (length (take size (drop (self.new.place - 1 - size) bytes)) ≡ size)) }
        ensures never_bad { (bytes : List ℕ) (log whole : Log) (end : ℕ) →
            D.contents disk.old ≡ Some bytes → IsWalkOf bytes self.old log →
            EndsAt bytes whole end → number < length (payloads whole) → (at : ℕ) →
            result ≢ Err (SpoolError.Bad at) }
        ensures events { OnOk result (self.new.events ≡ number + 1) }
        ensures place { IfOk result (λ size. 14 + size ≤ self.new.place) }
        ensures size { IfOk result (λ size. size ≤ MAX_EVENT_BYTES) }
        ensures errors { IfErr result (λ error. (error ≡ SpoolError.DiskFault) ⊎ ((at : ℕ) ×
            (error ≡ SpoolError.Bad at))) }
        ensures only_read { IsOnlyRead D.contents D.images D.moment D.images_since D.faults
            disk.old disk.new }
        ensures disk_fault_only_where_faults_rose { IsErrOf result SpoolError.DiskFault →
            Rose (D.faults disk.old) (D.faults disk.new) }
    {
        'records: loop {
            let step = self.step(disk)?;
            match step {
                Step::Event(size) => {
                    if self.events > number {
                        return Ok(size);
                    }
                }
                Step::Settlement => {}
                Step::Closed => return Err(SpoolError::Bad { at: self.place }),
                Step::Bad => return Err(SpoolError::Bad { at: self.place }),
            }
        }
    }

    /// Passes the record at the gate.
    pub(crate) fn step<D: Disk>(&mut self, disk: &mut D) -> Result<Step, Failed>
        ensures told { (bytes : List ℕ) (log : Log) → D.contents disk.old ≡ Some bytes →
            IsWalkOf bytes self.old log →
            IfOk result (IsStepOf bytes log self.old self.new) }
        ensures goes_on { IfOk result (GoesOn self.old self.new) }
        ensures kept { OnErr result (self.new ≡ self.old) }
        ensures only_read { IsOnlyRead D.contents D.images D.moment D.images_since D.faults
            disk.old disk.new }
        ensures failed_only_where_faults_rose { OnErr result (Rose (D.faults disk.old) (D.faults
            disk.new)) }
    {
        let mut head = [0u8; HEAD_BYTES];
        let count = read_full(disk, self.place, &mut head)?;
        match read_head(&head[..count]) {
            Head::Absent => Ok(Step::Bad),
            Head::Closed => Ok(Step::Closed),
            Head::Broken => Ok(Step::Bad),
            Head::Event(size) => self.pass_event(disk, size),
            Head::Settlement(size) => self.pass_settlement(disk, size),
        }
    }

    /// Passes the event at the gate, whose head says this length.
    fn pass_event<D: Disk>(&mut self, disk: &mut D, size: u64) -> Result<Step, Failed>
        requires size { size < 10 ^ 10 }
        ensures told { (bytes : List ℕ) (log : Log) → D.contents disk.old ≡ Some bytes →
            IsWalkOf bytes self.old log →
            take 13 (drop self.old.place bytes) ≡ head_bytes size 0x65 →
            IfOk result (IsStepOf bytes log self.old self.new) }
        ensures goes_on { IfOk result (GoesOn self.old self.new) }
        ensures kept { OnErr result (self.new ≡ self.old) }
        ensures only_read { IsOnlyRead D.contents D.images D.moment D.images_since D.faults
            disk.old disk.new }
        ensures failed_only_where_faults_rose { OnErr result (Rose (D.faults disk.old) (D.faults
            disk.new)) }
    {
        if size > MAX_EVENT_BYTES as u64 {
            return Ok(Step::Bad);
        }
        let mut last = [0u8; 1];
        let count = read_full(disk, self.place + HEAD_BYTES as u64 + size, &mut last)?;
        if count == 0 {
            return Ok(Step::Bad);
        }
        if last[0] != b'\n' {
            return Ok(Step::Bad);
        }
        *self = Walk {
            place: self.place + FRAME_BYTES + size,
            events: self.events + 1,
            settled: self.settled,
        };
        Ok(Step::Event(size))
    }

    /// Passes the settlement at the gate, whose head says so many digits.
    fn pass_settlement<D: Disk>(&mut self, disk: &mut D, size: u64) -> Result<Step, Failed>
        requires size { size < 10 ^ 10 }
        ensures told { (bytes : List ℕ) (log : Log) → D.contents disk.old ≡ Some bytes →
            IsWalkOf bytes self.old log →
            take 13 (drop self.old.place bytes) ≡ head_bytes size 0x73 →
            IfOk result (IsStepOf bytes log self.old self.new) }
        ensures goes_on { IfOk result (GoesOn self.old self.new) }
        ensures kept { OnErr result (self.new ≡ self.old) }
        ensures only_read { IsOnlyRead D.contents D.images D.moment D.images_since D.faults
            disk.old disk.new }
        ensures failed_only_where_faults_rose { OnErr result (Rose (D.faults disk.old) (D.faults
            disk.new)) }
    {
        if size > MAX_DIGITS as u64 {
            return Ok(Step::Bad);
        }
        let size = size as usize;
        let mut block = [0u8; MAX_DIGITS + 1];
        let count = read_full(disk, self.place + HEAD_BYTES as u64, &mut block)?;
        if count <= size {
            return Ok(Step::Bad);
        }
        if block[size] != b'\n' {
            return Ok(Step::Bad);
        }
        let Some(settled) = read_decimal(&block[..size]) else {
            return Ok(Step::Bad);
        };
        if settled <= self.settled {
            return Ok(Step::Bad);
        }
        if settled > self.events {
            return Ok(Step::Bad);
        }
        *self = Walk {
            place: self.place + FRAME_BYTES + size as u64,
            events: self.events,
            settled,
        };
        Ok(Step::Settlement)
    }
}

ghost use Rattle.std.specs.Prelude.{◌≡◌, ◌≢◌, ◌<◌, ◌≤◌, ◌+◌, ◌++◌, ◌∷◌, ◌↔◌, ◌⊎◌, ◌-◌, ℕ, [], IfErr, IfOk, IsErrOf, IsSome, List, MatchResult, OnErr, OnOk, Some, Err, codes, drop, length, slice_get};
ghost use Rattle.outside.specs.Counts.{Rose};
ghost use Rattle.outside.specs.DiskImages.{LeavesOnly, Only};
ghost use Rattle.wire_base.specs.Ranges.{IsPlace};

use crate::appending::append;
use crate::synced::{cut_synced, write_synced};
use crate::text::{SETTLEMENT_BYTES, event_text, settlement_text};
use crate::walk::Walk;
use crate::{MAX_EVENT_BYTES, MAX_SPOOL_BYTES, SpoolError};
use outside::{Disk, Failed};
use std::alloc::Global;
use wire_base::Blob;

const CLOSED: &[u8] = b".";

/// A spool on a disk. Every call but `open` is made with the disk that was opened.
#[derive(Drop)]
pub struct Spool {
    /// the place of the last gate
    end: u64,
    /// how many events it has had since it was empty
    events: u64,
    /// how many of these are settled, from the front
    settled: u64,
    /// an earlier call answered that the disk failed
    closed: bool,
    ghost in_range: { IsPlace end },
    ghost counted: { events ≤ end },
    ghost some_settled: { settled ≤ events },
}

impl Spool {
    ghost use Rattle.spool_queue.specs.Cited.{HasRoom, Holds, HoldsList, IsBad, IsClosed, IsEither, IsLastGate, IsOnlyRead, IsPartAppended, IsReadAs, IsSpoolOf, IsWalkOf, KeepsPlaces, Log, WouldFill, appended, count_of, reserved, reserved_with};

    /// Opens the spool on a disk. One of at most one byte is empty, and its gate is written.
    pub fn open<D: Disk>(disk: &mut D) -> Result<Spool, SpoolError>
        ensures opened { (bytes : List ℕ) → D.contents disk.old ≡ Some bytes →
            IfOk result (λ spool. (list : List (List ℕ)) × IsReadAs bytes list ×
            Holds (λ now. IsSpoolOf spool now list) (D.contents disk.new)) }
        ensures reads { (bytes : List ℕ) (list : List (List ℕ)) →
            D.contents disk.old ≡ Some bytes → IsReadAs bytes list →
            MatchResult result (λ spool. HoldsList spool list (D.contents disk.new))
            (λ error. error ≡ SpoolError.DiskFault) }
        ensures at_its_last_gate { (bytes : List ℕ) → D.contents disk.old ≡ Some bytes →
            IfOk result (λ spool. IsLastGate bytes spool.end) }
        ensures bad { (bytes : List ℕ) (at : ℕ) → D.contents disk.old ≡ Some bytes →
            result ≡ Err (SpoolError.Bad at) → IsBad bytes at }
        ensures refuses { (bytes : List ℕ) (at : ℕ) → D.contents disk.old ≡ Some bytes →
            IsBad bytes at → MatchResult result (λ _. ⊥)
            (λ error. (error ≡ SpoolError.DiskFault) ⊎ (error ≡ SpoolError.Bad at)) }
        ensures durable { Only (D.contents disk.old) (D.images disk.old) →
            OnOk result (Only (D.contents disk.new) (D.images disk.new)) }

        // If nothing was pending, a crash at any moment of the call leaves the same payloads.
        ensures each_moment { Only (D.contents disk.old) (D.images disk.old) →
            (bytes : List ℕ) (list : List (List ℕ)) →
            D.contents disk.old ≡ Some bytes → IsReadAs bytes list →
            LeavesOnly D.moment D.images_since disk.old disk.new (λ image. IsReadAs image list) }

        ensures bad_only_reads { (at : ℕ) → result ≡ Err (SpoolError.Bad at) →
            IsOnlyRead D.contents D.images D.moment D.images_since D.faults disk.old disk.new }
        ensures errors { IfErr result (λ error. (error ≡ SpoolError.DiskFault) ⊎
            ((at : ℕ) × (error ≡ SpoolError.Bad at))) }
        ensures open { IfOk result (λ spool. ¬ (IsClosed spool)) }
        ensures disk_fault_only_where_faults_rose { IsErrOf result SpoolError.DiskFault →
            Rose (D.faults disk.old) (D.faults disk.new) }
        ensures told { IsSome (D.contents disk.old) → IsSome (D.contents disk.new) }
        ensures faults_never_fall { D.faults disk.old ≤ D.faults disk.new }
    {
        if disk.len()? <= 1 {
            write_synced(disk, 0, CLOSED)?;
            return Ok(Spool {
                end: 0,
                events: 0,
                settled: 0,
                closed: false,
            });
        }
        let mut walk = Walk::start();
        walk.pass_all(disk)?;
        Ok(Spool {
            end: walk.place,
            events: walk.events,
            settled: walk.settled,
            closed: false,
        })
    }

    /// How many payloads are outstanding.
    pub fn outstanding(&self) -> u64
        ensures counted { result ≡ count_of self.now }
        ensures told { (bytes : List ℕ) (list : List (List ℕ)) → IsSpoolOf self.now bytes list →
            result ≡ length list }
    {
        self.events - self.settled
    }

    /// Adds a payload after those that are outstanding. All memory is taken before the disk is called.
    pub fn put<D: Disk>(
        &mut self,
        alloc: Global,
        disk: &mut D,
        payload: &[u8],
    ) -> Result<(), SpoolError>
        ensures put { (bytes : List ℕ) (list : List (List ℕ)) →
            D.contents disk.old ≡ Some bytes → IsSpoolOf self.old bytes list →
            OnOk result (Holds (λ now.
            IsSpoolOf self.new now (list ++ payload.now ∷ [])) (D.contents disk.new)) }
        ensures durable { OnOk result (Only (D.contents disk.new) (D.images disk.new)) }
        ensures room { OnOk result (HasRoom self.new) }
        ensures short { OnOk result (length payload.now ≤ MAX_EVENT_BYTES) }
        ensures reserves { OnOk result (reserved self.new ≡ reserved_with (reserved self.old)
            payload.now) }
        ensures one_more { OnOk result (count_of self.new ≡ count_of self.old + 1) }
        ensures count_kept { OnErr result (count_of self.new ≡ count_of self.old) }

        // If nothing was pending, a crash at any moment of the call leaves the payloads before it, or these and the
        // new one.
        ensures each_moment { Only (D.contents disk.old) (D.images disk.old) →
            (bytes : List ℕ) (list : List (List ℕ)) →
            D.contents disk.old ≡ Some bytes → IsSpoolOf self.old bytes list →
            LeavesOnly D.moment D.images_since disk.old disk.new (IsEither list (list ++
            payload.now ∷ [])) }

        ensures closed { IsErrOf result SpoolError.Closed ↔ IsClosed self.old }
        ensures too_long { IsErrOf result SpoolError.TooLong ↔
            ((¬ (IsClosed self.old)) × (MAX_EVENT_BYTES < length payload.now)) }
        ensures full { IsErrOf result SpoolError.Full ↔ ((¬ (IsClosed self.old)) ×
            (length payload.now ≤ MAX_EVENT_BYTES) × WouldFill self.old (length payload.now)) }
        ensures never_bad { (at : ℕ) → result ≢ Err (SpoolError.Bad at) }
        ensures disk_fault_only_where_faults_rose { IsErrOf result SpoolError.DiskFault →
            Rose (D.faults disk.old) (D.faults disk.new) }
        ensures disk_fault_closes { IsErrOf result SpoolError.DiskFault → IsClosed self.new }
        ensures spool_kept { result ≢ Err SpoolError.DiskFault →
            OnErr result (self.new ≡ self.old) }
        ensures disk_kept { result ≢ Err SpoolError.DiskFault → OnErr result (disk.new ≡ disk.old) }
        ensures open_kept { OnOk result (¬ (IsClosed self.new)) }
        ensures told { IsSome (D.contents disk.old) → IsSome (D.contents disk.new) }
        ensures faults_never_fall { D.faults disk.old ≤ D.faults disk.new }
    {
        if self.closed {
            return Err(SpoolError::Closed);
        }
        if payload.len() > MAX_EVENT_BYTES {
            return Err(SpoolError::TooLong);
        }
        let size = payload.len() as u64;
        if self.end > MAX_SPOOL_BYTES
            || self.end + 14 + size + 34 * (self.outstanding() + 1) > MAX_SPOOL_BYTES
        {
            return Err(SpoolError::Full);
        }
        let text = event_text(alloc, payload)?;
        self.add(disk, &text)?;
        self.events += 1;
        Ok(())
    }

    /// The payload of this number of those that are outstanding, from the front. `Bad` comes only if the disk has not the
    /// bytes that were opened, put and settled.
    pub fn read<D: Disk>(&self, alloc: Global, disk: &mut D, i: u64) -> Result<Blob, SpoolError>
        requires { i < count_of self.now }
        ensures payload { (bytes : List ℕ) (list : List (List ℕ)) →
            D.contents disk.old ≡ Some bytes → IsSpoolOf self.now bytes list →
            IfOk result (λ blob. slice_get list i ≡ Some blob) }
        ensures never_bad { (bytes : List ℕ) (list : List (List ℕ)) →
            D.contents disk.old ≡ Some bytes → IsSpoolOf self.now bytes list →
            (at : ℕ) → result ≢ Err (SpoolError.Bad at) }
        ensures only_read { IsOnlyRead D.contents D.images D.moment D.images_since D.faults
            disk.old disk.new }
        ensures disk_fault_only_where_faults_rose { IsErrOf result SpoolError.DiskFault →
            Rose (D.faults disk.old) (D.faults disk.new) }
        ensures errors { IfErr result (λ error. (error ≡ SpoolError.DiskFault) ⊎
            ((error ≡ SpoolError.NoMemory) ⊎ ((at : ℕ) × (error ≡ SpoolError.Bad at)))) }
    {
        let mut walk = Walk::start();
        walk.read_event(alloc, disk, self.settled + i)
    }

    /// As `read`, by a walk that goes on from one payload to the next.
    pub(crate) fn read_on<D: Disk>(
        &self,
        alloc: Global,
        disk: &mut D,
        walk: &mut Walk,
        i: u64,
    ) -> Result<Blob, SpoolError>
        requires { i < count_of self.now }
        ensures payload { (bytes : List ℕ) (list : List (List ℕ)) (log : Log) →
            D.contents disk.old ≡ Some bytes → IsSpoolOf self.now bytes list →
            IsWalkOf bytes walk.old log → IfOk result (λ blob. (slice_get list i ≡ Some blob) ×
            ((later : Log) × IsWalkOf bytes walk.new later)) }
        ensures never_bad { (bytes : List ℕ) (list : List (List ℕ)) (log : Log) →
            D.contents disk.old ≡ Some bytes → IsSpoolOf self.now bytes list →
            IsWalkOf bytes walk.old log → (at : ℕ) → result ≢ Err (SpoolError.Bad at) }
        ensures errors { IfErr result (λ error. (error ≡ SpoolError.DiskFault) ⊎
            ((error ≡ SpoolError.NoMemory) ⊎ ((at : ℕ) × (error ≡ SpoolError.Bad at)))) }
        ensures short { IfOk result (λ blob. length blob ≤ MAX_EVENT_BYTES) }
        ensures only_read { IsOnlyRead D.contents D.images D.moment D.images_since D.faults
            disk.old disk.new }
        ensures disk_fault_only_where_faults_rose { IsErrOf result SpoolError.DiskFault →
            Rose (D.faults disk.old) (D.faults disk.new) }
    {
        let number = self.settled + i;
        if walk.events > number {
            *walk = Walk::start();
        }
        walk.read_event(alloc, disk, number)
    }

    /// Settles so many of the payloads that are outstanding, from the front. Takes no memory.
    pub fn settle<D: Disk>(&mut self, disk: &mut D, n: u64) -> Result<(), SpoolError>
        requires some { 0 < n }
        requires within { n ≤ count_of self.old }
        ensures settled { (bytes : List ℕ) (list : List (List ℕ)) →
            D.contents disk.old ≡ Some bytes → IsSpoolOf self.old bytes list →
            OnOk result (Holds (λ now.
            IsSpoolOf self.new now (drop n list)) (D.contents disk.new)) }
        ensures durable { OnOk result (Only (D.contents disk.new) (D.images disk.new)) }
        ensures room { HasRoom self.old → OnOk result (HasRoom self.new) }

        // If nothing was pending, a crash at any moment of the call leaves the payloads before it, or these without the
        // first `n`.
        ensures each_moment { Only (D.contents disk.old) (D.images disk.old) →
            (bytes : List ℕ) (list : List (List ℕ)) →
            D.contents disk.old ≡ Some bytes → IsSpoolOf self.old bytes list →
            LeavesOnly D.moment D.images_since disk.old disk.new (IsEither list (drop n list)) }

        ensures closed { IsErrOf result SpoolError.Closed ↔ IsClosed self.old }
        ensures errors { IfErr result (λ error. (error ≡ SpoolError.DiskFault) ⊎
            (error ≡ SpoolError.Closed)) }
        ensures places { OnOk result (KeepsPlaces self.old (D.contents disk.old) (D.contents
            disk.new)) }
        ensures fewer { OnOk result (count_of self.new ≡ count_of self.old - n) }
        ensures count_kept { OnErr result (count_of self.new ≡ count_of self.old) }
        ensures disk_fault_only_where_faults_rose { IsErrOf result SpoolError.DiskFault →
            Rose (D.faults disk.old) (D.faults disk.new) }
        ensures disk_fault_closes { IsErrOf result SpoolError.DiskFault → IsClosed self.new }
        ensures spool_kept { IsErrOf result SpoolError.Closed → self.new ≡ self.old }
        ensures disk_kept { IsErrOf result SpoolError.Closed → disk.new ≡ disk.old }
        ensures open_kept { OnOk result (¬ (IsClosed self.new)) }
        ensures told { IsSome (D.contents disk.old) → IsSome (D.contents disk.new) }
        ensures faults_never_fall { D.faults disk.old ≤ D.faults disk.new }
    {
        if self.closed {
            return Err(SpoolError::Closed);
        }
        let settled = self.settled + n;
        let mut text = [0u8; SETTLEMENT_BYTES];
        let size = settlement_text(&mut text, settled);
        self.add(disk, &text[..size])?;
        self.settled = settled;
        Ok(())
    }

    /// Cuts a spool of which nothing is outstanding to its first gate. Takes no memory.
    pub fn tidy<D: Disk>(&mut self, disk: &mut D) -> Result<(), SpoolError>
        requires { count_of self.old ≡ 0 }
        ensures tidied { (bytes : List ℕ) (list : List (List ℕ)) →
            D.contents disk.old ≡ Some bytes → IsSpoolOf self.old bytes list →
            OnOk result ((D.contents disk.new ≡ Some (codes ".")) ×
            IsSpoolOf self.new (codes ".") []) }
        ensures durable { OnOk result (Only (D.contents disk.new) (D.images disk.new)) }
        ensures room { OnOk result (HasRoom self.new) }

        // If nothing was pending, a crash at any moment of the call leaves nothing outstanding.
        ensures each_moment { Only (D.contents disk.old) (D.images disk.old) →
            (bytes : List ℕ) (list : List (List ℕ)) →
            D.contents disk.old ≡ Some bytes → IsSpoolOf self.old bytes list →
            LeavesOnly D.moment D.images_since disk.old disk.new (λ image. IsReadAs image []) }

        ensures closed { IsErrOf result SpoolError.Closed ↔ IsClosed self.old }
        ensures errors { IfErr result (λ error. (error ≡ SpoolError.DiskFault) ⊎
            (error ≡ SpoolError.Closed)) }
        ensures disk_fault_only_where_faults_rose { IsErrOf result SpoolError.DiskFault →
            Rose (D.faults disk.old) (D.faults disk.new) }
        ensures disk_fault_closes { IsErrOf result SpoolError.DiskFault → IsClosed self.new }
        ensures spool_kept { IsErrOf result SpoolError.Closed → self.new ≡ self.old }
        ensures disk_kept { IsErrOf result SpoolError.Closed → disk.new ≡ disk.old }
        ensures open_kept { OnOk result (¬ (IsClosed self.new)) }
        ensures nothing_left { count_of self.new ≡ 0 }
        ensures told { IsSome (D.contents disk.old) → IsSome (D.contents disk.new) }
        ensures faults_never_fall { D.faults disk.old ≤ D.faults disk.new }
    {
        if self.closed {
            return Err(SpoolError::Closed);
        }
        match empty(disk) {
            Ok(()) => {
                self.end = 0;
                self.settled = 0;
                self.events = 0;
                Ok(())
            }
            Err(_) => {
                self.closed = true;
                Err(SpoolError::DiskFault)
            }
        }
    }

    /// Appends a record; the spool is closed if the disk fails.
    fn add<D: Disk>(&mut self, disk: &mut D, text: &[u8]) -> Result<(), SpoolError>
        requires some { 0 < length text.now }
        ensures appended { (front rest : List ℕ) (gate : ℕ) →
            D.contents disk.old ≡ Some (front ++ gate ∷ rest) → length front ≡ self.old.end →
            OnOk result (D.contents disk.new ≡ Some (appended front text.now rest)) }
        ensures durable { OnOk result (Only (D.contents disk.new) (D.images disk.new)) }
        ensures each_moment { Only (D.contents disk.old) (D.images disk.old) →
            (front rest : List ℕ) (gate : ℕ) →
            D.contents disk.old ≡ Some (front ++ gate ∷ rest) → length front ≡ self.old.end →
            gate ≢ 0x7B →
            LeavesOnly D.moment D.images_since disk.old disk.new (IsPartAppended front text.now
            rest) }
        ensures end { OnOk result (self.new.end ≡ self.old.end + length text.now) }
        ensures events { self.new.events ≡ self.old.events }
        ensures settled { self.new.settled ≡ self.old.settled }
        ensures open_kept { OnOk result (self.new.closed ≡ self.old.closed) }
        ensures closes { OnErr result (IsClosed self.new) }
        ensures errors { IfErr result (λ error. error ≡ SpoolError.DiskFault) }
        ensures told { IsSome (D.contents disk.old) → IsSome (D.contents disk.new) }
        ensures faults_never_fall { D.faults disk.old ≤ D.faults disk.new }
        ensures failed_only_where_faults_rose { OnErr result (Rose (D.faults disk.old) (D.faults
            disk.new)) }
    {
        if append(disk, self.end, text).is_err() {
            self.closed = true;
            return Err(SpoolError::DiskFault);
        }
        self.end += text.len() as u64;
        Ok(())
    }
}

/// Cuts a disk to its first gate, which is left closed.
fn empty<D: Disk>(disk: &mut D) -> Result<(), Failed>
    ensures emptied { (bytes : List ℕ) → D.contents disk.old ≡ Some bytes → 0 < length bytes →
        OnOk result (D.contents disk.new ≡ Some (codes ".")) }
    ensures durable { OnOk result (Only (D.contents disk.new) (D.images disk.new)) }
    ensures each_moment { Only (D.contents disk.old) (D.images disk.old) → (bytes : List ℕ) →
        D.contents disk.old ≡ Some bytes →
        LeavesOnly D.moment D.images_since disk.old disk.new (λ image. (image ≡ bytes) ⊎
        (length image ≤ 1)) }
    ensures told { IsSome (D.contents disk.old) → IsSome (D.contents disk.new) }
    ensures faults_never_fall { D.faults disk.old ≤ D.faults disk.new }
    ensures failed_only_where_faults_rose { OnErr result (Rose (D.faults disk.old) (D.faults
        disk.new)) }
{
    cut_synced(disk, 1)?;
    write_synced(disk, 0, CLOSED)
}

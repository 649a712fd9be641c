ghost use Rattle.std.specs.Prelude.{◌≡◌, ◌+◌, ◌<◌, ◌≤◌, [], ◌∷◌, IfErr, IfOk, IsSome, OnErr, OnOk, length, take};
ghost use Rattle.outside.specs.Counts.{Rose};
ghost use Rattle.outside.specs.Tails.{TellsRead};
ghost use Rattle.wire_base.specs.Ranges.{IsPlace};

use outside::{Failed, Tail};
use std::alloc::Global;
use std::marker::Model;
use wire_base::NoMemory;

/// The most bytes of one read.
pub(crate) const READ_SIZE: usize = 16_384;

/// Where a read puts its bytes: one byte, and more if a file has more.
#[derive(Drop)]
pub(crate) struct Buffer {
    alloc: Global,
    small: [u8; 1],
    /// Empty while one byte is enough.
    large: Vec<u8>,
}

impl Model for Buffer {
    ghost use Rattle.std.specs.Prelude.{ℕ, ◌≤◌, List, length};
    ghost use Rattle.harvester.specs.declared.buffer.TheConstants.{READ_SIZE};
    ghost use Rattle.harvester.specs.Buffers.{in_use};

    ghost Value = { List ℕ };

    ghost view = { λ b. in_use b.small b.large.items };

    ghost invariant = { λ b. length b.large.items ≤ READ_SIZE };
}

impl Buffer {
    pub(crate) fn new(alloc: Global) -> Buffer
        ensures { result ≡ 0 ∷ [] }
    {
        Buffer {
            alloc,
            small: [0],
            large: Vec::new(alloc),
        }
    }

    /// Has room for a whole read.
    pub(crate) fn enlarge(&mut self) -> Result<(), NoMemory>
        ensures some_room { OnOk result (0 < length self.new) }
        ensures same_on_refusal { OnErr result (self.new ≡ self.old) }
    {
        if self.large.is_empty() {
            let mut large = Vec::new(self.alloc);
            large.resize(READ_SIZE, 0)?;
            self.large = large;
        }
        Ok(())
    }

    /// Has room for one byte. Takes no memory.
    pub(crate) fn shrink(&mut self)
        ensures { 0 < length self.new }
    {
        self.large = Vec::new(self.alloc);
    }

    /// Reads from this place of the tail into the front.
    pub(crate) fn read<T: Tail>(&mut self, tail: &mut T, at: u64) -> Result<usize, Failed>
        ensures same_room { length self.new ≡ length self.old }
        ensures within { IfOk result (λ count. count ≤ length self.new) }
        ensures bounded { IfOk result (λ count. count ≤ READ_SIZE) }
        ensures in_range { IfOk result (λ count. 0 < count → IsPlace (at + count)) }
        ensures told { TellsRead (T.told tail.old) at self.new result (T.told tail.new) }
        ensures numbers_kept { T.numbers tail.new ≡ T.numbers tail.old }
        ensures faults_never_fall { T.faults tail.old ≤ T.faults tail.new }
        ensures failed_only_where_faults_rose { OnErr result (Rose (T.faults tail.old) (T.faults
            tail.new)) }
        ensures faults_told_only_by_failures { IsSome (T.told tail.old) →
            OnOk result (T.faults tail.new ≡ T.faults tail.old) }
    {
        if self.large.is_empty() {
            tail.read_at(at, &mut self.small)
        } else {
            tail.read_at(at, &mut self.large)
        }
    }

    /// This many of the first bytes.
    pub(crate) fn front(&self, count: usize) -> &[u8]
        requires { count ≤ length self.now }
        ensures { result.now ≡ take count self.now }
    {
        let all = self.all();
        &all[..count]
    }

    fn all(&self) -> &[u8]
        ensures { result.now ≡ self.now }
    {
        if self.large.is_empty() {
            &self.small
        } else {
            &self.large
        }
    }
}

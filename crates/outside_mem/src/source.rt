ghost use Rattle.std.specs.Prelude.{◌≡◌, ◌≤◌, drop, Some, vec_len, IfOk, OnOk, OnErr};

use crate::failures::Failures;
use crate::front::put_front;
use outside::{Failed, Source};
use std::alloc::Global;
use wire_base::NoMemory;

/// Bytes to read, all known.
#[derive(Drop)]
pub struct MemSource {
    bytes: Vec<u8>,
    at: usize,
    failures: Failures,
    ghost within: { at ≤ vec_len bytes },
}

impl MemSource {
    ghost use Rattle.outside.specs.Counts.{added_counts};
    ghost use Rattle.outside_mem.specs.Asked.{source_asked};

    pub fn new(alloc: Global, bytes: &[u8]) -> Result<MemSource, NoMemory>
        ensures left { IfOk result (λ source. ⟦<MemSource as Source>⟧.left source ≡ Some bytes.now) }
        ensures faults { IfOk result (λ source. ⟦<MemSource as Source>⟧.faults source ≡ 0) }
        ensures asked { IfOk result (λ source. source_asked source ≡ 0) }
    {
        Ok(MemSource {
            bytes: bytes.to_vec(alloc)?,
            at: 0,
            failures: Failures::new(alloc),
        })
    }

    /// Names the reads that fail, counted from 0.
    pub fn fail_at(&mut self, calls: &[u64]) -> Result<(), NoMemory>
        ensures left { ⟦<MemSource as Source>⟧.left self.new ≡ ⟦<MemSource as Source>⟧.left self.old }
        ensures faults { ⟦<MemSource as Source>⟧.faults self.new ≡ ⟦<MemSource as Source>⟧.faults self.old }
        ensures asked { source_asked self.new ≡ source_asked self.old }
    {
        self.failures.fail_at(calls)
    }

    /// How often it failed because it was out of memory.
    pub fn starved(&self) -> u64
        ensures { ⟦<MemSource as Source>⟧.faults self.now ≡ added_counts result (source_asked self.now) }
    {
        self.failures.starved
    }
}

impl Source for MemSource {
    ghost left = { λ s. Some (drop s.at s.bytes.items) };

    ghost faults = { λ s. s.failures.faults };

    fn read(&mut self, into: &mut [u8]) -> Result<usize, Failed> {
        if self.failures.next_call_fails() {
            return Err(Failed);
        }
        let count = put_front(&self.bytes[self.at..], into);
        self.at += count;
        Ok(count)
    }
}

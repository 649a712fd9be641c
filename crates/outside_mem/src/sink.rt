ghost use Rattle.std.specs.Prelude.{◌≡◌, [], Some, IfOk};

use crate::failures::Failures;
use outside::{Failed, Sink};
use std::alloc::Global;
use wire_base::NoMemory;

/// Keeps what is written, all known.
#[derive(Drop)]
pub struct MemSink {
    bytes: Vec<u8>,
    failures: Failures,
}

impl MemSink {
    ghost use Rattle.outside.specs.Counts.{added_counts};
    ghost use Rattle.outside_mem.specs.Asked.{sink_asked};

    pub fn new(alloc: Global) -> Result<MemSink, NoMemory>
        ensures written { IfOk result (λ sink. ⟦<MemSink as Sink>⟧.written sink ≡ Some []) }
        ensures faults { IfOk result (λ sink. ⟦<MemSink as Sink>⟧.faults sink ≡ 0) }
        ensures asked { IfOk result (λ sink. sink_asked sink ≡ 0) }
    {
        Ok(MemSink {
            bytes: Vec::new(alloc),
            failures: Failures::new(alloc),
        })
    }

    /// Names the writes that fail, counted from 0.
    pub fn fail_at(&mut self, calls: &[u64]) -> Result<(), NoMemory>
        ensures written { ⟦<MemSink as Sink>⟧.written self.new ≡ ⟦<MemSink as Sink>⟧.written self.old }
        ensures faults { ⟦<MemSink as Sink>⟧.faults self.new ≡ ⟦<MemSink as Sink>⟧.faults self.old }
        ensures asked { sink_asked self.new ≡ sink_asked self.old }
    {
        self.failures.fail_at(calls)
    }

    /// What was written so far.
    pub fn bytes(&self) -> &[u8]
        ensures { ⟦<MemSink as Sink>⟧.written self.now ≡ Some result.now }
    {
        &self.bytes
    }

    /// How often it failed because it was out of memory.
    pub fn starved(&self) -> u64
        ensures { ⟦<MemSink as Sink>⟧.faults self.now ≡ added_counts result (sink_asked self.now) }
    {
        self.failures.starved
    }
}

impl Sink for MemSink {
    ghost written = { λ s. Some s.bytes.items };

    ghost faults = { λ s. s.failures.faults };

    fn write(&mut self, piece: &[u8]) -> Result<usize, Failed> {
        if self.failures.next_call_fails() {
            return Err(Failed);
        }
        match self.bytes.extend_from_slice(piece) {
            Ok(()) => Ok(piece.len()),
            Err(_) => {
                self.failures.starve();
                Err(Failed)
            }
        }
    }
}

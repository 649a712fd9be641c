ghost use Rattle.std.specs.Prelude.{◌≡◌, ◌<◌, [], OnOk, OnErr};
ghost use Rattle.wire_base.specs.Ranges.{IsPlace};
ghost use Rattle.ack_tracker.specs.Covered.{AddsSpan, IsLastBefore, Joins};

use std::alloc::Global;
use std::collections::BTreeMap;
use std::marker::Model;
use wire_base::{NoMemory, Span};

/// Up to which place all is settled from a base on, and where settled intervals after that begin and end.
#[derive(Debug, Drop)]
pub(crate) struct Coverage {
    end: u64,
    ahead: BTreeMap<u64, u64>,
}

impl Model for Coverage {
    ghost use Rattle.ack_tracker.specs.Covered.{Covered, IsInRange};

    ghost Value = { Covered };

    ghost view = { λ c. record { end = c.end; ahead = c.ahead.entries } };

    ghost invariant = { λ c. IsInRange (record { end = c.end; ahead = c.ahead.entries }) };
}

impl Coverage {
    pub(crate) fn new(alloc: Global, base: u64) -> Coverage
        requires { IsPlace base }
        ensures { result ≡ record { end = base; ahead = [] } }
    {
        Coverage {
            end: base,
            ahead: BTreeMap::new(alloc),
        }
    }

    /// The place up to which all is settled.
    pub(crate) fn end(&self) -> u64
        ensures end { result ≡ self.now.end }
        ensures in_range { IsPlace result }
    {
        self.end
    }

    /// One span more is settled. `Err` means out of memory.
    pub(crate) fn settle(&mut self, span: Span) -> Result<(), NoMemory>
        requires { IsPlace span.end }
        ensures settled { OnOk result (AddsSpan self.old span self.new) }
        ensures kept { OnErr result (self.new ≡ self.old) }
    {
        let start = span.start();
        let end = span.end();
        if start < self.end {
            return Ok(());
        }
        if start == self.end {
            self.end = self.ahead.remove(&end).unwrap_or(end);
            return Ok(());
        }
        match last_before(&self.ahead, start) {
            Some((_, last)) if start < last => Ok(()),
            Some((first, last)) if last == start => {
                join(&mut self.ahead, first, end)?;
                Ok(())
            }
            _ => {
                join(&mut self.ahead, start, end)?;
                Ok(())
            }
        }
    }
}

/// The last interval that begins at the place or before it.
fn last_before(ahead: &BTreeMap<u64, u64>, place: u64) -> Option<(u64, u64)>
    ensures { IsLastBefore ahead.now.entries place result }
{
    let mut before = ahead.range(..=place);
    match before.next_back() {
        Some((start, end)) => Some((*start, *end)),
        None => None,
    }
}

/// All from the start to the end is settled, and so is the interval that begins at the end.
fn join(ahead: &mut BTreeMap<u64, u64>, start: u64, end: u64) -> Result<(), NoMemory>
    requires { start < end }
    ensures joined { OnOk result (Joins ahead.old.entries ahead.new.entries start end) }
    ensures kept { OnErr result (ahead.new.entries ≡ ahead.old.entries) }
{
    let last = ahead.get(&end).copied().unwrap_or(end);
    ahead.insert(start, last)?;
    ahead.remove(&end);
    Ok(())
}

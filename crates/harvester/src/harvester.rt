ghost use Rattle.std.specs.Prelude.{◌≡◌, ◌↔◌, ℕ, ◌⊎◌, ◌≤◌, All, IfErr, IfOk, IfSome, IsNone, IsSome, IsTrue, List, false, length};
ghost use Rattle.rules_in_range.specs.Processors.{IsProcessorInRange};
ghost use Rattle.outside.specs.declared.history.Look.{Look};
ghost use Rattle.told_events.specs.Rules.{rules_of};
ghost use Rattle.wire_base.specs.Ranges.{IsBegin, IsMoment, IsPlace};
ghost use Rattle.harvester.specs.Deciding.{Decides};
ghost use Rattle.harvester.specs.HasTold.{HasTold, IsChanged, begin_of, looks_so_far};
ghost use Rattle.harvester.specs.History.{History, opened, read_to, told_to, with_ending, with_path};
ghost use Rattle.harvester.specs.InRange.{IsReadable};
ghost use Rattle.harvester.specs.Standing.{StandsFor};
ghost use Rattle.harvester.specs.Turns.{IsWaiting, last_line_of};

use crate::fate_rules::FateRules;
use crate::reader::Reader;
use crate::stage::Stage;
use event_tree::{InputRule, ProcessorRule};
use outside::Tail;
use std::alloc::Global;
use wire_base::{Begin, Epoch, Moment, NoMemory, Slot, Text};

/// An open file that is reported as events. It holds the head of an unended line and an event that waits for lines, each of at
/// most `message_max_bytes`, the room of at most two reads of 16,384 bytes, and the rules, compiled once.
#[derive(Drop)]
pub struct Harvester<T> {
    pub(crate) tail: T,
    pub(crate) reader: Reader,
    pub(crate) rules: FateRules,
    /// The last turn found the file's end, and nothing was heard of the file since.
    pub(crate) rests: bool,
}

impl<T: Tail> Harvester<T> {
    /// Follows the file on from its begin's place. `Err` means out of memory, and gives the tail back; a pattern that is
    /// too large when it is compiled is reported as that, too.
    pub fn open(
        alloc: Global,
        rule: &InputRule,
        processors: &[ProcessorRule],
        begin: Begin,
        tail: T,
        now: Moment,
    ) -> Result<Harvester<T>, T>
        requires readable { IsReadable rule.now }
        requires few { length processors.now ≤ 64 }
        requires in_range { All IsProcessorInRange processors.now }
        requires begin { IsBegin begin }
        requires moment { IsMoment now }
        ensures opened { IfOk result (HasTold T.numbers T.told
            (opened rule.now processors.now begin (looks_so_far (T.told tail)) now.0)) }
        ensures begun { IfOk result (λ harvester. begin_of harvester ≡ begin) }
        ensures at_work { IfOk result (λ harvester. harvester.rests ≡ false) }
        ensures tail_kept { IfOk result (λ harvester. harvester.tail ≡ tail) }
        ensures given_back { IfErr result (λ back. back ≡ tail) }
    {
        match parts(alloc, rule, processors, begin, now) {
            Ok((reader, rules)) => Ok(Harvester {
                tail,
                reader,
                rules,
                rests: false,
            }),
            Err(_) => Err(tail),
        }
    }

    /// Gives the tail back.
    pub fn finish(self) -> T
        ensures { result ≡ self.tail }
    {
        self.tail
    }

    /// Whether a turn found that the file has another key or none, or that the last epoch is over. No further turn is made
    /// then.
    pub fn changed(&self) -> bool
        ensures { IsTrue result ↔ IsChanged self.now }
    {
        match self.reader.stage() {
            Stage::Changed | Stage::Over => true,
            Stage::Reading | Stage::Asking | Stage::Ended => false,
        }
    }

    pub fn slot(&self) -> Slot
        ensures { result ≡ (begin_of self.now).slot }
    {
        self.reader.begin.slot
    }

    /// The epoch, and the end of the last span that was reported in it, or the place from which it is read.
    pub fn told(&self) -> (Epoch, u64)
        ensures epoch { (history : History) → HasTold T.numbers T.told history self.now →
            result.0.0 ≡ history.present.epoch }
        ensures place { (history : History) → HasTold T.numbers T.told history self.now →
            result.1 ≡ told_to history.present }
    {
        (self.reader.epoch, self.reader.told_to)
    }

    /// The place up to which the present epoch was read, in bytes: that of the next byte to read.
    pub fn read_to(&self) -> u64
        ensures { (history : History) → HasTold T.numbers T.told history self.now →
            result ≡ read_to history.present }
    {
        self.reader.position()
    }

    /// Events that are reported later have this path. Takes no memory.
    pub fn rename(&mut self, path: Text)
        ensures renamed { (history : History) → HasTold T.numbers T.told history self.old →
            HasTold T.numbers T.told (with_path path history) self.new }
        ensures others { self.new ≡ (record self.old { reader = self.new.reader }) }
        ensures events_kept { self.new.reader.events ≡ self.old.reader.events }
        ensures begin_kept { begin_of self.new ≡ begin_of self.old }
        ensures changed_kept { IsChanged self.new → IsChanged self.old }
    {
        self.reader.rename(path);
    }

    /// Later turns are made as with `last`; whether the file is to be forgotten at its end. Takes no memory.
    pub fn ending(&mut self, forget: bool)
        ensures ends { (history : History) → HasTold T.numbers T.told history self.old →
            HasTold T.numbers T.told (with_ending forget history) self.new }
        ensures others { self.new ≡ (record self.old { reader = self.new.reader }) }
        ensures events_kept { self.new.reader.events ≡ self.old.reader.events }
        ensures begin_kept { begin_of self.new ≡ begin_of self.old }
        ensures changed_kept { IsChanged self.new → IsChanged self.old }
    {
        self.reader.ending(forget);
    }

    /// Whether the file is to be forgotten at its end.
    pub fn forgets(&self) -> bool
        ensures { (history : History) → HasTold T.numbers T.told history self.now →
            result ≡ history.forgets }
    {
        self.reader.forgets
    }

    /// Something was heard of the file: `idle_since` is `None` until the next turn. Takes no memory.
    pub fn stir(&mut self)
        ensures { self.new ≡ (record self.old { rests = false }) }
    {
        self.rests = false;
    }

    /// Since when the file gave no line, if the last turn found its end, no event waits and nothing was heard of it
    /// since: the moment of the last turn that read a complete line, or that of the opening.
    pub fn idle_since(&self) -> Option<Moment>
        ensures none { IsNone result ↔ (IsWaiting self.now ⊎ (self.now.rests ≡ false)) }
        ensures since { IfSome result (λ since. since.0 ≡ last_line_of self.now) }
    {
        if !self.rests || self.reader.events.pending() {
            return None;
        }
        Some(self.reader.events.last_line)
    }
}

/// What a harvester holds beside its tail.
fn parts(
    alloc: Global,
    rule: &InputRule,
    processors: &[ProcessorRule],
    begin: Begin,
    now: Moment,
) -> Result<(Reader, FateRules), NoMemory>
    requires readable { IsReadable rule.now }
    requires few { length processors.now ≤ 64 }
    requires in_range { All IsProcessorInRange processors.now }
    requires place { IsPlace begin.base }
    requires moment { IsMoment now }
    ensures stands { IfOk result (λ parts. (before : List Look) →
        StandsFor (opened rule.now processors.now begin before now.0) parts.0) }
    ensures decides { IfOk result (λ parts. Decides (rules_of rule.now processors.now) parts.1) }
{
    Ok((
        Reader::open(alloc, rule, begin, now)?,
        FateRules::new(alloc, rule, processors)?,
    ))
}

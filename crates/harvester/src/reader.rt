ghost use Rattle.std.specs.Prelude.{◌≡◌, ◌⊎◌, ◌||◌, ◌↔◌, ℕ, ◌+◌, ◌<◌, ◌≤◌, Bool, true, false, List, [], ◌∷◌, ◌++◌, Contains, IfOk, IfSome, IsSome, IsTrue, None, OnErr, OnOk, Some, length, take};
ghost use Rattle.event_tree.specs.declared.processor_rule.ProcessorRule.{ProcessorRule};
ghost use Rattle.outside.specs.Counts.{Rose};
ghost use Rattle.outside.specs.Tails.{TellsRead};
ghost use Rattle.outside.specs.declared.history.Look.{Look};
ghost use Rattle.told_events.specs.Told.{ToldEvent};
ghost use Rattle.wire_base.specs.Ranges.{IsMoment, IsPlace};
ghost use Rattle.harvester.specs.History.{Asks, History, opened, with_ending, with_epoch, with_path, with_present, with_read, with_stage};
ghost use Rattle.harvester.specs.InRange.{IsReadable};
ghost use Rattle.harvester.specs.Standing.{AllGathered, EndsAt, IsGatheredAt, StandsFor, TellsOne, WasClosed, given_path, stage_of};

use crate::buffer::{Buffer, READ_SIZE};
use crate::events::Events;
use crate::stage::Stage;
use event_tree::{IdentityRule, InputRule};
use line_cutter::{later_lines, lines_stay};
use multiline_core::events_stay;
use outside::{Failed, Tail};
use std::alloc::Global;
use std::marker::Model;
use wire_base::{Begin, Epoch, Moment, NoMemory, Slot, Text};

/// What a harvester holds beside its tail and its compiled rules.
#[derive(Drop)]
pub(crate) struct Reader {
    pub(crate) begin: Begin,
    pub(crate) input: Text,
    pub(crate) identity: IdentityRule,
    /// The path that was given last, if it is not that of the opening.
    pub(crate) renamed: Option<Text>,
    pub(crate) epoch: Epoch,
    pub(crate) told_to: u64,
    pub(crate) events: Events,
    pub(crate) position: u64,
    buffer: Buffer,
    /// How many bytes of the buffer were read and not fed yet.
    filled: usize,
    read_at: Moment,
    pub(crate) stage: Stage,
    pub(crate) ends: bool,
    pub(crate) forgets: bool,
}

impl Model for Reader {
    ghost use Rattle.harvester.specs.Held.{Held};

    ghost Value = { Held };

    ghost use Rattle.harvester.specs.Standing.{HasHistory};

    ghost view = { λ r. record {
      begin = r.begin;
      input = r.input;
      identity = r.identity;
      renamed = r.renamed;
      epoch = r.epoch;
      told_to = r.told_to;
      events = r.events;
      position = r.position;
      buffer = r.buffer;
      filled = r.filled;
      read_at = r.read_at;
      stage = r.stage;
      ends = r.ends;
      forgets = r.forgets;
    } };

    ghost invariant = { λ r. HasHistory (record {
      begin = r.begin;
      input = r.input;
      identity = r.identity;
      renamed = r.renamed;
      epoch = r.epoch;
      told_to = r.told_to;
      events = r.events;
      position = r.position;
      buffer = r.buffer;
      filled = r.filled;
      read_at = r.read_at;
      stage = r.stage;
      ends = r.ends;
      forgets = r.forgets;
    }) };
}

impl Reader {
    pub(crate) fn open(
        alloc: Global,
        rule: &InputRule,
        begin: Begin,
        now: Moment,
    ) -> Result<Reader, NoMemory>
        requires readable { IsReadable rule.now }
        requires place { IsPlace begin.base }
        requires moment { IsMoment now }
        ensures { IfOk result (λ reader. (processors : List ProcessorRule) (before : List Look) →
            StandsFor (opened rule.now processors begin before now.0) reader) }
    {
        Ok(Reader {
            input: rule.id.copy(alloc)?,
            identity: rule.file_identity,
            renamed: None,
            epoch: begin.epoch,
            told_to: begin.base,
            events: Events::new(alloc, rule, begin.base, now)?,
            position: begin.base,
            buffer: Buffer::new(alloc),
            filled: 0,
            read_at: now,
            stage: Stage::Reading,
            ends: false,
            forgets: false,
            begin,
        })
    }

    /// Whether an event is closed by what was read.
    pub(crate) fn gather(&mut self, alloc: Global) -> Result<bool, NoMemory>
        requires reads { self.old.stage ≡ Stage.Reading }
        ensures stands { (history : History) → StandsFor history self.old →
            StandsFor history self.new }
        ensures closed { IfOk result (λ found. IsTrue found ↔ IsSome self.new.events.closed) }
        ensures all { IfOk result (λ found. found ≡ false → (history : History) →
            StandsFor history self.old →
            AllGathered history self.new) }
        ensures fed { OnOk result (self.new.filled ≡ 0) }
        ensures others { self.new ≡ (record self.old {
          events = self.new.events;
          buffer = self.new.buffer;
          filled =
              self.new.filled;
        }) }
    {
        self.feed()?;
        self.find(alloc)
    }

    /// Feeds what was read, and gives its room back.
    fn feed(&mut self) -> Result<(), NoMemory>
        requires reads { self.old.stage ≡ Stage.Reading }
        ensures stands { (history : History) → StandsFor history self.old →
            StandsFor history self.new }
        ensures fed { OnOk result (self.new.filled ≡ 0) }
        ensures others { self.new ≡ (record self.old {
          events = self.new.events;
          buffer = self.new.buffer;
          filled =
              self.new.filled;
        }) }
    {
        if self.filled == 0 {
            return Ok(());
        }
        self.events.feed(self.buffer.front(self.filled))?;
        self.filled = 0;
        self.shrink();
        Ok(())
    }

    /// Whether an event is closed by what was fed.
    fn find(&mut self, alloc: Global) -> Result<bool, NoMemory>
        requires fed { self.old.filled ≡ 0 }
        requires reads { self.old.stage ≡ Stage.Reading }
        ensures stands { (history : History) → StandsFor history self.old →
            StandsFor history self.new }
        ensures closed { IfOk result (λ found. IsTrue found ↔ IsSome self.new.events.closed) }
        ensures all { IfOk result (λ found. found ≡ false → (history : History) →
            StandsFor history self.old →
            AllGathered history self.new) }
        ensures others { self.new ≡ (record self.old { events = self.new.events }) }
    {
        lines_stay();
        self.events.find(alloc, self.read_at)
    }
}

impl Reader {
    /// Reads from its position, if nothing that was read waits to be fed.
    pub(crate) fn read<T: Tail>(&mut self, tail: &mut T, now: Moment) -> Result<usize, Failed>
        requires all_fed { self.old.filled ≡ 0 }
        requires reads { self.old.stage ≡ Stage.Reading }
        requires moment { IsMoment now }
        ensures stands { (history : History) → Contains history.moments now.0 →
            AllGathered history self.old →
            IfOk result (λ count. StandsFor
            (with_read now.0 (take count self.new.buffer) history) self.new) }
        ensures stands_on_refusal { OnErr result ((history : History) →
            StandsFor history self.old →
            StandsFor history self.new) }
        ensures within { IfOk result (λ count. count ≤ length self.new.buffer) }
        ensures bounded { IfOk result (λ count. count ≤ READ_SIZE) }
        ensures some_room { 0 < length self.new.buffer }
        ensures same_room { length self.new.buffer ≡ length self.old.buffer }
        ensures told { TellsRead (T.told tail.old) self.old.position self.new.buffer result (T.told
            tail.new) }
        ensures begin_kept { self.new.begin ≡ self.old.begin }
        ensures input_kept { self.new.input ≡ self.old.input }
        ensures identity_kept { self.new.identity ≡ self.old.identity }
        ensures epoch_kept { self.new.epoch ≡ self.old.epoch }
        ensures stage_kept { self.new.stage ≡ self.old.stage }
        ensures others { OnErr result
            (self.new ≡ (record self.old { buffer = self.new.buffer })) }
        ensures numbers_kept { T.numbers tail.new ≡ T.numbers tail.old }
        ensures faults_never_fall { T.faults tail.old ≤ T.faults tail.new }
        ensures failed_only_where_faults_rose { OnErr result (Rose (T.faults tail.old) (T.faults
            tail.new)) }
        ensures faults_told_only_by_failures { IsSome (T.told tail.old) →
            OnOk result (T.faults tail.new ≡ T.faults tail.old) }
    {
        lines_stay();
        let count = self.buffer.read(tail, self.position)?;
        self.filled = count;
        self.position += count as u64;
        self.read_at = now;
        Ok(count)
    }

    /// Makes room for a whole read, if the file has this length and there is something to read. Nothing that was
    /// read waits to be fed.
    pub(crate) fn make_room(&mut self, length: u64) -> Result<(), NoMemory>
        requires { self.old.filled ≡ 0 }
        ensures stands { (history : History) → StandsFor history self.old →
            StandsFor history self.new }
        ensures all_gathered { (history : History) → AllGathered history self.old →
            AllGathered history self.new }
        ensures others { self.new ≡ (record self.old { buffer = self.new.buffer }) }
    {
        if length > self.position {
            self.buffer.enlarge()?;
        }
        Ok(())
    }

    /// Gives the room back, if nothing that was read waits to be fed. Takes no memory.
    pub(crate) fn shrink(&mut self)
        requires { self.old.filled ≡ 0 }
        ensures stands { (history : History) → StandsFor history self.old →
            StandsFor history self.new }
        ensures others { self.new ≡ (record self.old { buffer = self.new.buffer }) }
    {
        self.buffer.shrink();
    }

    /// Closes the event that waits as it is, if the file's end was found or the event's timeout has passed; whether
    /// there is one then. Takes no memory.
    pub(crate) fn close(&mut self, ended: bool, now: Moment) -> bool
        requires none_closed { self.old.events.closed ≡ None }
        requires moment { IsMoment now }
        ensures closed { IsTrue result ↔ IsSome self.new.events.closed }
        ensures was_closed { (history : History) → AllGathered history self.old →
            EndsAt history.moments now.0 → WasClosed history now.0 ended self.new }
        ensures others { self.new ≡ (record self.old { events = self.new.events }) }
    {
        if !self.events.may_close(ended, now) {
            return false;
        }
        self.events.flush();
        self.events.closed.is_some()
    }

    /// The closed event was reported.
    pub(crate) fn pass(&mut self)
        requires closed { IsSome self.old.events.closed }
        ensures told { (history : History) (event : ToldEvent) → StandsFor history self.old →
            IfSome self.old.events.closed (TellsOne history event self.new) }
        ensures others { self.new ≡ (record self.old {
          events = self.new.events;
          told_to =
              self.new.told_to;
        }) }
    {
        lines_stay();
        later_lines();
        events_stay();
        let Some(group) = &self.events.closed else {
            unreachable!()
        };
        prove!(group.span.start() < group.span.end());
        let end = group.span.end();
        self.told_to = end;
        self.events.pass();
    }

    /// The state of the file from now on.
    pub(crate) fn stand(&mut self, stage: Stage)
        ensures stands { (history : History) (stood : StandsFor history self.old) →
            IsGatheredAt (stage_of stage) history stood.of →
            StandsFor (with_stage (stage_of stage) history) self.new }
        ensures others { self.new ≡ (record self.old { stage = stage }) }
    {
        self.stage = stage;
    }

    /// Begins the next epoch at the file's first byte; what waits is forgotten. Takes no memory.
    pub(crate) fn begin_life(&mut self, alloc: Global, epoch: Epoch)
        requires next { epoch.0 ≡ self.old.epoch.0 + 1 }
        ensures stands { (history : History) → history.stage ≡ Asks →
            StandsFor history self.old →
            StandsFor (with_epoch history) self.new }
        ensures others { self.new ≡ (record self.old {
          epoch = epoch;
          told_to = 0;
          position = 0;
          filled = 0;
          events = self.new.events;
          stage = Stage.Reading;
        }) }
    {
        self.events.begin_life(alloc);
        self.epoch = epoch;
        self.told_to = 0;
        self.position = 0;
        self.filled = 0;
        self.stage = Stage::Reading;
    }

    /// Events that are reported later have this path. Takes no memory.
    pub(crate) fn rename(&mut self, path: Text)
        ensures stands { (history : History) → StandsFor history self.old →
            StandsFor (with_path path history) self.new }
        ensures others { self.new ≡ (record self.old { renamed = Some path }) }
    {
        self.renamed = Some(path);
    }

    /// Later turns may find the file's end. Takes no memory.
    pub(crate) fn ending(&mut self, forget: bool)
        ensures stands { (history : History) → StandsFor history self.old →
            StandsFor (with_ending forget history) self.new }
        ensures others { self.new ≡ (record self.old { ends = true; forgets = forget }) }
    {
        self.ends = true;
        self.forgets = forget;
    }

    /// The place of the next byte to read.
    pub(crate) fn position(&self) -> u64
        ensures { result ≡ self.now.position }
    {
        self.position
    }

    pub(crate) fn stage(&self) -> Stage
        ensures { result ≡ self.now.stage }
    {
        self.stage
    }

    /// Whether an event is closed and not reported yet.
    pub(crate) fn has_closed(&self) -> bool
        ensures { IsTrue result ↔ IsSome self.now.events.closed }
    {
        self.events.closed.is_some()
    }

    /// Whether the file's end may be found, in a turn that is the last one or is not.
    pub(crate) fn may_end(&self, last: bool) -> bool
        ensures { result ≡ (last || self.now.ends) }
    {
        last || self.ends
    }

    pub(crate) fn epoch(&self) -> Epoch
        ensures { result ≡ self.now.epoch }
    {
        self.epoch
    }

    pub(crate) fn slot(&self) -> Slot
        ensures { result ≡ self.now.begin.slot }
    {
        self.begin.slot
    }

    /// The path that was given last.
    pub(crate) fn path(&self) -> &Text
        ensures { result.now ≡ given_path self.now.begin.path self.now.renamed }
    {
        match &self.renamed {
            Some(path) => path,
            None => &self.begin.path,
        }
    }
}

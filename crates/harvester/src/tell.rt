ghost use Rattle.std.specs.Prelude.{◌≡◌, IfOk, IfSome, IsSome, OnErr};
ghost use Rattle.told_events.specs.Rules.{Rules};
ghost use Rattle.wire_base.specs.Ranges.{IsMoment, IsPlace};
ghost use Rattle.harvester.specs.Deciding.{Decides};
ghost use Rattle.harvester.specs.HasTold.{HasTold};
ghost use Rattle.harvester.specs.History.{History, with_events, with_present};
ghost use Rattle.harvester.specs.Standing.{IsFateBy, given_path};
ghost use Rattle.harvester.specs.Turned.{HasOneEvent, IsAnswerFor, events_told};

use crate::fate_rules::{EventFate, FateRules};
use crate::harvester::Harvester;
use crate::reader::Reader;
use crate::turn::Turn;
use outside::Tail;
use std::alloc::Global;
use wire_base::{Moment, NoMemory, Parcel, Span};

impl<T: Tail> Harvester<T> {
    /// Reports the closed event.
    pub(crate) fn tell(&mut self, alloc: Global, now: Moment) -> Result<Turn, NoMemory>
        requires closed { IsSome self.old.reader.events.closed }
        requires moment { IsMoment now }
        ensures told { (history : History) → HasTold T.numbers T.told history self.old →
            IfOk result (λ turn. HasTold T.numbers T.told (with_present
            (with_events (events_told history.path now.0 turn) history.present) history) self.new) }
        ensures one { IfOk result (λ turn. HasOneEvent turn) }
        ensures of_file { (rules : Rules) → Decides rules self.old.rules →
            IfOk result (IsAnswerFor self.old.reader.begin.slot self.old.reader.epoch) }
        ensures stage_kept { self.new.reader.stage ≡ self.old.reader.stage }
        ensures same_on_refusal { (history : History) →
            HasTold T.numbers T.told history self.old →
            OnErr result (HasTold T.numbers T.told history self.new) }
        ensures rests_kept { self.new.rests ≡ self.old.rests }
        ensures begin_kept { self.new.reader.begin ≡ self.old.reader.begin }
        ensures tail_kept { self.new.tail ≡ self.old.tail }
    {
        let (fate, span) = fate(alloc, &self.reader, &mut self.rules, now)?;
        self.reader.pass();
        match fate {
            EventFate::Shipped(payload) => Ok(Turn::Issued(Parcel {
                slot: self.reader.slot(),
                epoch: self.reader.epoch(),
                span,
                payload,
            })),
            EventFate::Dropped(rule) => Ok(Turn::Passed(span, rule)),
        }
    }
}

/// The fate of the closed event, and its span.
fn fate(
    alloc: Global,
    reader: &Reader,
    rules: &mut FateRules,
    now: Moment,
) -> Result<(EventFate, Span), NoMemory>
    requires closed { IsSome reader.now.events.closed }
    requires moment { IsMoment now }
    ensures by_the_rules { IfOk result (λ told. IfSome reader.now.events.closed (λ group.
        (r : Rules) → Decides r rules.old →
        IsFateBy r (given_path reader.now.begin.path reader.now.renamed) now.0 told group)) }
    ensures span { IfOk result (λ told. IfSome reader.now.events.closed (λ group. told.1 ≡
        group.span)) }
    ensures in_range { IfOk result (λ told. IsPlace told.1.end) }
    ensures decides { (r : Rules) → Decides r rules.old → Decides r rules.new }
{
    let Some(group) = &reader.events.closed else {
        unreachable!()
    };
    let fate = rules.fate(alloc, reader.path(), group, now)?;
    Ok((fate, group.span))
}

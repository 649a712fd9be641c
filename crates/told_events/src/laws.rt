ghost use Rattle.std.specs.Prelude.{◌≡◌, ◌≢◌, ℕ, ◌+◌, List, [], ◌++◌, All, Contains, Some, None};
ghost use Rattle.event_json.specs.Envelope.{envelope_of};
ghost use Rattle.event_json.specs.Payload.{payload_of_event, payload_of_value};
ghost use Rattle.event_tree.specs.declared.group_rule.GroupRule.{GroupRule};
ghost use Rattle.event_tree.specs.declared.line_rule.LineRule.{LineRule};
ghost use Rattle.event_tree.specs.Value.{TreeValue};
ghost use Rattle.line_filter.specs.Verdict.{verdict_of};
ghost use Rattle.multiline_core.specs.Rule.{IsGroupRule};
ghost use Rattle.processors_core.specs.Outcome.{Dropped, Left, outcome_of};
ghost use Rattle.ship_core.specs.CoveredEnd.{Adjoin, last_end};
ghost use Rattle.told_events.specs.Fate.{DroppedBy, ShippedAs, fate_of, fate_of_payload};
ghost use Rattle.told_events.specs.Rules.{Rules};
ghost use Rattle.told_events.specs.Told.{AreTold, ToldEvent, spans_of};

use multiline_core::spans_adjoin;

/// The fate of an event by the first rule that applies: those of its message, then the first `drop_event` that drops
/// it, then the length of its payload. A law; it computes nothing.
pub fn fates_by_rules()
    ensures by_message { (rules : Rules) (path : List ℕ) (start : ℕ) (message : List ℕ)
        (now rule : ℕ) → verdict_of rules.include rules.exclude message ≡ Some rule →
        fate_of rules path start message now ≡ DroppedBy rule }
    ensures by_processor { (rules : Rules) (path : List ℕ) (start : ℕ) (message : List ℕ)
        (now processor : ℕ) → verdict_of rules.include rules.exclude message ≡ None →
        outcome_of rules.processors (envelope_of path start message now) ≡ Dropped processor →
        fate_of rules path start message now ≡ DroppedBy (10 + processor) }
    ensures by_length { (rules : Rules) (path : List ℕ) (start : ℕ) (message : List ℕ) (now : ℕ)
        (tree : TreeValue) → verdict_of rules.include rules.exclude message ≡ None →
        outcome_of rules.processors (envelope_of path start message now) ≡ Left tree →
        payload_of_value tree ≡ None → fate_of rules path start message now ≡ DroppedBy 3 }
    ensures shipped { (rules : Rules) (path : List ℕ) (start : ℕ) (message : List ℕ) (now : ℕ)
        (tree : TreeValue) (payload : List ℕ) →
        verdict_of rules.include rules.exclude message ≡ None →
        outcome_of rules.processors (envelope_of path start message now) ≡ Left tree →
        payload_of_value tree ≡ Some payload →
        fate_of rules path start message now ≡ ShippedAs payload }
{}

/// Without filters and processors an event whose message has some byte is shipped as the payload of its envelope, if that
/// is not too long. A law; it computes nothing.
pub fn fates_without_rules()
    ensures { (lines : LineRule) (events : GroupRule) (path : List ℕ) (start : ℕ)
        (message : List ℕ) (now : ℕ) → message ≢ [] →
        fate_of (record {
          lines = lines;
          events = events;
          include = [];
          exclude = [];
          processors = [];
        }) path start message now ≡ fate_of_payload (payload_of_event path start message now) }
{}

/// The spans of reported events adjoin from their start on, and none is empty. A law; it computes nothing.
pub fn told_events_adjoin()
    ensures { (rules : Rules) (licences life : List ℕ) (start : ℕ) (told : List ToldEvent) →
        IsGroupRule rules.events → AreTold rules licences life start told →
        Adjoin start (spans_of told) }
{
    spans_adjoin();
}

/// Events that are reported after others, from where the last of these ends, are reported with them; the first of reported events are
/// reported, and so are the others from there on. A law; it computes nothing.
pub fn told_events_go_on()
    ensures behind { (rules : Rules) (licences life : List ℕ) (start : ℕ)
        (told more : List ToldEvent) → AreTold rules licences life start told →
        AreTold rules licences life (last_end start (spans_of told)) more →
        AreTold rules licences life start (told ++ more) }
    ensures front { (rules : Rules) (licences life : List ℕ) (start : ℕ)
        (told more : List ToldEvent) → AreTold rules licences life start (told ++ more) →
        AreTold rules licences life start told }
    ensures others { (rules : Rules) (licences life : List ℕ) (start : ℕ)
        (told more : List ToldEvent) → AreTold rules licences life start (told ++ more) →
        AreTold rules licences life (last_end start (spans_of told)) more }
{}

/// Reported events stay reported if more of them may be flushed. A law; it computes nothing.
pub fn told_events_stay_told()
    ensures { (rules : Rules) (licences more life : List ℕ) (start : ℕ) (told : List ToldEvent) →
        All (Contains more) licences → AreTold rules licences life start told →
        AreTold rules more life start told }
{}

ghost use Rattle.std.specs.Prelude.{◌≡◌, ℕ, ◌<◌, ◌≤◌, Bool, true, List, [], ◌∷◌, ◌++◌, length, map};
ghost use Rattle.wire_base.specs.Extent.{Extent};
ghost use Rattle.event_tree.specs.declared.group_rule.GroupRule.{GroupRule};
ghost use Rattle.event_tree.specs.declared.group_rule.GroupRule.TheVariants.{Single};
ghost use Rattle.event_tree.specs.declared.line_rule.LineRule.{LineRule};
ghost use Rattle.line_cutter.specs.declared.line.Line.{Line};
ghost use Rattle.multiline_core.specs.Event.{IsNatural};
ghost use Rattle.multiline_core.specs.Message.{message_of};
ghost use Rattle.multiline_core.specs.Partition.{lines_from, IsNaturalEvent, IsFlushedEvent, IsPartition, AreAdjoiningSpans};
ghost use Rattle.multiline_core.specs.Rule.{IsGroupRule};

use line_cutter::{later_lines, lines_adjoin, lines_stay};

/// Of lines at most one row of first lines is an event by rule. A law; it computes nothing.
pub fn one_event()
    ensures { (rule : GroupRule) (lines row other : List Line) → IsNatural rule lines row → IsNatural rule lines other →
        row ≡ other }
{}

/// An event of lines stays one, whatever lines follow. A law; it computes nothing.
pub fn events_stay()
    ensures { (rule : GroupRule) (lines more row : List Line) → IsNatural rule lines row →
        IsNatural rule (lines ++ more) row }
{}

/// At each place of a file begins at most one event by rule. A law; it computes nothing.
pub fn one_natural_event()
    ensures { (lines : LineRule) (rule : GroupRule) (bytes : List ℕ) (start end other : ℕ) →
        IsNaturalEvent lines rule bytes start end → IsNaturalEvent lines rule bytes start other → end ≡ other }
{}

/// The events by rule of a front of a file are events of the file. A law; it computes nothing.
pub fn natural_events_stay()
    ensures { (lines : LineRule) (rule : GroupRule) (bytes more : List ℕ) (start end : ℕ) →
        IsNaturalEvent lines rule bytes start end → IsNaturalEvent lines rule (bytes ++ more) start end }
{
    lines_stay();
}

/// No event is empty, one by rule or one that is flushed. A law; it computes nothing.
pub fn no_event_is_empty()
    ensures natural { (lines : LineRule) (rule : GroupRule) (bytes : List ℕ) (start end : ℕ) → IsGroupRule rule →
        IsNaturalEvent lines rule bytes start end → start < end }
    ensures flushed { (lines : LineRule) (rule : GroupRule) (bytes : List ℕ) (start end : ℕ) → IsGroupRule rule →
        IsFlushedEvent lines rule bytes start end → start < end }
{
    lines_adjoin();
}

/// The spans of a partition adjoin from its start on, and none is empty, whichever places the test names for a flush. A
/// law; it computes nothing.
pub fn spans_adjoin()
    ensures { (lines : LineRule) (rule : GroupRule) (licensed : ℕ → Bool) (bytes : List ℕ) (start : ℕ) (spans : List Extent) →
        IsGroupRule rule → IsPartition lines rule (λ place. licensed place ≡ true) bytes start spans →
        AreAdjoiningSpans start spans }
{
    lines_adjoin();
}

/// Without a rule for events each complete line is one: their spans are a partition of the bytes, and an event's message
/// is its line's head. A law; it computes nothing.
pub fn each_line_is_an_event()
    ensures partition { (lines : LineRule) (message_max_bytes : ℕ) (licensed : ℕ → Bool) (bytes : List ℕ) (start : ℕ) →
        IsPartition lines (Single message_max_bytes) (λ place. licensed place ≡ true) bytes start
        (map (λ line. line.span) (lines_from lines bytes start)) }
    ensures message { (message_max_bytes : ℕ) (line : Line) → length line.head ≤ message_max_bytes →
        message_of (Single message_max_bytes) (line ∷ []) ≡ line.head }
    ensures natural { (lines : LineRule) (message_max_bytes : ℕ) (bytes : List ℕ) (start : ℕ) (line : Line) (more : List Line) →
        lines_from lines bytes start ≡ line ∷ more →
        IsNatural (Single message_max_bytes) (lines_from lines bytes start) (line ∷ []) }
{
    later_lines();
    lines_adjoin();
}

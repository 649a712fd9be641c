//! Which notes may come next: what a step of the machine asks of its caller.
ghost use Rattle.std.specs.Prelude.{◌≡◌, [], IsTrue, length};
ghost use Rattle.std.specs.List.{list_all, list_any};
ghost use Rattle.ship_core.specs.Orderly.{IsBegun, MayFollow};
ghost use Rattle.ship_core.specs.Reading.{begins};
ghost use Rattle.ship_core.specs.RowOver.{notes_of, slot_of, span_in, spans_in};
ghost use Rattle.memory_tests.specs.Apart.{are_apart};

use wire_base::{Note, Span};

fn slot_of(note: &Note) -> u32
    ensures { result ≡ slot_of note.now }
{
    match note {
        Note::Begin { slot, .. }
        | Note::Announce { slot, .. }
        | Note::Settle { slot, .. }
        | Note::Rename { slot, .. }
        | Note::Seen { slot, .. }
        | Note::Forget { slot, .. } => slot.0,
    }
}

fn begins(note: &Note, slot: u32) -> bool
    ensures { result ≡ begins slot note.now }
{
    match note {
        Note::Begin { slot: begun, .. } => begun.0 == slot,
        _ => false,
    }
}

fn span_in(epoch: u32, note: &Note) -> Option<Span>
    ensures { result ≡ span_in epoch note.now }
{
    match note {
        Note::Settle {
            epoch: named,
            span,
            ..
        } => { if named.0 == epoch { Some(*span) } else { None } }
        _ => None,
    }
}

fn is_any_begin(notes: &[Note], slot: u32) -> bool
    ensures { result ≡ list_any (begins slot) notes.now }
{
    notes.iter().any(|note| begins(note, slot))
}

fn is_begun(notes: &[Note], slot: u32) -> bool
    ensures { IsTrue result → IsBegun slot notes.now }
{
    is_any_begin(notes, slot)
}

fn count_of(notes: &[Note], slot: u32) -> usize
    ensures { result ≡ length (notes_of slot notes.now) }
{
    notes.iter().filter(|note| slot_of(note) == slot).count()
}

fn is_new(notes: &[Note], slot: u32) -> bool
    ensures { IsTrue result → notes_of slot notes.now ≡ [] }
{
    count_of(notes, slot) == 0
}

fn are_apart(a: Span, b: Span) -> bool
    ensures { result ≡ are_apart a b }
{
    (a.start() == b.start() && a.end() == b.end()) || a.end() <= b.start() || b.end() <= a.start()
}

fn are_all_apart(notes: &[Note], slot: u32, epoch: u32, span: Span) -> bool
    ensures { result ≡ list_all (are_apart span) (spans_in epoch (notes_of slot notes.now)) }
{
    notes
        .iter()
        .filter(|note| slot_of(note) == slot)
        .filter_map(|note| span_in(epoch, note))
        .all(|other| are_apart(span, other))
}

/// Whether the note may follow those before it. A rename may not, which no test here makes.
pub(crate) fn may_follow(notes: &[Note], note: &Note) -> bool
    ensures { IsTrue result → MayFollow notes.now note.now }
{
    match note {
        Note::Begin { slot, .. } => is_new(notes, slot.0),
        Note::Settle {
            slot,
            epoch,
            span,
            ..
        } => is_begun(notes, slot.0) && are_all_apart(notes, slot.0, epoch.0, *span),
        Note::Announce { slot, .. } | Note::Seen { slot, .. } | Note::Forget { slot, .. } => {
            is_begun(notes, slot.0)
        }
        Note::Rename { .. } => false,
    }
}

ghost use Rattle.std.specs.Prelude.{◌≡◌};
ghost use Rattle.std.specs.List.{list_any};
ghost use Rattle.event_tree.specs.Tree.{value_of};
ghost use Rattle.conditions.specs.Asked.{has_text, is_text_with};
ghost use Rattle.conditions.specs.Within.{is_within};

use event_tree::{Tree, Trees};
use memchr::memmem;
use wire_base::Text;

/// Whether the value is a text that has the text within it, or a list of which some member is one.
pub(crate) fn has_text(text: &Text, value: &Tree) -> bool
    ensures { result ≡ has_text text.now (value_of value.now) }
{
    match value {
        Tree::Str(found) => is_within(text, found),
        Tree::List(members) => some_has_text(text, members),
        _ => false,
    }
}

fn some_has_text(text: &Text, members: &Trees) -> bool
    ensures { result ≡ list_any (is_text_with text.now) members.now }
{
    for i in 0..members.len() {
        if is_text_with(text, members.at(i)) {
            return true;
        }
    }
    false
}

fn is_text_with(text: &Text, value: &Tree) -> bool
    ensures { result ≡ is_text_with text.now (value_of value.now) }
{
    match value {
        Tree::Str(found) => is_within(text, found),
        _ => false,
    }
}

fn is_within(text: &Text, found: &Text) -> bool
    ensures { result ≡ is_within text.now found.now }
{
    memmem::find(found.bytes(), text.bytes()).is_some()
}

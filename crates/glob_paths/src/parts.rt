ghost use Rattle.std.specs.Prelude.{◌≡◌, ◌+◌, ◌<◌, ◌≤◌, ◌∷◌, [], length, Option, Some, None, MatchOption, IfSome};
ghost use Rattle.wire_base.specs.Path.{parts_of};

/// The part before the first slash, and what follows that slash, if there is one.
pub fn first_part(text: &str) -> (&str, Option<&str>)
    ensures cases { MatchOption result.1
        (parts_of text.now ≡ result.0.now ∷ [])
        (λ rest. parts_of text.now ≡ result.0.now ∷ parts_of rest.now) }
    ensures places { MatchOption result.1
        (length text.now ≡ length result.0.now)
        (λ rest. length text.now ≡ length result.0.now + 1 + length rest.now) }
{
    match text.split_once('/') {
        Some((part, rest)) => (part, Some(rest)),
        None => (text, None),
    }
}

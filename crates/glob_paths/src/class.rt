ghost use Rattle.std.specs.Prelude.{◌≡◌, ◌<◌, ◌≤◌, ◌∷◌, [], true, false, length, MatchOption, IfSome};
ghost use Rattle.glob_paths.specs.declared.sign.Sign.{Sign};
ghost use Rattle.glob_paths.specs.Sign.{is, signs};
ghost use Rattle.glob_paths.specs.Token.{items_of, tokens, tokens_of, token_at, class_of, after_caret, is_negated, takes, some_item_has};

use crate::sign::{Sign, first_sign};

/// What follows the token that `sign` and `rest` begin, if that token takes the character.
#[tactic(auto, unfolding(crate::specs::Token::tokens))]
pub fn token_after<'a>(sign: Sign, rest: &'a str, code: char) -> Option<&'a str>
    requires { is 42 sign ≡ false }
    ensures taken { MatchOption result
        (takes (token_at sign (signs rest.now)) code ≡ false)
        (λ _. takes (token_at sign (signs rest.now)) code ≡ true) }
    ensures behind { IfSome result (λ behind. tokens_of (is 91 sign) (signs rest.now) ≡ tokens behind.now) }
    ensures no_longer { IfSome result (λ behind. length behind.now ≤ length rest.now) }
{
    if sign.is('[') {
        return class_after(rest, code);
    }
    let taken = if sign.is('?') {
        code != '/'
    } else {
        sign.code == code
    };
    if taken { Some(rest) } else { None }
}

/// What follows the class that begins at `body`, after its `[`, if it takes the character.
fn class_after(body: &str, code: char) -> Option<&str>
    ensures taken { MatchOption result
        (takes (class_of (signs body.now)) code ≡ false)
        (λ _. takes (class_of (signs body.now)) code ≡ true) }
    ensures behind { IfSome result (λ behind. tokens_of true (signs body.now) ≡ tokens behind.now) }
    ensures no_longer { IfSome result (λ behind. length behind.now ≤ length body.now) }
{
    let (negated, items) = behind_caret(body);
    let (found, rest) = items_have(items, code);
    if code != '/' && found != negated {
        Some(behind_class(rest))
    } else {
        None
    }
}

/// Whether a class is negated, and the text of its items.
pub fn behind_caret(body: &str) -> (bool, &str)
    ensures negated { result.0 ≡ is_negated (signs body.now) }
    ensures items { signs result.1.now ≡ after_caret (signs body.now) }
    ensures class_goes_on { tokens_of true (signs body.now) ≡ tokens_of true (signs result.1.now) }
    ensures no_longer { length result.1.now ≤ length body.now }
{
    let Some((sign, rest)) = first_sign(body) else {
        return (false, body);
    };
    if sign.is('^') {
        (true, rest)
    } else {
        (false, body)
    }
}

/// Whether some item of a class has the character, and the text from the end of the items on.
fn items_have(items: &str, code: char) -> (bool, &str)
    ensures found { result.0 ≡ some_item_has code (items_of (signs items.now)) }
    ensures at_the_end { items_of (signs result.1.now) ≡ [] }
    ensures class_goes_on { tokens_of true (signs items.now) ≡ tokens_of true (signs result.1.now) }
    ensures no_longer { length result.1.now ≤ length items.now }
{
    let mut found = false;
    let mut rest = items;
    while let Some((low, high, behind)) = first_item(rest) {
        found = found || (low <= code && code <= high);
        rest = behind;
    }
    (found, rest)
}

/// What follows a class whose items have ended.
fn behind_class(rest: &str) -> &str
    requires { items_of (signs rest.now) ≡ [] }
    ensures behind { tokens_of true (signs rest.now) ≡ tokens result.now }
    ensures no_longer { length result.now ≤ length rest.now }
{
    match first_sign(rest) {
        Some((_, behind)) => behind,
        None => rest,
    }
}

/// The first item of a class: the first and the last character of its range, and the text after it.
pub fn first_item(text: &str) -> Option<(char, char, &str)>
    ensures cases { MatchOption result
        (items_of (signs text.now) ≡ [])
        (λ item. items_of (signs text.now) ≡ (item.0, item.1) ∷ items_of (signs item.2.now)) }
    ensures class_goes_on { IfSome result
        (λ item. tokens_of true (signs text.now) ≡ tokens_of true (signs item.2.now)) }
    ensures shorter { IfSome result (λ item. length item.2.now < length text.now) }
{
    let Some((low, rest)) = first_sign(text) else {
        return None;
    };
    if low.is(']') {
        return None;
    }
    let first = low.code;
    match range_end(rest) {
        Some((last, behind)) => Some((first, last, behind)),
        None => Some((first, first, rest)),
    }
}

/// The last character of a range whose first character is directly before `text`.
fn range_end(text: &str) -> Option<(char, &str)>
    ensures cases { (low : Sign) → is 93 low ≡ false → MatchOption result
        (items_of (low ∷ signs text.now) ≡ (low.code, low.code) ∷ items_of (signs text.now))
        (λ end. items_of (low ∷ signs text.now) ≡ (low.code, end.0) ∷ items_of (signs end.1.now)) }
    ensures class_goes_on { IfSome result
        (λ end. tokens_of true (signs text.now) ≡ tokens_of true (signs end.1.now)) }
    ensures shorter { IfSome result (λ end. length end.1.now < length text.now) }
{
    let Some((dash, rest)) = first_sign(text) else {
        return None;
    };
    let Some((high, behind)) = first_sign(rest) else {
        return None;
    };
    let last = high.code;
    if dash.is('-') && !high.is(']') {
        Some((last, behind))
    } else {
        None
    }
}

ghost use Rattle.std.specs.Prelude.{◌≡◌, ◌+◌, ◌<◌, ◌^◌, ◌∷◌, [], false, length, Option, Some, None, IfOk, IfErr};
ghost use Rattle.glob_paths.specs.Fault.{fault_of, opens, class_fault, sign_fault, signs_fault, part_fault, parts_fault, is_closed, are_bad_items, starts_with_star, is_no_name, some_backwards};
ghost use Rattle.glob_paths.specs.Sign.{signs};
ghost use Rattle.glob_paths.specs.Token.{items_of};
ghost use Rattle.wire_base.specs.Path.{parts_of};

use crate::GlobError;
use crate::class::{behind_caret, first_item};
use crate::parts::first_part;
use crate::sign::{Sign, first_sign};

/// The parts after the first slash of a text without a fault, or its first fault.
pub fn faultless_parts(text: &str) -> Result<&str, GlobError>
    ensures ok { IfOk result (λ parts. text.now ≡ 47 ∷ parts.now) }
    ensures faultless { IfOk result (λ _. fault_of text.now ≡ None) }
    ensures first_fault { IfErr result (λ fault. fault_of text.now ≡ Some fault) }
{
    if text.is_empty() {
        return Err(GlobError::Empty);
    }
    let Some(parts) = text.strip_prefix('/') else {
        return Err(GlobError::NotAbsolute);
    };
    match first_fault(parts, 1) {
        Some(fault) => Err(fault),
        None => Ok(parts),
    }
}

/// The first fault of the parts of a text, which begins at the place `start`.
fn first_fault(text: &str, start: usize) -> Option<GlobError>
    requires { start + length text.now < 2 ^ 64 }
    ensures { result ≡ parts_fault false start (parts_of text.now) }
{
    let mut seen = false;
    let mut at = start;
    let mut rest = text;
    loop {
        let (part, more) = first_part(rest);
        if let Some(fault) = fault_of_part(part, at, seen) {
            return Some(fault);
        }
        let Some(behind) = more else {
            return None;
        };
        seen = seen || part == "**";
        at += part.len() + 1;
        rest = behind;
    }
}

/// The first fault of a part at the place `at`; `seen`: a `**` came before it.
fn fault_of_part(part: &str, at: usize, seen: bool) -> Option<GlobError>
    requires { at + length part.now < 2 ^ 64 }
    ensures { result ≡ part_fault seen at part.now }
{
    if is_no_name(part) {
        return Some(GlobError::BadPart { at });
    }
    if part != "**" {
        return fault_of_signs(part, at);
    }
    if seen {
        Some(GlobError::StarStar { at })
    } else {
        None
    }
}

fn is_no_name(part: &str) -> bool
    ensures { result ≡ is_no_name part.now }
{
    part.is_empty() || part == "." || part == ".."
}

/// The first fault of the signs of a part.
fn fault_of_signs(part: &str, start: usize) -> Option<GlobError>
    requires { start + length part.now < 2 ^ 64 }
    ensures { result ≡ signs_fault false start (signs part.now) }
{
    let mut inside = false;
    let mut at = start;
    let mut rest = part;
    while let Some((sign, behind)) = first_sign(rest) {
        if !inside {
            if let Some(fault) = fault_of_sign(sign, behind, at) {
                return Some(fault);
            }
        }
        inside = goes_inside(inside, sign);
        at += rest.len() - behind.len();
        rest = behind;
    }
    None
}

/// Whether a class is open after the sign.
fn goes_inside(inside: bool, sign: Sign) -> bool
    ensures { result ≡ opens inside sign }
{
    if inside { !sign.is(']') } else { sign.is('[') }
}

/// The fault of a sign outside a class, by the text after it.
fn fault_of_sign(sign: Sign, rest: &str, at: usize) -> Option<GlobError>
    ensures { result ≡ sign_fault at sign (signs rest.now) }
{
    if sign.is('[') {
        return fault_of_class(rest, at);
    }
    if sign.is('\\') {
        return Some(GlobError::Unclosed { at });
    }
    if sign.is('*') && begins_with_star(rest) {
        return Some(GlobError::StarStar { at });
    }
    None
}

fn begins_with_star(text: &str) -> bool
    ensures { result ≡ starts_with_star (signs text.now) }
{
    match first_sign(text) {
        Some((sign, _)) => sign.is('*'),
        None => false,
    }
}

/// The fault of a class whose `[` is at the place `at`, by the text after it.
fn fault_of_class(body: &str, at: usize) -> Option<GlobError>
    ensures { result ≡ class_fault at (signs body.now) }
{
    if !is_closed(body) {
        return Some(GlobError::Unclosed { at });
    }
    let (_, items) = behind_caret(body);
    if has_bad_items(items) {
        Some(GlobError::BadRange { at })
    } else {
        None
    }
}

fn is_closed(body: &str) -> bool
    ensures { result ≡ is_closed (signs body.now) }
{
    let mut rest = body;
    while let Some((sign, behind)) = first_sign(rest) {
        if sign.is(']') {
            return true;
        }
        rest = behind;
    }
    false
}

/// Whether a class has no item, or one that runs backwards.
fn has_bad_items(items: &str) -> bool
    ensures { result ≡ are_bad_items (items_of (signs items.now)) }
{
    match first_item(items) {
        Some((low, high, rest)) => high < low || runs_backwards(rest),
        None => true,
    }
}

fn runs_backwards(items: &str) -> bool
    ensures { result ≡ some_backwards (items_of (signs items.now)) }
{
    let mut rest = items;
    while let Some((low, high, behind)) = first_item(rest) {
        if high < low {
            return true;
        }
        rest = behind;
    }
    false
}

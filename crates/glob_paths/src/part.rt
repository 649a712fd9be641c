ghost use Rattle.std.specs.Prelude.{◌≡◌, ◌<◌, ◌≤◌, ◌∷◌, ◌↔◌, IsTrue, length};
ghost use Rattle.std.specs.Str.{chars};
ghost use Rattle.glob_paths.specs.Token.{tokens, any_run};
ghost use Rattle.glob_paths.specs.Match.{Matches};
ghost use Rattle.glob_paths.specs.Lead.{Leads, IsShorter};

use crate::class::token_after;
use crate::sign::{first_char, first_sign};

/// How far the tokens up to the next `*` match a name.
pub enum Lead<'a> {
    /// They do not.
    No,
    /// There is no `*`, and they match all of it.
    Whole,
    /// They match its front: what follows the `*`, and the rest of the name.
    Star(&'a str, &'a str),
}

/// Whether the text of a part of a glob matches a name. It takes at most as many steps as the
/// lengths of both multiplied.
pub fn part_matches(pattern: &str, name: &str) -> bool
    ensures { IsTrue result ↔ Matches (tokens pattern.now) (chars name.now) }
{
    match try_front(pattern, name) {
        Lead::No => false,
        Lead::Whole => true,
        Lead::Star(behind, left) => star_matches(behind, left),
    }
}

/// Whether a `*` and then the text of a part match a name.
fn star_matches(pattern: &str, name: &str) -> bool
    ensures { IsTrue result ↔ Matches (any_run ∷ tokens pattern.now) (chars name.now) }
{
    let mut pattern = pattern;
    let mut name = name;
    loop {
        match try_front(pattern, name) {
            Lead::Whole => return true,
            Lead::Star(behind, left) => {
                pattern = behind;
                name = left;
            }
            Lead::No => {
                let Some((_, left)) = first_char(name) else {
                    return false;
                };
                name = left;
            }
        }
    }
}

/// Matches the tokens up to the next `*`, from the front of the name on.
fn try_front<'a>(pattern: &'a str, name: &'a str) -> Lead<'a>
    ensures leads { Leads (tokens pattern.now) (chars name.now) result }
    ensures shorter { IsShorter pattern.now name.now result }
{
    let mut pattern = pattern;
    let mut name = name;
    while let Some((sign, rest)) = first_sign(pattern) {
        if sign.is('*') {
            return Lead::Star(rest, name);
        }
        let Some((code, left)) = first_char(name) else {
            return Lead::No;
        };
        let Some(behind) = token_after(sign, rest, code) else {
            return Lead::No;
        };
        pattern = behind;
        name = left;
    }
    match first_char(name) {
        None => Lead::Whole,
        Some(_) => Lead::No,
    }
}

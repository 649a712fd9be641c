ghost use Rattle.std.specs.Prelude.{◌≡◌, ◌+◌, ◌<◌, ◌∷◌, [], ◌≤◌, length, MatchOption, IfSome, IfNone};
ghost use Rattle.std.specs.Char.{len_utf8};
ghost use Rattle.std.specs.Str.{chars};
ghost use Rattle.glob_paths.specs.Sign.{signs, signs_of, is, width};

/// A character of a glob, and whether it has no backslash before it.
#[derive(Clone, Copy)]
pub struct Sign {
    pub code: char,
    pub bare: bool,
}

impl Sign {
    /// Whether it is this character, and no backslash made it a plain one.
    pub fn is(self, code: char) -> bool
        ensures { result ≡ is code self }
    {
        self.bare && self.code == code
    }
}

/// The first character, and the text after it.
pub fn first_char(text: &str) -> Option<(char, &str)>
    ensures none_at_the_end { IfNone result (text.now ≡ []) }
    ensures cases { MatchOption result (chars text.now ≡ []) (λ first. chars text.now ≡ first.0 ∷ chars first.1.now) }
    ensures places { IfSome result (λ first. length text.now ≡ len_utf8 first.0 + length first.1.now) }
    ensures shorter { IfSome result (λ first. length first.1.now < length text.now) }
{
    let mut rest = text.chars();
    match rest.next() {
        Some(code) => Some((code, rest.as_str())),
        None => None,
    }
}

/// The first sign, and the text after it.
pub fn first_sign(text: &str) -> Option<(Sign, &str)>
    ensures none_at_the_end { IfNone result (text.now ≡ []) }
    ensures cases { MatchOption result (signs text.now ≡ []) (λ first. signs text.now ≡ first.0 ∷ signs first.1.now) }
    ensures places { IfSome result (λ first. length text.now ≡ width first.0 + length first.1.now) }
    ensures shorter { IfSome result (λ first. length first.1.now < length text.now) }
{
    let Some((code, rest)) = first_char(text) else {
        return None;
    };
    if code == '\\' {
        return Some(after_backslash(rest));
    }
    Some((Sign { code, bare: true }, rest))
}

/// The sign that a backslash begins, and the text after it.
fn after_backslash(rest: &str) -> (Sign, &str)
    ensures value { signs_of (92 ∷ chars rest.now) ≡ result.0 ∷ signs result.1.now }
    ensures places { 1 + length rest.now ≡ width result.0 + length result.1.now }
    ensures no_longer { length result.1.now ≤ length rest.now }
{
    match first_char(rest) {
        Some((code, behind)) => (Sign { code, bare: false }, behind),
        None => (
            Sign {
                code: '\\',
                bare: true,
            },
            rest,
        ),
    }
}

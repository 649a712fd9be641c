ghost use Rattle.std.specs.Prelude.{◌≡◌};
ghost use Rattle.findings.specs.Globs.{ends_with_star, has_braces, has_mark, is_foreign};

/// Whether a glob has what other tools read otherwise: `{a,b}`, or `[!x]`.
pub(crate) fn is_foreign(text: &[u8]) -> bool
    ensures { result ≡ is_foreign text.now }
{
    has_braces(text) || has_mark(text)
}

fn has_braces(text: &[u8]) -> bool
    ensures { result ≡ has_braces text.now }
{
    text.contains(&b'{') && text.contains(&b'}')
}

/// Whether a class begins with `!`, which is here one of its characters.
fn has_mark(text: &[u8]) -> bool
    ensures { result ≡ has_mark text.now }
{
    let mut left = text;
    'places: while let [_, rest @ ..] = left {
        if left.starts_with(b"[!") {
            return true;
        }
        left = rest;
    }
    false
}

/// Whether a glob ends with a `*`, and so covers every covered name with more at its end.
pub(crate) fn ends_with_star(text: &[u8]) -> bool
    ensures { result ≡ ends_with_star text.now }
{
    text.ends_with(b"*") && !text.ends_with(b"\\*")
}

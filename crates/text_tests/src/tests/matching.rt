use crate::tests::parts::text;
use patterns::*;
use std::alloc::Global;
use std::test::Fail;

/// A text, and whether it is a pattern of lines, and one of texts.
const TEXTS: [(&str, bool, bool); 4] = [
    ("", true, true),
    (
        r"^[[:space:]]+(at|\.{3})[[:space:]]+\b|^Caused by:",
        true,
        true,
    ),
    ("[", false, false),
    ("(?-u)\\xff", true, false),
];

/// The text is a pattern of lines, and one of texts, as is wanted.
fn is_pattern(alloc: Global, text: &str, wanted: (bool, bool)) -> Result<bool, Fail> {
    let of_lines = is_line_pattern(alloc, text)?;
    let of_texts = is_text_pattern(alloc, text)?;
    Ok(of_lines == wanted.0 && of_texts == wanted.1)
}

#[test]
fn texts_are_patterns(rt: HostRuntime) -> Result<(), Fail> {
    for (text, of_lines, of_texts) in &TEXTS {
        assert!(rt;
            is_pattern(rt.alloc(), text, (*of_lines, *of_texts))?,
            "{text}"
        );
    }
    Ok(())
}

/// A pattern in so many groups, one in the other.
fn grouped(alloc: Global, depth: usize) -> Result<String, Fail> {
    let mut text = "(".repeat(alloc, depth)?;
    text.push_str(")".repeat(alloc, depth)?.as_str())?;
    Ok(text)
}

#[test]
fn groups_are_not_too_deep(rt: HostRuntime) -> Result<(), Fail> {
    for (depth, is) in [(250, true), (251, false)] {
        let text = grouped(rt.alloc(), depth)?;
        assert!(rt; is_pattern(rt.alloc(), text.as_str(), (is, is))?, "{depth}");
    }
    Ok(())
}

/// Whether the pattern matches as one of lines.
fn matches_line(alloc: Global, pattern: &str, line: &[u8]) -> Result<bool, Fail> {
    let pattern = text(alloc, pattern)?;
    if !is_line_pattern(alloc, pattern.as_str())? {
        return Err("no pattern of lines".into());
    }
    Ok(LinePattern::new(alloc, &pattern)?.matches(alloc, line)?)
}

/// Whether the pattern matches as one of texts.
fn matches_text(alloc: Global, pattern: &str, chars: &str) -> Result<bool, Fail> {
    let pattern = text(alloc, pattern)?;
    if !is_text_pattern(alloc, pattern.as_str())? {
        return Err("no pattern of texts".into());
    }
    Ok(TextPattern::new(alloc, &pattern)?.matches(alloc, chars)?)
}

/// A pattern and a text, and whether it matches as one of lines, and as one of texts.
const MATCHES: [(&str, &str, bool, bool); 6] = [
    (r"^\[", "[1", true, true),
    (r"^\[", " [", false, false),
    ("é$", "né", true, true),
    // Found before, after and inside of a character.
    ("^|x", "é", true, true),
    ("$|x", "é", true, true),
    (r"(?-u:\B)", "aéa", true, false),
];

#[test]
fn patterns_match(rt: HostRuntime) -> Result<(), Fail> {
    for (pattern, chars, of_lines, of_texts) in &MATCHES {
        assert!(rt;
            matches_line(rt.alloc(), pattern, chars.as_bytes())? == *of_lines,
            "{pattern}"
        );
        assert!(rt;
            matches_text(rt.alloc(), pattern, chars)? == *of_texts,
            "{pattern}"
        );
    }
    Ok(())
}

#[test]
fn bytes_that_are_no_text(rt: HostRuntime) -> Result<(), Fail> {
    for (pattern, found) in [("a.c", false), ("(?-u)a.c", true)] {
        assert!(rt;
            matches_line(rt.alloc(), pattern, b"a\xffc")? == found,
            "{pattern}"
        );
    }
    Ok(())
}

use crate::tests::parts::text;
use glob_paths::*;
use std::alloc::Global;
use std::process::Abort;
use std::test::Fail;

/// A glob, a path, and whether the one covers the other.
type Row = (&'static str, &'static [u8], bool);

const WORKED: [Row; 5] = [
    ("/var/log/*.log", b"/var/log/a.log", true),
    ("/var/log/*.log", b"/var/log/x/a.log", false),
    ("/l/**/a", b"/l/a", true),
    ("/l/**/a", b"/l/1/2/3/4/5/6/7/8/a", true),
    ("/l/**/a", b"/l/1/2/3/4/5/6/7/8/9/a", false),
];

const RUNS: [Row; 34] = [
    ("/var/log/*.log", b"/var/log/.log", true),
    ("/var/log/*.log", b"/var/log/a.logs", false),
    ("/var/log/*.log", b"var/log/a.log", false),
    ("/var/log/*.log", b"/var/log/", false),
    ("/a", b"/a", true),
    ("/a", b"/a/", false),
    ("/a", b"/A", false),
    ("/a", b"", false),
    ("/a", b"a", false),
    ("/a/*", b"/a/", true),
    ("/a/*", b"/a", false),
    ("/a/*/c", b"/a//c", true),
    ("/a/*/c", b"/a/b/b/c", false),
    ("/*a*a*b", b"/aab", true),
    ("/*a*a*b", b"/xaxaxb", true),
    ("/*a*a*b", b"/ab", false),
    ("/*a*a*a*a*a*b", b"/aaaaaaaaaaaaaaaaaaaaaaaaaaaaaaaa", false),
    ("/a*b*c", b"/abcbc", true),
    ("/a*bc", b"/abbbc", true),
    ("/a*bc", b"/abcb", false),
    ("/l/**", b"/l", true),
    ("/l/**", b"/l/1/2/3/4/5/6/7/8", true),
    ("/l/**", b"/l/1/2/3/4/5/6/7/8/9", false),
    ("/l/**", b"/l/", false),
    ("/l/**/a", b"/l//a", false),
    ("/l/**/a", b"/l/x/b", false),
    ("/**/a", b"/a", true),
    ("/**/*.log", b"/x/y/a.log", true),
    ("/*", b"/\xff", false),
    ("/**", b"/a/\xc3", false),
    ("/[^a]", b"/\xed\xa0\x80", false),
    ("/*", b"/\xc3\xa9", true),
    ("/**", b"", false),
    ("/**", b"/", false),
];

const CHARACTERS: [Row; 49] = [
    ("/a?", b"/ab", true),
    ("/a?", b"/a", false),
    ("/a?", b"/abc", false),
    ("/a?b", b"/a/b", false),
    ("/?", b"/\xc3\xa9", true),
    ("/??", b"/\xc3\xa9", false),
    ("/?", b"/\xe2\x82\xac", true),
    ("/?", b"/\xf0\x9d\x84\x9e", true),
    ("/[ab]", b"/a", true),
    ("/[ab]", b"/c", false),
    ("/[ab]", b"/ab", false),
    ("/[a-c]", b"/b", true),
    ("/[a-c]", b"/-", false),
    ("/[-a]", b"/-", true),
    ("/[-a]", b"/a", true),
    ("/[-a]", b"/b", false),
    ("/[a-]", b"/-", true),
    ("/[a-]", b"/b", false),
    ("/[a-c-e]", b"/d", false),
    ("/[a-c-e]", b"/-", true),
    ("/[a-c-e]", b"/e", true),
    ("/[^a]", b"/b", true),
    ("/[^a]", b"/a", false),
    ("/[^a]", b"/", false),
    ("/x[^a]y", b"/x/y", false),
    ("/x[.-0]y", b"/x/y", false),
    ("/[a^]", b"/^", true),
    ("/[^^]", b"/^", false),
    ("/[^^]", b"/a", true),
    ("/[\\]]", b"/]", true),
    ("/[\\]]", b"/\\", false),
    ("/[a\\]b]", b"/b", true),
    ("/[a]]", b"/a]", true),
    ("/[a]]", b"/a", false),
    ("/]", b"/]", true),
    ("/\\[a\\]", b"/[a]", true),
    ("/\\[a\\]", b"/a", false),
    ("/\\*", b"/*", true),
    ("/\\*", b"/a", false),
    ("/a\\**", b"/a*x", true),
    ("/a\\**", b"/ax", false),
    ("/\\\\", b"/\\", true),
    ("/[**]", b"/*", true),
    ("/[[]", b"/[", true),
    ("/[\u{e0}-\u{e9}]", b"/\xc3\xa8", true),
    ("/[\u{e0}-\u{e9}]", b"/\xc3\xaa", false),
    ("/[a\\-c]", b"/b", false),
    ("/[\\a-c]", b"/b", true),
    ("/[+--]", b"/,", true),
];

/// The glob of the pattern, which has no fault.
fn glob(alloc: Global, pattern: &str) -> Result<Glob, Fail> {
    Ok(Glob::read(alloc, &text(alloc, pattern)?)?)
}

/// Each glob covers its path, or does not, as its row says.
fn check_rows(rt: &impl Abort, alloc: Global, rows: &[Row]) -> Result<(), Fail> {
    for (pattern, path, covered) in rows {
        let glob = glob(alloc, pattern)?;
        assert!(rt; glob.covers(path) == *covered, "{pattern}");
    }
    Ok(())
}

#[test]
fn glob_covers(rt: HostRuntime) -> Result<(), Fail> {
    check_rows(&rt, rt.alloc(), &WORKED)
}

#[test]
fn runs_and_parts_are_covered(rt: HostRuntime) -> Result<(), Fail> {
    check_rows(&rt, rt.alloc(), &RUNS)
}

#[test]
fn characters_and_classes_are_covered(rt: HostRuntime) -> Result<(), Fail> {
    check_rows(&rt, rt.alloc(), &CHARACTERS)
}

const REFUSALS: [(&str, GlobError); 35] = [
    ("", GlobError::Empty),
    ("a", GlobError::NotAbsolute),
    ("*/a", GlobError::NotAbsolute),
    ("\u{e9}", GlobError::NotAbsolute),
    ("/", GlobError::BadPart { at: 1 }),
    ("//", GlobError::BadPart { at: 1 }),
    ("/a/", GlobError::BadPart { at: 3 }),
    ("/a//b", GlobError::BadPart { at: 3 }),
    ("/.", GlobError::BadPart { at: 1 }),
    ("/a/..", GlobError::BadPart { at: 3 }),
    ("/\u{e9}/.", GlobError::BadPart { at: 4 }),
    ("/x/../[a", GlobError::BadPart { at: 3 }),
    ("/[a", GlobError::Unclosed { at: 1 }),
    ("/a[b/c]", GlobError::Unclosed { at: 2 }),
    ("/[a\\/b]", GlobError::Unclosed { at: 1 }),
    ("/[a\\]", GlobError::Unclosed { at: 1 }),
    ("/a\\", GlobError::Unclosed { at: 2 }),
    ("/a\\/b", GlobError::Unclosed { at: 2 }),
    ("/\u{e9}\\", GlobError::Unclosed { at: 3 }),
    ("/[a/**/**", GlobError::Unclosed { at: 1 }),
    ("/[]", GlobError::BadRange { at: 1 }),
    ("/[]a]", GlobError::BadRange { at: 1 }),
    ("/[^]", GlobError::BadRange { at: 1 }),
    ("/a/[z-a]", GlobError::BadRange { at: 3 }),
    ("/\u{e9}[b-a]", GlobError::BadRange { at: 3 }),
    ("/[a-c-b-a]", GlobError::BadRange { at: 1 }),
    ("/a**", GlobError::StarStar { at: 2 }),
    ("/**a", GlobError::StarStar { at: 1 }),
    ("/***", GlobError::StarStar { at: 1 }),
    ("/**/**", GlobError::StarStar { at: 4 }),
    ("/a/**/b/**", GlobError::StarStar { at: 8 }),
    ("/\\***", GlobError::StarStar { at: 3 }),
    ("/[a]**", GlobError::StarStar { at: 4 }),
    ("/*[*]**", GlobError::StarStar { at: 5 }),
    ("/a**/[b", GlobError::StarStar { at: 2 }),
];

#[test]
fn refusals_tell_their_places(rt: HostRuntime) -> Result<(), Fail> {
    for (pattern, refusal) in &REFUSALS {
        let text = text(rt.alloc(), pattern)?;
        let found = Glob::read(rt.alloc(), &text).err();
        assert!(rt; found == Some(*refusal), "{pattern}");
    }
    Ok(())
}

/// A glob, the folder to list and how deep.
const LISTED: [(&str, &str, u32); 7] = [
    ("/var/log/*.log", "/var/log", 1),
    ("/a", "/", 1),
    ("/a/b", "/a", 1),
    ("/*/b", "/", 2),
    ("/l/**/a", "/l", 9),
    ("/a\\b/c", "/", 2),
    ("/a/b]/c?/d/[e]", "/a/b]", 3),
];

#[test]
fn a_glob_tells_what_to_list(rt: HostRuntime) -> Result<(), Fail> {
    for (pattern, root, depth) in &LISTED {
        let glob = glob(rt.alloc(), pattern)?;
        assert!(rt;
            glob.root().as_str() == *root && glob.depth() == *depth,
            "{pattern}"
        );
    }
    Ok(())
}

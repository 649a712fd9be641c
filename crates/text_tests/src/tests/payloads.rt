ghost use Rattle.wire_base.specs.Ranges.{IsMoment};

use crate::tests::parts::{Leaf, push, set, set_leaves, text};
use event_json::{envelope, event_payload, payload};
use event_tree::{FieldPath, Fields, Tree, Trees};
use std::alloc::Global;
use std::test::Fail;
use wire_base::{Blob, MAX_MOMENT, Moment};

/// The tree has this text at the path.
fn has_text(alloc: Global, tree: &Tree, path: &str, wanted: &str) -> Result<bool, Fail> {
    let path = FieldPath::read(alloc, &text(alloc, path)?)?;
    Ok(match tree.get(&path) {
        Some(Tree::Str(found)) => found.bytes() == wanted.as_bytes(),
        _ => false,
    })
}

/// The tree of the event of a line at the place 0.
fn event(alloc: Global, path: &str, message: &[u8], moment: u64) -> Result<Tree, Fail>
    requires { IsMoment (record { 0 = moment }) }
{
    let path = text(alloc, path)?;
    Ok(envelope(alloc, &path, 0, message, Moment(moment))?)
}

/// The payload that is made of the line at the place 0 with no tree.
fn direct(alloc: Global, path: &str, message: &[u8]) -> Result<Option<Blob>, Fail> {
    let path = text(alloc, path)?;
    Ok(event_payload(alloc, &path, 0, message, Moment(0))?)
}

/// There is a payload, and it is this.
fn is_spelled(payload: &Option<Blob>, wanted: &str) -> bool {
    match payload {
        Some(blob) => blob.bytes() == wanted.as_bytes(),
        None => false,
    }
}

const FIRST: &str =
    "{\"@timestamp\":\"1970-01-01T00:00:00.000Z\",\"input\":{\"type\":\"filestream\"},\
    \"log\":{\"file\":{\"path\":\"/w/a.log\"},\"offset\":0},\"message\":\"a\"}";

#[test]
fn two_plain_lines(rt: HostRuntime) -> Result<(), Fail> {
    let tree = event(rt.alloc(), "/w/a.log", b"a", 0)?;
    assert!(rt; FIRST.len() == 131);
    assert!(rt; is_spelled(&payload(rt.alloc(), &tree)?, FIRST));
    assert!(rt; is_spelled(&direct(rt.alloc(), "/w/a.log", b"a")?, FIRST));
    Ok(())
}

/// A message, and its text. The first three and the fifth are tables 3-8 to 3-11 of the Unicode Standard.
const REPLACED: [(&[u8], &str); 7] = [
    (
        b"\xc0\xaf\xe0\x80\xbf\xf0\x81\x82A",
        "\u{fffd}\u{fffd}\u{fffd}\u{fffd}\u{fffd}\u{fffd}\u{fffd}\u{fffd}A",
    ),
    (
        b"\xed\xa0\x80\xed\xbf\xbf\xed\xafA",
        "\u{fffd}\u{fffd}\u{fffd}\u{fffd}\u{fffd}\u{fffd}\u{fffd}\u{fffd}A",
    ),
    (
        b"\xf4\x91\x92\x93\xffA\x80\xbfB",
        "\u{fffd}\u{fffd}\u{fffd}\u{fffd}\u{fffd}A\u{fffd}\u{fffd}B",
    ),
    (
        b"\xe1\x80\xe2\xf0\x91\x92\xf1\xbfA",
        "\u{fffd}\u{fffd}\u{fffd}\u{fffd}A",
    ),
    (b"a\xffb", "a\u{fffd}b"),
    (b"\xf0\x9f\x98", "\u{fffd}"),
    (
        b"\xc3\xa9\xe2\x82\xac\xf0\x9f\x98\x80",
        "\u{e9}\u{20ac}\u{1f600}",
    ),
];

#[test]
fn invalid_utf8_is_replaced(rt: HostRuntime) -> Result<(), Fail> {
    for (message, replaced) in &REPLACED {
        let tree = event(rt.alloc(), "/w", message, 0)?;
        assert!(rt;
            has_text(rt.alloc(), &tree, "message", replaced)?,
            "{replaced}"
        );
        let whole = payload(rt.alloc(), &tree)?;
        assert!(rt;
            whole.is_some() && whole == direct(rt.alloc(), "/w", message)?,
            "{replaced}"
        );
    }
    Ok(())
}

const DATES: [(u64, &str); 5] = [
    (0, "1970-01-01T00:00:00.000Z"),
    (951_782_400_000, "2000-02-29T00:00:00.000Z"),
    (1_700_000_000_123, "2023-11-14T22:13:20.123Z"),
    (4_107_542_399_007, "2100-02-28T23:59:59.007Z"),
    (MAX_MOMENT, "9892-03-08T12:26:40.000Z"),
];

#[test]
fn moments_are_dates(rt: HostRuntime) -> Result<(), Fail> {
    for (moment, date) in DATES {
        assert!(rt; moment <= MAX_MOMENT);
        let tree = event(rt.alloc(), "/w", b"", moment)?;
        assert!(rt; has_text(rt.alloc(), &tree, "@timestamp", date)?, "{date}");
    }
    Ok(())
}

const EVERY_ESCAPE: &str = "\x00\x01\x02\x03\x04\x05\x06\x07\x08\x09\x0a\x0b\x0c\x0d\x0e\x0f\
    \x10\x11\x12\x13\x14\x15\x16\x17\x18\x19\x1a\x1b\x1c\x1d\x1e\x1f\"\\/\x7f\u{e9}\u{2028}\u{1f600}";

const EVERY_KIND: &str = "{\"\":null,\"\\\"\":\"k\",\"a\":true,\"b\":false,\
    \"c\":[0,-9223372036854775808,9223372036854775807,[],{}],\
    \"d\":\"\\u0000\\u0001\\u0002\\u0003\\u0004\\u0005\\u0006\\u0007\\b\\t\\n\\u000b\\f\\r\\u000e\\u000f\
    \\u0010\\u0011\\u0012\\u0013\\u0014\\u0015\\u0016\\u0017\\u0018\\u0019\\u001a\\u001b\\u001c\\u001d\\u001e\\u001f\
    \\\"\\\\/\x7f\u{e9}\u{2028}\u{1f600}\",\"\u{e9}\":{\"x\":\"y\"}}";

/// Two maps and a list in a map, with a value of each kind.
fn every_kind(alloc: Global) -> Result<Fields, Fail> {
    let mut list = Trees::new(alloc);
    for number in [0, i64::MIN, i64::MAX] {
        push(&mut list, Tree::Int(number))?;
    }
    push(&mut list, Tree::List(Trees::new(alloc)))?;
    push(&mut list, Tree::Map(Fields::new(alloc)))?;
    let mut last = Fields::new(alloc);
    set_leaves(alloc, &mut last, &[("x", Leaf::Str("y"))])?;
    let mut fields = Fields::new(alloc);
    set(alloc, &mut fields, "\u{e9}", Tree::Map(last))?;
    set(alloc, &mut fields, "c", Tree::List(list))?;
    set_leaves(alloc, &mut fields, &LEAVES)?;
    Ok(fields)
}

const LEAVES: [(&str, Leaf); 5] = [
    ("d", Leaf::Str(EVERY_ESCAPE)),
    ("b", Leaf::Flag(false)),
    ("a", Leaf::Flag(true)),
    ("\"", Leaf::Str("k")),
    ("", Leaf::Null),
];

#[test]
fn every_kind_and_every_escape_is_spelled(rt: HostRuntime) -> Result<(), Fail> {
    let tree = Tree::Map(every_kind(rt.alloc())?);
    assert!(rt; is_spelled(&payload(rt.alloc(), &tree)?, EVERY_KIND));
    Ok(())
}

ghost use Rattle.std.specs.Prelude.{IfOk};
ghost use Rattle.wire_base.specs.Ranges.{IsOp};

use crate::tests::registry::{AT_4, CHANGED, Line, setting};
use registry_frame::{BodyError, body, read_body};
use std::alloc::Global;
use std::process::Abort;
use std::test::Fail;
use wire_base::{MAX_KEY, MAX_MOMENT, MAX_PLACE, Op, Text};

const PLAIN_BODY: &[u8] =
    b"[{\"epoch\":0,\"key\":\"filestream::w::path::/w/a.log\",\"offset\":4,\"op\":\"set\",\"path\":\"/w/a.log\"}]";

const CHANGED_BODY: &[u8] =
    b"[{\"changed\":5,\"epoch\":0,\"key\":\"filestream::w::path::/w/a.log\",\"offset\":6,\"op\":\"set\",\"path\":\"/w/a.log\"}]";

const ESCAPED_BODY: &[u8] =
    b"[{\"changed\":250000000000000,\"epoch\":4294967295,\"key\":\"k\",\"offset\":9223372036854775807,\"op\":\"set\",\"path\":\"/\\\"\\\\\\u0001\\u001f\\n\\t\x7f\xc3\xa9\"}]";

fn removing(rt: &impl Abort, alloc: Global, key: &[u8]) -> Result<Op, Fail>
    ensures { IfOk result IsOp }
{
    assert!(rt; key.len() <= MAX_KEY);
    Ok(Op::Remove(Text::from_bytes(alloc, key)?))
}

/// Its texts have a character of each kind that is escaped, and its numbers are the greatest.
const ESCAPED: Line<'static> = Line {
    key: b"k",
    path: b"/\"\\\x01\x1f\n\t\x7f\xc3\xa9",
    epoch: u32::MAX,
    offset: MAX_PLACE,
    changed: MAX_MOMENT,
};

/// The body of only this operation is this.
fn check(rt: &impl Abort, alloc: Global, op: Op, wanted: &[u8]) -> Result<(), Fail>
    requires { IsOp op }
{
    let ops = [op];
    assert_eq!(rt; body(alloc, &ops)?.bytes(), wanted);
    Ok(())
}

const BODIES: [(Line<'static>, &[u8]); 3] = [
    (AT_4, PLAIN_BODY),
    (CHANGED, CHANGED_BODY),
    (ESCAPED, ESCAPED_BODY),
];

#[test]
fn bodies_have_one_spelling(rt: HostRuntime) -> Result<(), Fail> {
    let alloc = rt.alloc();
    for (line, wanted) in &BODIES {
        check(&rt, alloc, setting(&rt, alloc, *line)?, wanted)?;
    }
    let removed = removing(&rt, alloc, b"a\"b")?;
    check(
        &rt,
        alloc,
        removed,
        b"[{\"key\":\"a\\\"b\",\"op\":\"remove\"}]",
    )
}

const READ: &[&[u8]] = &[
    b"[{\"epoch\":0,\"key\":\"k\",\"offset\":4,\"op\":\"set\",\"path\":\"/w/a.log\"}]",
    b"[{\"changed\":250000000000000,\"epoch\":4294967295,\"key\":\"k\",\"offset\":9223372036854775807,\"op\":\"set\",\"path\":\"\\\"\\\\\\u0001\\n\x7f\xc3\xa9\"},{\"key\":\"a\\\"b\",\"op\":\"remove\"}]",
    b"[{\"key\":\"\",\"op\":\"remove\"}]",
];

#[test]
fn bodies_are_read_in_their_one_spelling(rt: HostRuntime) -> Result<(), Fail> {
    let alloc = rt.alloc();
    for bytes in READ {
        let ops = read_body(alloc, bytes)?;
        assert!(rt; ops.len() > 0);
        assert_eq!(rt; body(alloc, &ops)?.bytes(), *bytes);
    }
    Ok(())
}

const OTHERS: &[&[u8]] = &[
    b"",
    b"[]",
    b"[{\"key\":\"k\",\"op\":\"remove\"}",
    b"[{\"key\":\"k\",\"op\":\"remove\"}] ",
    b"[{\"key\":\"k\", \"op\":\"remove\"}]",
    b"[{\"op\":\"remove\",\"key\":\"k\"}]",
    b"[{\"key\":\"\\u006b\",\"op\":\"remove\"}]",
    b"[{\"key\":\"\xff\",\"op\":\"remove\"}]",
    b"[{\"changed\":0,\"epoch\":0,\"key\":\"k\",\"offset\":4,\"op\":\"set\",\"path\":\"/\"}]",
    b"[{\"epoch\":4294967296,\"key\":\"k\",\"offset\":4,\"op\":\"set\",\"path\":\"/\"}]",
    b"[{\"epoch\":0,\"key\":\"k\",\"offset\":9223372036854775808,\"op\":\"set\",\"path\":\"/\"}]",
    b"[{\"epoch\":0,\"key\":\"k\",\"offset\":04,\"op\":\"set\",\"path\":\"/\"}]",
];

#[test]
fn other_spellings_are_no_body(rt: HostRuntime) -> Result<(), Fail> {
    let alloc = rt.alloc();
    for bytes in OTHERS {
        assert_eq!(rt; read_body(alloc, bytes).err(), Some(BodyError::NotABody));
    }
    Ok(())
}

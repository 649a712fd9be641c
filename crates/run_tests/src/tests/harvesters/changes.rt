ghost use Rattle.file_identity.specs.Answers.{IsAskable};

use crate::tests::harvesters::rules::{Group, KEY, LIMIT, begin, input};
use crate::tests::harvesters::tail::Look;
use crate::tests::harvesters::told::told;
use event_tree::IdentityRule;
use std::test::Fail;

const TURNS: u32 = 6;

/// The key of another path.
const OTHER_KEY: &str = "filestream::w::path::/b";

/// A file, the most bytes of its messages, what the looks at it find, the last one for good, and what six turns report.
struct Case {
    name: &'static str,
    group: Group,
    epoch: u32,
    limit: u64,
    script: &'static [Look<'static>],
    told: &'static [u8],
}

const EMPTY: Look = Look::Holds(b"");

const ONE: Look = Look::Holds(b"a\n");

const TWO: Look = Look::Holds(b"a\nb\n");

const MORE: Look = Look::Holds(b"a\nb\nc\n");

const HEAD: Look = Look::Holds(b"a\nbc");

const SHORT: Look = Look::Holds(b"a\nb");

const WHOLE: Look = Look::Holds(b"a\nbcd\n");

const ANEW: Look = Look::Holds(b"d\n");

const GROWN: Look = Look::Holds(b"d\ne\n");

const CASES: &[Case] = &[
    Case {
        name: "unterminated_rest_waits",
        group: Group::Single,
        epoch: 0,
        limit: LIMIT,
        script: &[SHORT, SHORT, TWO],
        told: b"0-2 /a a;2-4 /a b;end;end;end;end;",
    },
    Case {
        name: "longest_head",
        group: Group::Single,
        epoch: 0,
        limit: 4,
        script: &[Look::Holds(b"abcd\nabcde\n")],
        told: b"0-5 /a abcd;5-11 /a abcd;end;end;end;end;",
    },
    Case {
        name: "truncated before the length",
        group: Group::Single,
        epoch: 0,
        limit: LIMIT,
        script: &[TWO, TWO, EMPTY, ANEW],
        told: b"0-2 /a a;2-4 /a b;life 1;0-2 /a d;end;end;",
    },
    Case {
        name: "truncated between the length and the read",
        group: Group::Single,
        epoch: 0,
        limit: LIMIT,
        script: &[TWO, TWO, MORE, ANEW],
        told: b"0-2 /a a;2-4 /a b;end;life 1;0-2 /a d;end;",
    },
    Case {
        name: "truncated below what waits",
        group: Group::Single,
        epoch: 0,
        limit: LIMIT,
        script: &[HEAD, HEAD, SHORT],
        told: b"0-2 /a a;life 1;0-2 /a a;end;end;end;",
    },
    Case {
        name: "the last epoch is over",
        group: Group::Single,
        epoch: 4_294_967_295,
        limit: LIMIT,
        script: &[TWO, TWO, ANEW],
        told: b"0-2 /a a;2-4 /a b;out;no more;",
    },
    Case {
        name: "the length and then a read fail in the middle of a line",
        group: Group::Single,
        epoch: 0,
        limit: LIMIT,
        script: &[HEAD, HEAD, Look::Fails, WHOLE, Look::Fails, WHOLE],
        told: b"0-2 /a a;fault;fault;2-6 /a bcd;end;end;",
    },
    Case {
        name: "the same in the middle of an event",
        group: Group::Two,
        epoch: 0,
        limit: LIMIT,
        script: &[ONE, ONE, Look::Fails, TWO, Look::Fails, TWO],
        told: b"more;fault;fault;0-4 /a a\\nb;end;end;",
    },
    Case {
        name: "an event that waits is forgotten as a new life begins",
        group: Group::Two,
        epoch: 0,
        limit: LIMIT,
        script: &[MORE, MORE, ANEW, ANEW, ANEW, GROWN],
        told: b"0-4 /a a\\nb;life 1;more;0-4 /a d\\ne;end;end;",
    },
];

#[test]
fn lives_and_faults(rt: HostRuntime) -> Result<(), Fail> {
    let alloc = rt.alloc();
    for case in CASES {
        assert!(rt; 1 <= case.limit && case.limit <= LIMIT);
        let rule = input(alloc, IdentityRule::Path, case.group, case.limit)?;
        let begin = begin(alloc, 7, KEY, case.epoch)?;
        let written = told(alloc, &rule, begin, case.script, TURNS, false)?;
        assert!(rt; written.as_slice() == case.told, "{}", case.name);
    }
    Ok(())
}

/// Whether files are known by their first bytes, or by their paths.
fn identity(by_bytes: bool) -> IdentityRule
    ensures { IsAskable result }
{
    if by_bytes {
        IdentityRule::Fingerprint {
            offset: 0,
            length: 64,
        }
    } else {
        IdentityRule::Path
    }
}

/// What is reported of a file that is replaced by one of another key.
const ANOTHER_KEY: &[u8] = b"0-2 /a a;2-4 /a b;changed;no more;";

/// Replaced by a file of another path's key, and by one that is too small for any.
const OF_ANOTHER_KEY: [(bool, &str); 2] = [(false, OTHER_KEY), (true, KEY)];

#[test]
fn file_of_another_key(rt: HostRuntime) -> Result<(), Fail> {
    let alloc = rt.alloc();
    for (by_bytes, key) in &OF_ANOTHER_KEY {
        assert!(rt; key.len() <= 8_192);
        let rule = input(alloc, identity(*by_bytes), Group::Single, LIMIT)?;
        let begin = begin(alloc, 7, key, 0)?;
        let written = told(alloc, &rule, begin, &[TWO, TWO, ANEW], TURNS, false)?;
        assert!(rt; written.as_slice() == ANOTHER_KEY);
    }
    Ok(())
}

ghost use Rattle.std.specs.Prelude.{◌<◌};
ghost use Rattle.file_identity.specs.Answers.{IsAskable};

use event_tree::IdentityRule;
use file_identity::{Identity, IdentityError, listed_key, opened_key};
use outside::{Entry, Failed, Tail};
use std::alloc::Global;
use std::test::Fail;
use wire_base::{Moment, Text};

/// An open file of these bytes, of which nothing is known, and which gives at most this many bytes a read.
#[derive(Drop)]
struct BytesTail {
    bytes: Vec<u8>,
    most: usize,
    native: Option<(u64, u64)>,
    reads: u64,
    /// The number of the read that fails.
    failing: u64,
    faults: u64,
}

impl BytesTail {
    fn new(bytes: Vec<u8>, most: usize) -> BytesTail {
        BytesTail {
            bytes,
            most,
            native: None,
            reads: 0,
            failing: u64::MAX,
            faults: 0,
        }
    }
}

impl Tail for BytesTail {
    ghost use Rattle.std.specs.Prelude.{None};

    ghost told = { λ _. None };

    ghost numbers = { λ t. t.native };

    ghost faults = { λ t. t.faults };

    fn native(&self) -> Option<(u64, u64)> {
        self.native
    }

    fn length(&mut self) -> Result<u64, Failed> {
        Ok(0)
    }

    fn read_at(&mut self, at: u64, into: &mut [u8]) -> Result<usize, Failed> {
        let number = self.reads;
        self.reads = number.saturating_add(1);
        if number == self.failing {
            self.faults = self.faults.saturating_add(1);
            return Err(Failed);
        }
        if at >= 1 << 32 {
            return Ok(0);
        }
        let start = (at as usize).min(self.bytes.len());
        let rest = &self.bytes[start..];
        let count = rest.len().min(into.len()).min(self.most).min(16_384);
        into[..count].copy_from_slice(&rest[..count]);
        Ok(count)
    }
}

pub const LETTERS: &str =
    "abcdefghbcdefghicdefghijdefghijkefghijklfghijklmghijklmnhijklmnoijklmnopjklmnopqklmnopqrlmnopqrsmnopqrstnopqrstu";

/// What an open file of the input `w` answers.
fn opened(
    alloc: Global,
    rule: &IdentityRule,
    tail: &mut BytesTail,
) -> Result<Identity, IdentityError>
    requires { IsAskable rule.now }
{
    let input = Text::from_string(String::from_str(alloc, "w")?);
    let path = Text::from_string(String::from_str(alloc, "/w/a.log")?);
    opened_key(alloc, &input, rule, &path, tail)
}

/// What an open file of these bytes answers if this many of them, one at least, are asked for.
fn printed(alloc: Global, bytes: Vec<u8>, most: usize, length: u32) -> Result<Identity, Fail>
    requires { 0 < length }
{
    let mut tail = BytesTail::new(bytes, most);
    let rule = IdentityRule::Fingerprint {
        offset: 0,
        length: length as u64,
    };
    Ok(opened(alloc, &rule, &mut tail)?)
}

/// The key that is answered, and none if the file is too short.
fn key_of(answer: &Identity) -> &str {
    match answer {
        Identity::Key(key) => key.as_str(),
        Identity::TooSmall(_) => "",
    }
}

/// The first bytes of the letters, as many as these, of a fingerprint of 112.
fn letters(alloc: Global, count: usize, most: usize) -> Result<Identity, Fail> {
    let mut bytes = LETTERS.as_bytes().to_vec(alloc)?;
    bytes.truncate(count);
    printed(alloc, bytes, most, 112)
}

pub const LETTERS_KEY: &str =
    "filestream::w::fingerprint::cf5b16a778af8380036ce59e7b0492370b249b11e8f07a51afac45037afee9d1";

#[test]
fn fingerprint_key(rt: HostRuntime) -> Result<(), Fail> {
    for most in &[16_384, 1] {
        let found = letters(rt.alloc(), 112, *most)?;
        assert!(rt; key_of(&found) == LETTERS_KEY, "{most} bytes a read");
    }
    let found = letters(rt.alloc(), 111, 7)?;
    assert!(rt; matches!(found, Identity::TooSmall(111)));
    Ok(())
}

/// A byte, how often it is in the file, and the digest of the file. Digests of FIPS 180-4's
/// examples and of those that NIST added to them.
const DIGESTS: [(u8, u32, &str); 5] = [
    (
        0,
        64,
        "f5a5fd42d16a20302798ef6ed309979b43003d2320d9f0e8ea9831a92759fb4b",
    ),
    (
        b'A',
        1_000,
        "c2e686823489ced2017f6059b8b239318b6364f6dcd835d0a519105a1eadd6e4",
    ),
    (
        0,
        1_000,
        "541b3e9daa09b20bf85fa273e5cbd3e80185aa4ec298e765db87742b70138a53",
    ),
    (
        b'U',
        1_005,
        "f4d62ddec0f3dd90ea1380fa16a5ff8dc4c54b21740650f24afc4120903552b0",
    ),
    (
        b'a',
        1_000_000,
        "cdc76e5c9914fb9281a1c7e284d73e67f1809a48a497200e046d39ccc7112cd0",
    ),
];

#[test]
fn digests_of_longer_messages(rt: HostRuntime) -> Result<(), Fail> {
    for (byte, count, digest) in &DIGESTS {
        assert!(rt; 0 < *count);
        let bytes = vec![in rt.alloc(); *byte; *count as usize]?;
        let found = printed(rt.alloc(), bytes, 16_384, *count)?;
        let found = key_of(&found).strip_prefix("filestream::w::fingerprint::");
        assert!(rt; found == Some(*digest), "{count} times {byte}");
    }
    Ok(())
}

/// What a listed file of the input `w` with these numbers answers.
fn listed(
    alloc: Global,
    rule: &IdentityRule,
    native: Option<(u64, u64)>,
) -> Result<Option<Text>, IdentityError> {
    let input = Text::from_string(String::from_str(alloc, "w")?);
    let entry = Entry {
        path: Text::from_string(String::from_str(alloc, "/w/a.log")?),
        size: 4,
        native,
        changed: Moment(0),
    };
    listed_key(alloc, &input, rule, &entry)
}

/// A rule, the numbers of a listed file, and its key.
const LISTED: [(
    IdentityRule,
    Option<(u64, u64)>,
    Result<Option<&str>, IdentityError>,
); 4] = [
    (IdentityRule::Native, None, Err(IdentityError::NoNative)),
    (
        IdentityRule::Native,
        Some((7, 1)),
        Ok(Some("filestream::w::native::7-1")),
    ),
    (
        IdentityRule::Path,
        Some((7, 1)),
        Ok(Some("filestream::w::path::/w/a.log")),
    ),
    (
        IdentityRule::Fingerprint {
            offset: 2,
            length: 64,
        },
        Some((7, 1)),
        Ok(None),
    ),
];

/// The answer is this.
fn is_listed(
    found: &Result<Option<Text>, IdentityError>,
    wanted: &Result<Option<&str>, IdentityError>,
) -> bool {
    match found {
        Ok(key) => *wanted == Ok(key.as_ref().map(|key| key.as_str())),
        Err(error) => *wanted == Err(*error),
    }
}

#[test]
fn native_without_numbers(rt: HostRuntime) -> Result<(), Fail> {
    for (rule, native, wanted) in &LISTED {
        let found = listed(rt.alloc(), rule, *native);
        assert!(rt; is_listed(&found, wanted));
    }
    let mut tail = BytesTail::new(Vec::new(rt.alloc()), 1);
    let refused = opened(rt.alloc(), &IdentityRule::Native, &mut tail);
    assert!(rt; matches!(refused, Err(IdentityError::NoNative)));
    tail.native = Some((8, 1));
    let found = opened(rt.alloc(), &IdentityRule::Native, &mut tail)?;
    assert!(rt; key_of(&found) == "filestream::w::native::8-1");
    Ok(())
}

#[test]
fn a_read_that_fails(rt: HostRuntime) -> Result<(), Fail> {
    let mut tail = BytesTail::new(LETTERS.as_bytes().to_vec(rt.alloc())?, 40);
    tail.failing = 2;
    let rule = IdentityRule::Fingerprint {
        offset: 3,
        length: 100,
    };
    let refused = opened(rt.alloc(), &rule, &mut tail);
    assert!(rt; matches!(refused, Err(IdentityError::ReadFault)));
    assert!(rt; tail.faults == 1);
    Ok(())
}

ghost use Rattle.std.specs.Prelude.{◌≡◌, ◌≤◌, ◌↔◌, All, IsTrue, length};
ghost use Rattle.std.specs.Char.{IsAsciiDigit};
ghost use Rattle.std.specs.Option.{SomeIff};
ghost use Rattle.spool_queue.specs.Walking.{IsHeadOf};
ghost use Rattle.std.specs.Str.Parse.{digits_value};

use std::str;

/// The bytes of a record before its body: the gate, ten digits, a space and the kind.
pub(crate) const HEAD_BYTES: usize = 13;

/// What is at a gate.
#[derive(Clone, Copy, Drop)]
pub(crate) enum Head {
    /// The spool ends here.
    Absent,
    Closed,
    /// The gate is open, and no head follows.
    Broken,
    /// The gate is open, and a payload of this length is to follow.
    Event(u64),
    /// The gate is open, and so many digits are to follow.
    Settlement(u64),
}

/// Reads a head from the first `HEAD_BYTES` bytes from a gate on, or from fewer at the end of the spool.
pub(crate) fn read_head(bytes: &[u8]) -> Head
    requires { length bytes.now ≤ HEAD_BYTES }
    ensures { IsHeadOf result bytes.now }
{
    if bytes.is_empty() {
        return Head::Absent;
    }
    if bytes[0] != b'{' {
        return Head::Closed;
    }
    if bytes.len() < HEAD_BYTES {
        return Head::Broken;
    }
    if bytes[11] != b' ' {
        return Head::Broken;
    }
    let Some(size) = read_size(&bytes[1..11]) else {
        return Head::Broken;
    };
    match bytes[12] {
        b'e' => Head::Event(size),
        b's' => Head::Settlement(size),
        _ => Head::Broken,
    }
}

/// `None` exactly if these are not ten digits.
fn read_size(digits: &[u8]) -> Option<u64>
    requires { length digits.now ≡ 10 }
    ensures { SomeIff result (All IsAsciiDigit digits.now) (digits_value 10 digits.now) }
{
    if !are_digits(digits) {
        return None;
    }
    match str::from_utf8(digits) {
        Ok(digits) => digits.parse().ok(),
        Err(_) => None,
    }
}

fn are_digits(bytes: &[u8]) -> bool
    ensures { IsTrue result ↔ All IsAsciiDigit bytes.now }
{
    bytes.iter().all(|byte| byte.is_ascii_digit())
}

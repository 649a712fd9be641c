ghost use Rattle.std.specs.Prelude.{◌≡◌, ◌<◌, ◌^◌, ◌↔◌, IsTrue};
ghost use Rattle.std.specs.Option.{SomeIff};
ghost use Rattle.wire_base.specs.Decimal.{IsDecimal, value_of};

use std::str;

/// The number that decimal digits without a sign or a leading zero stand for, `0` itself allowed;
/// `None` exactly if the bytes are not such digits of a number below 2^64. Takes no memory.
pub fn read_decimal(bytes: &[u8]) -> Option<u64>
    ensures { SomeIff result (IsDecimal bytes.now × (value_of bytes.now < 2 ^ 64)) (value_of bytes.now) }
{
    if !is_decimal(bytes) {
        return None;
    }
    match str::from_utf8(bytes) {
        Ok(digits) => digits.parse().ok(),
        Err(_) => None,
    }
}

fn is_decimal(bytes: &[u8]) -> bool
    ensures { IsTrue result ↔ IsDecimal bytes.now }
{
    match bytes {
        [] => false,
        [b'0', _, ..] => false,
        _ => bytes.iter().all(|byte| byte.is_ascii_digit()),
    }
}

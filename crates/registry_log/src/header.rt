ghost use Rattle.std.specs.Prelude.{◌≡◌, ◌<◌, ◌^◌, ℕ, All, Some, length};
ghost use Rattle.std.specs.Char.{IsAsciiDigit};
ghost use Rattle.std.specs.Option.{SomeIff};
ghost use Rattle.std.specs.Str.Parse.{digits_value};
ghost use Rattle.registry_log.specs.Header.{HasHeader, first_wrong, fits, may_stand};

use std::str;

/// The length of an area's first gate and header, in bytes.
pub const HEADER: usize = 29;

const VERSION_1: &[u8; 8] = b"{beat 1 ";

const VERSION_2: &[u8; 8] = b"{beat 2 ";

/// What an area says in its header.
#[derive(Clone, Copy, Debug, PartialEq, Eq)]
pub enum Header {
    /// It is right, of version 1 or 2.
    Right { generation: u64 },
    /// The byte at this place is the first one that is absent or wrong.
    Broken { at: u64 },
}

/// Reads the header from the area's first bytes, of which `HEADER` are enough; whether the gate is open is not asked.
/// Takes no memory.
pub fn read_header(front: &[u8]) -> Header
    ensures right { (generation : ℕ) → result ≡ Header.Right generation →
        HasHeader front.now generation }
    ensures broken { (at : ℕ) → result ≡ Header.Broken at → first_wrong front.now ≡ Some at }
{
    for at in 1..28 {
        if !fits(front, at) {
            return Header::Broken { at: at as u64 };
        }
    }
    let Some(generation) = read_generation(&front[8..28]) else {
        return Header::Broken { at: 8 };
    };
    if !fits(front, 28) {
        return Header::Broken { at: 28 };
    }
    Header::Right { generation }
}

fn fits(front: &[u8], place: usize) -> bool
    ensures { result ≡ fits front.now place }
{
    front.get(place).is_some_and(|byte| may_stand(place, *byte))
}

fn may_stand(place: usize, byte: u8) -> bool
    ensures { result ≡ may_stand place byte }
{
    match place {
        0..8 => byte == VERSION_1[place] || byte == VERSION_2[place],
        8..28 => byte.is_ascii_digit(),
        _ => byte == b'\n',
    }
}

/// `None` exactly if the number of these digits is 0 or above 2^64 - 1.
fn read_generation(digits: &[u8]) -> Option<u64>
    requires some { 0 < length digits.now }
    requires digits { All IsAsciiDigit digits.now }
    ensures { SomeIff result ((0 < digits_value 10 digits.now) × (digits_value 10 digits.now < 2 ^ 64)) (digits_value 10 digits.now) }
{
    match read_number(digits) {
        Some(0) => None,
        number => number,
    }
}

/// `None` exactly if the number of these digits is above 2^64 - 1.
pub(crate) fn read_number(digits: &[u8]) -> Option<u64>
    requires some { 0 < length digits.now }
    requires digits { All IsAsciiDigit digits.now }
    ensures { SomeIff result (digits_value 10 digits.now < 2 ^ 64) (digits_value 10 digits.now) }
{
    match str::from_utf8(digits) {
        Ok(digits) => digits.parse().ok(),
        Err(_) => None,
    }
}

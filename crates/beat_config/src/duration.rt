ghost use Rattle.std.specs.Prelude.{◌≡◌, ◌≤◌, length, pos, option_map, IfSome};
ghost use Rattle.beat_config.specs.Duration.{milliseconds, digit_count, unit_milliseconds};

use crate::number::number;

/// The most digits of a duration.
const MAX_DIGITS: usize = 9;

/// The milliseconds of a duration, as `10s`: a number of at most 9 digits, and then `ms`, `s`, `m` or
/// `h`.
#[tactic(auto, unfolding(crate::specs::Duration::milliseconds))]
pub(crate) fn milliseconds(text: &[u8]) -> Option<i64>
    ensures { result ≡ option_map pos (milliseconds text.now) }
{
    let (digits, unit) = text.split_at(digit_count(text));
    let Some(count) = number(digits, MAX_DIGITS) else {
        return None;
    };
    let Some(unit) = unit_milliseconds(unit) else {
        return None;
    };
    Some((count * unit) as i64)
}

fn digit_count(text: &[u8]) -> usize
    ensures count { result ≡ digit_count text.now }
    ensures within { result ≤ length text.now }
{
    let mut count = 0;
    for byte in text {
        if !byte.is_ascii_digit() {
            return count;
        }
        count += 1;
    }
    count
}

fn unit_milliseconds(unit: &[u8]) -> Option<u64>
    ensures value { result ≡ unit_milliseconds unit.now }
    ensures few { IfSome result (λ value. value ≤ 3600000) }
{
    match unit {
        b"ms" => Some(1),
        b"s" => Some(1_000),
        b"m" => Some(60_000),
        b"h" => Some(3_600_000),
        _ => None,
    }
}

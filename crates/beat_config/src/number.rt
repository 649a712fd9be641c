ghost use Rattle.std.specs.Prelude.{◌≡◌, ◌≤◌, ◌<◌, ◌^◌, IfSome};
ghost use Rattle.beat_config.specs.Number.{number_of};

use wire_base::read_decimal;

/// The number of at most this many digits, without a sign or a leading zero.
pub(crate) fn number(digits: &[u8], most: usize) -> Option<u64>
    requires { most ≤ 9 }
    ensures value { result ≡ number_of most digits.now }
    ensures few { IfSome result (λ number. number < 10 ^ 9) }
{
    if digits.len() > most {
        return None;
    }
    read_decimal(digits)
}

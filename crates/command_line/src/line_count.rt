ghost use Rattle.std.specs.Option.{SomeIff};
ghost use Rattle.command_line.specs.LineCount.{IsLineCount};
ghost use Rattle.wire_base.specs.Decimal.{value_of};

use wire_base::read_decimal;

/// The most lines that may be generated.
const MOST_LINES: u64 = 1_000_000;

/// The number of lines, from 1 to 1,000,000, in decimal digits without a sign or a leading zero.
pub(crate) fn line_count(digits: &str) -> Option<u32>
    ensures { SomeIff result (IsLineCount digits.now) (value_of digits.now) }
{
    match read_decimal(digits.as_bytes()) {
        Some(count) if 1 <= count && count <= MOST_LINES => Some(count as u32),
        _ => None,
    }
}

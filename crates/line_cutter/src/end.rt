ghost use Rattle.std.specs.Prelude.{◌≡◌, ◌&&◌, ◌≤◌, true, length};
ghost use Rattle.memchr.specs.Find.{IsFirst};
ghost use Rattle.line_cutter.specs.Ends.{is_end, return_before, leaves_return};

use event_tree::Terminator;
use memchr::memchr;

/// The place of the byte that ends the first terminator; `after_return` says that a carriage return of the same line
/// comes before the bytes.
pub fn line_end(terminator: Terminator, bytes: &[u8], after_return: bool) -> Option<usize>
    ensures { IsFirst (λ place. is_end terminator after_return bytes.now place ≡ true) 0 (length bytes.now) result }
{
    match terminator {
        Terminator::Auto | Terminator::LineFeed => memchr(b'\n', bytes),
        Terminator::CarriageReturnLineFeed => pair_end(bytes, after_return),
        Terminator::NullTerminator => memchr(0, bytes),
    }
}

/// The place of the first line feed with a carriage return before it.
fn pair_end(bytes: &[u8], after_return: bool) -> Option<usize>
    ensures { IsFirst (λ place. is_end Terminator.CarriageReturnLineFeed after_return bytes.now place ≡ true)
        0 (length bytes.now) result }
{
    let mut from = 0;
    while let Some(found) = memchr(b'\n', &bytes[from..]) {
        let at = from + found;
        if return_before(bytes, at, after_return) {
            return Some(at);
        }
        from = at + 1;
    }
    None
}

/// Whether the byte before this place is a carriage return.
pub fn return_before(bytes: &[u8], place: usize, after_return: bool) -> bool
    requires { place ≤ length bytes.now }
    ensures { result ≡ return_before after_return bytes.now place }
{
    if place == 0 {
        after_return
    } else {
        bytes[place - 1] == b'\r'
    }
}

/// Whether a carriage return before the last byte of the terminator is no part of the content.
pub fn leaves_return(terminator: Terminator) -> bool
    ensures { result ≡ leaves_return terminator }
{
    matches!(
        terminator,
        Terminator::Auto | Terminator::CarriageReturnLineFeed
    )
}

ghost use Rattle.std.specs.Prelude.{◌≡◌, ◌≤◌, ◌⊎◌, ℕ, List, length};
ghost use Rattle.registry_log.specs.RecordReading.{IsFront, IsFrontOf};

use crate::{HEADER, Header, read_header};

/// What an area is by its first bytes.
#[derive(Clone, Copy, Drop)]
pub(crate) enum Front {
    Blank,
    Closed,
    /// The byte at this place is the first one of the header that is absent or wrong.
    Broken { at: u64 },
    Right { generation: u64 },
}

/// Reads an area's first bytes, of which `HEADER` are enough.
pub(crate) fn read_front(front: &[u8]) -> Front
    ensures front { (area : List ℕ) → IsFront front.now area → (HEADER ≤ length front.now) ⊎ (length area ≤ length front.now) → IsFrontOf result area }
    ensures long { (generation : ℕ) → result ≡ Front.Right generation → HEADER ≤ length front.now }
{
    if front.len() <= 1 {
        return Front::Blank;
    }
    if front[0] != b'{' {
        return Front::Closed;
    }
    match read_header(front) {
        Header::Right { generation } => Front::Right { generation },
        Header::Broken { at } => Front::Broken { at },
    }
}

ghost use Rattle.std.specs.Prelude.{◌≡◌, ℕ, ◌+◌, ◌^◌, ◌<◌, ◌≤◌, ◌↔◌, length, slice_index, slice_range};
ghost use Rattle.std.specs.Option.{SomeIff};
ghost use Rattle.std.specs.Int.{w32, from_be_bytes};
ghost use Rattle.lumber_frame.specs.declared.frame.Frame.{Frame};
ghost use Rattle.lumber_frame.specs.Frame.{BeginsWithFrame};
ghost use Rattle.lumber_frame.specs.Fault.{IsBadAt};
ghost use Rattle.lumber_frame.specs.Reading.{Reads, IsShort, IfWhole, IsWholeOf};

use crate::frame::{ACK, FrameRead, FrameView, JSON, VERSION, WINDOW};
use wire_base::MAX_PAYLOAD;

/// The frame that the bytes begin with, the fault that they begin with, or `Short` if there is
/// neither yet. Takes no memory; the payload is not looked into.
pub fn read_frame<'a>(bytes: &'a [u8]) -> FrameRead<'a>
    ensures exact { Reads bytes.now result }
    ensures within { IfWhole result (λ _ used. used ≤ length bytes.now) }
    ensures every_frame { (frame : Frame) (used : ℕ) → BeginsWithFrame bytes.now frame used →
        IsWholeOf result frame used }
    ensures bad { (at : ℕ) → (result ≡ FrameRead.Bad at) ↔ IsBadAt bytes.now at }
    ensures short { (result ≡ FrameRead.Short) ↔ IsShort bytes.now }
{
    match bytes {
        [] | [VERSION] => FrameRead::Short,
        [VERSION, WINDOW, ..] => match number_at(bytes, 2) {
            Some(count) => FrameRead::Whole {
                frame: FrameView::Window(count),
                used: 6,
            },
            None => FrameRead::Short,
        },
        [VERSION, ACK, ..] => match number_at(bytes, 2) {
            Some(sequence) => FrameRead::Whole {
                frame: FrameView::Ack(sequence),
                used: 6,
            },
            None => FrameRead::Short,
        },
        [VERSION, JSON, ..] => read_json(bytes),
        [VERSION, ..] => FrameRead::Bad { at: 1 },
        _ => FrameRead::Bad { at: 0 },
    }
}

fn read_json<'a>(bytes: &'a [u8]) -> FrameRead<'a>
    requires there { 2 ≤ length bytes.now }
    requires version { slice_index bytes.now 0 ≡ VERSION }
    requires kind { slice_index bytes.now 1 ≡ JSON }
    ensures { Reads bytes.now result }
{
    let (Some(sequence), Some(length)) = (number_at(bytes, 2), number_at(bytes, 6)) else {
        return FrameRead::Short;
    };
    let end = 10 + length as usize;
    if length as usize > MAX_PAYLOAD {
        FrameRead::Bad { at: 6 }
    } else if bytes.len() < end {
        FrameRead::Short
    } else {
        FrameRead::Whole {
            frame: FrameView::Json {
                sequence,
                payload: &bytes[10..end],
            },
            used: end,
        }
    }
}

/// The number in the four bytes from `at` on, the highest first, if they are there.
fn number_at(bytes: &[u8], at: usize) -> Option<u32>
    requires { at + 4 < 2 ^ 64 }
    ensures { SomeIff result (at + 4 ≤ length bytes.now)
        (from_be_bytes w32 (slice_range bytes.now at (at + 4))) }
{
    if bytes.len() < at + 4 {
        return None;
    }
    Some(u32::from_be_bytes([bytes[at], bytes[at + 1], bytes[at + 2], bytes[at + 3]]))
}

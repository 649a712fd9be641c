ghost use Rattle.std.specs.Prelude.{◌≡◌};
ghost use Rattle.lumber_frame.specs.declared.frame.Frame.TheVariants.{Window, Ack};
ghost use Rattle.lumber_frame.specs.Frame.{frame_bytes, json_head_bytes};

use crate::frame::{ACK, JSON, VERSION, WINDOW};

/// The bytes of a window frame.
pub fn window_head(count: u32) -> [u8; 6]
    ensures { result ≡ frame_bytes (Window count) }
{
    let [a, b, c, d] = count.to_be_bytes();
    [VERSION, WINDOW, a, b, c, d]
}

/// The bytes of a JSON frame up to its payload, which is `length` bytes long.
pub fn json_head(sequence: u32, length: u32) -> [u8; 10]
    ensures { result ≡ json_head_bytes sequence length }
{
    let [a, b, c, d] = sequence.to_be_bytes();
    let [e, f, g, h] = length.to_be_bytes();
    [VERSION, JSON, a, b, c, d, e, f, g, h]
}

/// The bytes of an acknowledgement.
pub fn ack_frame(sequence: u32) -> [u8; 6]
    ensures { result ≡ frame_bytes (Ack sequence) }
{
    let [a, b, c, d] = sequence.to_be_bytes();
    [VERSION, ACK, a, b, c, d]
}

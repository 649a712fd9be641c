//! Frames of Lumberjack v2 as bytes, and what a talk of them acknowledges.
//!
//! A frame is `2`, a letter and its numbers, each of four bytes with the highest first. A window, `W`,
//! says how many JSON frames follow; a JSON frame, `J`, has its sequence, the payload's length in bytes
//! and the payload; an acknowledgement, `A`, has a sequence. Nothing else is a frame here: not the
//! compressed and the key/value frames, and no payload longer than `wire_base::MAX_PAYLOAD` bytes.
//!
//! The bytes of each frame are a definition of `specs/`, and both directions are proved against it.
//! What is written is read again, whatever follows. Bytes are read as the one frame that they begin
//! with, as a fault at its place, or as too short for either. Numbers of any value are read, and no
//! payload is looked into. Reading and writing a frame take no memory.
//!
//! `acknowledged` says which payloads a talk acknowledges, for the crates that send and receive. It is
//! written to be compared with, not to be quick. Nothing here sends, receives or keeps a window.
#![tactic(auto)]

mod acknowledgements;
mod frame;
mod laws;
mod read;
mod talk;
mod windows;
mod write;

pub use acknowledgements::acknowledged;
pub use frame::{Frame, FrameRead, FrameView};
pub use laws::{
    a_fault_is_met, a_fault_stays, a_window_is_settled, a_window_is_unanswered, acknowledged_stays,
    answers_stay, no_acknowledgement_begins, no_fault_is_met, nothing_is_settled, one_form,
    one_in_flight_asks_the_last, one_reading, one_window_at_a_time, settled_is_acknowledged,
    settled_stays_acknowledged, the_oldest_is_asked, written_is_read,
};
pub use read::read_frame;
pub use write::{ack_frame, json_head, window_head};

//! Windows of parcels: what a peer acknowledged of them, and nothing else.
//!
//! A `Window` holds parcels on their way to a peer. They are offered, begun in windows of
//! Lumberjack v2 and sent piece by piece; several windows may be in flight. The peer's bytes are
//! given to it one by one, and it says of each whether the acknowledgement goes on, is a sign of
//! life, acknowledges more, or is a fault. What is acknowledged is handed out in order, each parcel
//! once. After a failure the window is made again, and what was not acknowledged waits in its old
//! order.
//!
//! Contracts see a window as what it holds, and say for which exchanges it stands: the talk since
//! it was made or made again, byte for byte, the windows that were begun, and the parcels handed
//! out. What it holds and has handed out as acknowledged is, in order, what `lumber_frame` reads
//! that the talk acknowledges. A frame whose first byte came before a window was out settles
//! nothing of it.
//!
//! All memory is taken by `Window::new`: room for the parcels of the windows in flight and of one
//! more, and a buffer of 128 KiB in which small frames are laid one after another, so that one
//! sending carries many. No payload is copied but into that buffer. Nothing here sends or receives,
//! waits or reconnects.
#![tactic(auto)]

mod heard;
mod incoming;
mod laws;
mod outgoing;
mod steps;
mod window;

pub use heard::Heard;
pub use laws::{acknowledged_is_of_the_talk, nothing_counts_behind_a_fault, received_pieces_join};
pub use window::Window;

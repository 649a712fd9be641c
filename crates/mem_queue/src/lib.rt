//! The event queue: parcels on their way from the threads that read to the threads that send.
//!
//! It is bounded, has no lock and is shared by reference. Who puts holds a `PutPass`, who takes a
//! `TakePass`; passes have no bytes and know what was put, or taken, by them. They can be split for
//! more threads, and joined again. Whatever the threads call, nothing is lost and nothing comes
//! twice: all parcels that entered are in one row in the order of their entry, and what was taken
//! is a front of it, and the queue holds the rest. The only two passes learn it as they `meet`.
//!
//! No call after `EventQueue::new` takes memory. `put`, `take`, `close` and `Left::next` may spin
//! while another thread has stalled. After 2^62 entries they spin for ever.
#![tactic(auto)]

mod entry;
mod laws;
mod left;
mod pass;
mod queue;
mod rule;

pub use entry::Entry;
pub use laws::{nothing_comes_twice, nothing_is_lost, what_is_held_came_later};
pub use left::Left;
pub use pass::{PutPass, TakePass};
pub use queue::EventQueue;

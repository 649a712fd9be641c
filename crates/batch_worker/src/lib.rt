//! One worker and its peer: parcels of the queue go out in windows, and what the peer acknowledged
//! of them is posted, and nothing else.
//!
//! A worker takes parcels as it may begin a window, connects only when it has one, sends windows one
//! after the other, and reads the peer only when all that was begun is out. After a failure it
//! finishes its link and rests; what is not acknowledged is sent again over the next link, in its
//! old order. What is acknowledged is posted as a settled span, and is held while the box is full.
//!
//! Contracts see a worker as what it holds, and say what its calls keep: each parcel that it took is
//! acknowledged or carried, each that is acknowledged is posted or owed, all in order, and the talks
//! of its links acknowledge just these. A turn's answer comes by its cause.
//!
//! All memory is taken by `Worker::new`. A turn sends at most one piece, of 128 KiB or of one
//! payload that is larger, or receives once.
#![tactic(auto)]

mod answer;
mod ending;
mod feed;
mod filling;
mod laws;
mod posting;
mod receiving;
mod sending;
mod turns;
mod worker;

pub use answer::{Failure, WorkerTurn};
pub use laws::keeping_goes_on;
pub use worker::Worker;

//! Lanes: files that are read side by side in one thread, each reported as events, and handed on.
//!
//! A lane has the harvesters of its files and a pass for each of two shared objects: what is to be
//! sent it puts into the queue, and what is settled, announced or forgotten it posts to the box. It
//! holds what was refused there, and turns no harvester while it holds something.
//!
//! Contracts see a lane by `laning`, and say what its calls did as steps: which harvester was
//! turned, what that answered, as the harvester's own clause has it, and what it gave. What was
//! given is put, posted or held, in order.
#![tactic(auto)]

mod calls;
mod given;
mod handing;
mod lane;
mod run;
mod seat;
mod seat_look;
mod tally;
mod turning;

pub use given::Given;
pub use handing::Outlets;
pub use lane::Lane;
pub use run::{MAX_TURNS, When};
pub use seat_look::SeatLook;
pub use tally::Tally;

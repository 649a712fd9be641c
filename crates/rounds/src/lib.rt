//! One round of lanes, workers and the keeper.
//!
//! Each lane runs in a thread of its own, with a worker after it, and the keeper in another one; but
//! beside a single worker the keeper has its turns first and the worker has its turns last, in the
//! thread that asked. When they have met again, the passes of the queue and of the box are joined and
//! compared with what queue and box hold, and are parted again. So as a round ends it is known where
//! each event is that was reported.
//!
//! As a run ends, its files are closed, and `settle` is called until `is_settled`: what is still held of
//! notes is posted and stored. `is_done` says whether each span that was reported is shipped or dropped.
#![tactic(auto)]

mod answer;
mod carrier;
mod carrier_passes;
mod crew;
mod crewing;
mod halves;
mod lane_passes;
mod meeting;
mod round;
mod running;
mod settled;
mod settling;
mod storing;

pub use answer::Round;
pub use carrier::{Carried, Carrier, MAX_TURNS};
pub use crew::{Crew, MAX_ROUNDS_WITHOUT, Pace};
pub use crewing::{carriers_of, lanes_of};
pub use storing::{Stored, Storing};

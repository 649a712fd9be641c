//! The keeper: what was reported and collected of files, and the rows that are stored of it.
//!
//! How files begin, what they are renamed to and when they changed is reported to it; it collects the rest
//! from the settle box. It notes each to a tracker, in the order in which it comes, and commits what
//! leads from the stored rows to the tracker's. So what is stored is never ahead of what was
//! collected, and a turn that stores nothing else has stored all of it.
//!
//! Contracts see a keeper as the notes for which it stands, its store and what its pass collected.
//! A turn says which notes it collected, which updates it committed, and what each area may hold at
//! every moment of it. A note that memory refused is held, and is noted first by the next turn.
#![tactic(auto)]

mod collecting;
mod keeper;
mod laws;
mod storing;
mod turn;

pub use keeper::{Keeper, MAX_COLLECTED};
pub use laws::few_keys_by_length;
pub use turn::KeeperTurn;

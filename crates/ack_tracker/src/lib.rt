//! How far each file is done, from what its events' settlements say.
//!
//! A tracker is given the rows that the registry had at first, and then notes: how a file begins, which epoch its life
//! has, which spans of it are settled and why, by which path a scan found it, when it last changed, and that it may be
//! forgotten. `offset` answers up to which place all of a file is settled: never just some end that was settled, but
//! the end of spans that adjoin each other from the file's base on. Which spans were acknowledged and which a rule
//! dropped makes no difference. `row` answers the row to be stored, with the newest path and the greatest moment.
//!
//! A tracker stands for the list of its notes, as the definitions of `ship_core` read it, but keeps no such list. Of each
//! file it keeps the end up to which all is settled, and the spans settled after that as intervals in a tree. So a span
//! that adjoins the end only moves it, one ahead costs the logarithm of the intervals, and memory is bounded by files and
//! gaps. Of each key it keeps the slots that began with it, and the row that it had at the last commit if it was noted
//! since; so `changes` looks at each key once, in their order, and a note of a slot whose key was noted looks at none.
//! Nothing here collects notes or writes a disk.
#![tactic(auto)]

mod coverage;
mod file;
mod history;
mod keyed;
mod keys;
mod reach;
mod slots;
mod tracker;

pub use tracker::Tracker;

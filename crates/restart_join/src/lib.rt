//! Where a run begins each file that its first scan shows.
//!
//! A file with a row in the registry begins at the row's epoch and offset if it is at least as long as the offset,
//! and else at the next epoch and 0; a file without a row begins at epoch 0 and 0. Each key of the scan begins once, by
//! its first path in byte order, and the slots are given in that order. Rows whose files the scan does not show are
//! the run's. Nothing here opens a file or changes a row. `start_of` is the rule for one file.
#![tactic(auto)]

mod join;
mod join_error;
mod path_order;
mod start;

pub use join::join_rows;
pub use join_error::JoinError;
pub use start::{Start, start_of};

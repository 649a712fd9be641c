//! How far each file is done: the rows of the registry, and what notes make of them.
//!
//! A row says of one file, by its key, up to which place all is settled. `Rows` is a list of rows in byte order of
//! their keys, and `apply` makes one change of it. What notes make of a row is a definition of `specs/`: the greatest
//! epoch that a note of the slot names, the place from which that epoch began, and from there on the spans that adjoin
//! each other and were settled for that epoch. That is the *covered end*: it closes a prefix, and is never just some
//! end that was settled. A row keeps besides the greatest moment of change with which its file was listed.
//!
//! The laws say what follows for any notes or for orderly ones: what a covered end is, that it closes a prefix of the
//! events that were reported, that no row goes back, that a row which went stays gone, and that the order in which notes
//! come does not matter. Nothing here collects notes or writes a disk.
#![tactic(auto)]

mod changes;
mod laws;
mod pending;
mod reading;
mod rows;
mod step;
mod world;

pub use changes::change;
pub use laws::{
    changes_by_key, covered_end_by_spans, covered_end_by_steps, covered_end_closes_a_prefix,
    no_row_goes_back, no_row_goes_back_while_it_runs, note_by_key, older_epochs_change_nothing,
    one_life, order_does_not_matter, orderly_by_one_more, row_by_slots, rows_by_key,
    slots_by_begin, update_by_key, updates_come_from_notes,
};
pub use rows::Rows;
pub use step::CoreStep;
pub use world::World;

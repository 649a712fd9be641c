//! A file that tails followed one by one: what they reported in an epoch, part by part, is of one life.
//!
//! A part is what one segment of a tail's looks reported. In one epoch each part goes on from where those before it ended;
//! the next epoch is reported from the file's first byte on. From parts the account of a slot is made: its epochs are the runs
//! of parts with one number, and each part is a reading of its epoch. A tail that is opened again goes on from the end of
//! the last event that was reported, never from the offset of its row.
//!
//! The law says that tails give such an account. Only definitions, a law and lemmas; nothing here runs.
#![tactic(auto)]

mod laws;

pub use laws::tails_make_the_account;

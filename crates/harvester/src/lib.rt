//! One open file, reported as events.
//!
//! A harvester is given an open file and the place from which it goes on. Each turn reports at most one event: a parcel to be
//! sent, or a span that a rule dropped. Reads that ask for the file's key aside, a turn reads at most once. What was read,
//! what was reported and where an event may be flushed make its history, a definition of `specs/`; a turn adds to it. A
//! harvester has reported a history when what it holds stands for it and the looks of its tail belong to it: each epoch was
//! read through one segment of the looks.
//!
//! `Events` cuts what was read of one life into lines and gathers these into events; an event that is closed waits there
//! until it is reported, and a line that finds no memory is kept. `Reader` is what is held of the file beside its tail.
//! `FateRules` is what filters and processors decide of an event, compiled once. Nothing here names a folder, a queue or
//! a lane.
//!
//! The clauses allow more than the code does: a turn may answer that it found no memory at any time, and if it then had
//! flushed an event, later turns may read on before they report it.
#![tactic(auto)]

mod asking;
mod buffer;
mod events;
mod fate_rules;
mod harvester;
mod look;
mod reader;
mod stage;
mod tell;
mod turn;
mod turn_error;
mod turns;

pub use harvester::Harvester;
pub use turn::Turn;

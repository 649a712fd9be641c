//! What a run promises of its rows, in words that a run over any number of files, lives, workers and rounds can use.
//!
//! A trace has what the folder, the wires and the clock showed; its listings fall into scans. An account says for each
//! slot how its file was followed, in which epochs and of which lives it was read, what was reported of each epoch, and where
//! a peer acknowledged each event that was shipped. By it a row is kept, a row that is not there was rightly lost, a
//! folder is drained, and only reported events are sent. The premises say what is supposed of files.
//!
//! The laws say that rows over the first of backed notes are kept, that runs in a row adjoin, and that what holds now
//! holds whatever happens next. Only definitions, laws and lemmas; nothing here runs.
#![tactic(auto)]

mod laws;

pub use laws::{
    drained_folders_stay_drained, kept_rows_stay_kept, links_go_on, lost_rows_stay_lost,
    payloads_stay_acknowledged, premises_of_all_slots_give_the_whole,
    rows_over_backed_notes_are_kept, runs_in_a_row_adjoin, told_events_are_sent_still,
};

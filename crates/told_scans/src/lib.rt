//! One scan of a run as it was reported: the folder before it, after its listings and after its askings, what each file's
//! asking came to, which files are followed, its moment; and what that scan is in the terms of a run, whichever scans come
//! before and after it.
//!
//! Its listings are in the folder's list, one for each glob, and right after them its askings, in the order of the files. A
//! listing or an asking may have failed: the scan goes on past it. It shows each listed file that has a key, with that key and
//! under its path, and no other; of several with one key the first path is followed.
//!
//! A run that scans again and again has a list of such scans, one after another (`ToldScans`): before the first, between two
//! and after the last nothing is listed. One more scan may come at the end, as may more that lists nothing. The run is one
//! around each of its scans, so what is known of a scan is known of each of them. An opening by which a scan asked for a key
//! is within that scan; any other one is between scans, or its tail reported nothing but reads.
//!
//! The laws say that a scan without a fault is a whole one, that one with a fault is partial and never whole, and that both show what was listed;
//! and that all listings of a run are those of its scans, as reported. Definitions, laws and lemmas only; nothing here
//! runs.
#![tactic(auto)]

mod laws;

pub use laws::{
    partial_scans_are_never_whole, told_faults_make_scans_partial,
    told_scans_are_those_of_their_run, told_scans_are_whole, told_scans_go_on,
    told_scans_show_what_was_listed,
};

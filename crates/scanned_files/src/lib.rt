//! The files of a run by the entries that its scans gave: from scans one after another, each as reported, to what the account
//! of the run asks of each file.
//!
//! A file that a scan listed and that was opened after it, before the next scan, was shown last by that scan (`WasListedBy`). It
//! begins by the entry of the scan from which on its key is known, or by its row, if the first scan gave no entry of the key. If
//! no scan before that one gave one and the registry had no row, its key is newly known. The moment of its last change is that
//! of its row or of an entry. A later whole scan that gave no entry of its key reports that it was removed; a later one
//! that gave an entry reports by which path it is known since.
//!
//! Files are opened between scans, and within a scan only to be asked for their keys: no opening is both, and one that is neither
//! reported nothing but reads.
//!
//! Definitions, laws and lemmas only; nothing here runs. No run scans a second time yet.
#![tactic(auto)]

mod laws;

pub use laws::{
    entries_tell_how_files_begin, entries_tell_what_became_of_files, told_runs_are_by_scans,
};

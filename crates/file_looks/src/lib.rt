//! What the looks at an opened file show: what was read of it, of which life, and where its end was found.
//!
//! A tail reports its looks in their order. A look at the length that is below the place up to which was read finds a new
//! life; there the looks are cut into segments, and each of them reads one life from a place on. A read counts only
//! directly after a look at the length that was not below that place; every other one only asked which file this is.
//! From this follow what a segment read, the life of which the last bytes came, the premise that truncations are seen,
//! and where the file's end was found.
//!
//! The laws say that the segments are the ones that are meant, that a tail reports such looks whichever call comes next,
//! that a segment reads one life if truncations are seen, and that what was found stays as the tail looks on.
//! Only definitions, laws and lemmas; nothing here runs.
#![tactic(auto)]

mod laws;

pub use laws::{
    findings_stay, reads_one_life, segments_are_cut_at_falls, segments_go_on, tails_tell_looks,
    truncations_were_seen,
};

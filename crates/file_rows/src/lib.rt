//! What the keys of listed files decide: which rows of the registry go, and whether an opened file is the one that was listed.
//!
//! A row goes once its file is gone: an input cleans such rows, the key of each listed file is known, and none of them has the
//! row's key. An opened file is the one that was listed only if it has the key with which it was listed.
#![tactic(auto)]

mod keys;

pub use keys::{goes, is_same_key, listed_keys, some_may_go};

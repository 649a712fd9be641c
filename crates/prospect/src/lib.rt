//! Which files the settings name, as one scan shows them; and which keys of the settings ask for
//! what is not built.
//!
//! A scan lists once for each glob of the settings. What it reports, and what of the settings is
//! unsupported, are definitions of `specs/`.
//!
//! `list_files` reports files by their paths, each with what the listing showed of it, and opens
//! none. To an input that knows files by native numbers, two numbers that one path had are two
//! files. `ask_files` opens those that are known by fingerprints, one after another, for their
//! keys. Both end at the first fault of the folder; `list_past_faults` and `ask_past_faults` go on
//! with the others, and name what failed: the scan is then partial.
#![tactic(auto)]

mod asking;
mod askings;
mod by_path;
mod entries;
mod files;
mod lack;
mod listed;
mod listings;
mod parted;
mod scan_error;
mod scan_input;
mod showing;

pub use asking::{Keyed, ask_files};
pub use askings::{Askings, ask_past_faults};
pub use files::list_files;
pub use lack::first_lack;
pub use listed::Listed;
pub use listings::{Listings, list_past_faults};
pub use parted::{Parted, part_doubled};
pub use scan_error::ScanError;

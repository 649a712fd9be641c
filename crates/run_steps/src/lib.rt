//! The steps of a run over rounds: its registry and its files are opened, files are turned until nothing more is found, all is
//! released, and what was settled is stored. Rows of removed files go by notes, given once all files are begun.
//!
//! Each step says what it changed. Rounds, last steps and releases keep one relation: what each file reported, where
//! each event of it is, what the keeper noted, and what the areas may hold at any moment. So do a scan after the first one, and
//! what a run does with a file by what that scan shows: it is stirred, asked to end or renamed. No run makes them yet.
#![tactic(auto)]

mod begin;
mod begin_error;
mod beginning;
mod changing;
mod context;
mod crew;
mod follow;
mod forgetting;
mod hidden;
mod laws;
mod leave;
mod met;
mod opening;
mod reading;
mod registry;
mod registry_error;
mod reopening;
mod rescan_error;
mod running;
mod scanning;
mod settle;
mod starts;
mod telling;
mod working;

pub use begin::{Admission, begin_one, pass_over};
pub use begin_error::BeginError;
pub use beginning::{BegunFiles, Scanned, begin_all};
pub use changing::{NewName, end_file, rename_file, stir_file};
pub use context::{Context, Surroundings, System};
pub use crew::{BOX_NOTES, Passes, crew_of};
pub use follow::{PAUSE_MS, met_behind, met_in, pause_where_still};
pub use forgetting::{RemovedFile, forget_closed};
pub use hidden::{hide_begun, tell_hidden};
pub use laws::{
    changes_are_steps, disk_images_are_counted, following_goes_on, forgets_are_steps,
    openings_again_are_steps, openings_are_steps, scans_again_are_steps,
};
pub use leave::{
    close_all, close_failed, close_resting, close_slot, close_tail, end_crew, end_lanes,
};
pub use met::Met;
pub use opening::Opening;
pub use reading::{follow_all, make_round, read_on, store_and_follow};
pub use registry::open_registry;
pub use registry_error::RegistryError;
pub use reopening::{Reopening, goes_on, open_again};
pub use rescan_error::RescanError;
pub use running::run_over;
pub use scanning::{Rescan, scan_again};
pub use settle::{settle_all, store_all};
pub use starts::starts_of;
pub use telling::{tell_moments, tell_seen};
pub use working::{Worked, follow_begun, settle_after, work};

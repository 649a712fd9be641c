//! Two registry areas as one map that survives a crash at any moment.
//!
//! One area is used: records are appended to it. Once it has grown long, the other one is started with the next generation
//! and the present rows, a checkpoint, and is used from then on. So a commit writes only one area, and while it does, what
//! a crash leaves of that area, beside the other, is always chosen and gives the rows after some of the operations, from
//! the first one on and none skipped. The choice between two areas is a definition of `specs/` over whole byte lists.
#![tactic(auto)]

mod choice;
mod laws;
mod pick_error;
mod picking;
mod records;
mod starting;
mod store;
mod store_error;
mod writing;

pub use choice::Pick;
pub use laws::{few_by_length, one_choice};
pub use pick_error::PickError;
pub use picking::pick;
pub use starting::checkpoint;
pub use store::Store;
pub use store_error::StoreError;
pub use writing::MAX_PAST_START;

//! The settle box: notes on their way from the threads that read and send to the keeper.
//!
//! It is bounded, has no lock and is shared by reference. Who posts holds a `PostPass`; there is one
//! `CollectPass`. A post pass that is split gives the new one a name of its own, and a joined pass
//! keeps what was posted under either name. Whatever the threads call, each name's notes are
//! collected in the order in which they were posted, none is lost and none comes twice: what was
//! collected of a name, and then what the box holds of it, is what was posted under it.
//!
//! Announcements, settlements and forgettings are posted, and nothing else. No call after
//! `SettleBox::new` takes memory. `post`, `collect`, `close` and `Left::next` may spin while another
//! thread has stalled. After 2^62 entries they spin for ever.
#![tactic(auto)]

mod desk;
mod left;
mod pass;
mod rule;
mod sender;

pub use desk::SettleBox;
pub use left::Left;
pub use pass::{CollectPass, PostPass};
pub use sender::{Sender, Sent};

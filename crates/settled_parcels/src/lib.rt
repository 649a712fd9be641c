//! What a peer has acknowledged of a window: its parcels are handed out, and counted.
//!
//! A spool settles as many payloads as this counts, and no other: none that was sent and is not acknowledged.
#![tactic(auto)]

mod settled;

pub use settled::hand_out_settled;

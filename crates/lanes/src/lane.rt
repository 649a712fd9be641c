use crate::given::Given;
use crate::seat::Seat;
use crate::tally::Tally;
use mem_queue::PutPass;
use settle_box::PostPass;
use std::collections::BTreeMap;

/// Harvesters that are turned in one thread, and what one of them gave that was refused.
#[derive(Drop)]
pub struct Lane<T> {
    pub(crate) put: Option<PutPass>,
    pub(crate) post: Option<PostPass>,
    pub(crate) seats: Vec<Seat<T>>,
    pub(crate) held: Given,
    pub(crate) spans: u64,
    pub(crate) tally: Tally,
    /// With which harvester the next round begins, so that if each round is refused all have their turns.
    pub(crate) next: usize,
    /// At which place the harvester of a slot was last: where to look first.
    pub(crate) places: BTreeMap<u32, usize>,
}

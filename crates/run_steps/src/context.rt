use event_tree::Settings;
use lanes::Outlets;
use std::alloc::Global;

/// What each step of a run reads: where memory is taken, the settings, where events and notes are handed on, and whether files are
/// read once.
#[derive(Clone, Copy)]
pub struct Context<'a, 'b> {
    pub alloc: Global,
    pub settings: &'a Settings,
    pub outlets: Outlets<'b>,
    /// Whether files are read once: each turn may find the end of its file.
    pub once: bool,
}

/// What a run reads, sends by and asks, besides its areas. It is written out where the references are: of a call that made it no
/// caller could say what they come to.
#[derive(Drop)]
pub struct Surroundings<'a, 'b, 'c, 'd, F, W, K, B> {
    pub folder: &'a mut F,
    pub wires: &'b mut Vec<W>,
    pub clock: &'c mut K,
    pub bell: &'d mut B,
}

/// What rounds read and ask of the system besides a run's areas: where tails are closed, the time, and whether to stop.
#[derive(Drop)]
pub struct System<'a, 'b, 'c, F, K, B> {
    pub folder: &'a mut F,
    pub clock: &'b mut K,
    pub bell: &'c mut B,
}

use ship_core::Rows;
use wire_base::Which;

/// What two areas choose.
#[derive(Debug, Drop)]
pub enum Pick {
    /// The registry is empty; area A is to be started.
    Fresh,
    /// This area is used.
    Chosen {
        area: Which,
        generation: u64,
        rows: Rows,
        /// The place of the first gate.
        start: u64,
        /// The place of the last gate.
        end: u64,
    },
}

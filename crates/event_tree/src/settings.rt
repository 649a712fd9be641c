use crate::{InputRule, ListOf, OutputRule, ProcessorRule};

/// The inputs, 1 to 64 rules.
pub type InputRules = ListOf<InputRule>;

/// The processors, at most 64, in the order in which they run.
pub type ProcessorRules = ListOf<ProcessorRule>;

/// What the settings say (Filebeat reference; the ranges are this project's profile).
#[derive(Debug, Drop)]
pub struct Settings {
    pub inputs: InputRules,
    pub output: OutputRule,
    pub processors: ProcessorRules,
    /// How many events the queue holds, 32 to 65,536.
    pub events: u32,
    /// How many lanes read files, 1 to 8.
    pub lanes: u32,
}

//! Which file is which, what operators ask for, and how a run's end is reported. Tests only; no part of the product. They
//! are here so that none of these crates is proved once more with tests of its own.
#![tactic(auto)]

#[cfg(test)]
mod tests;

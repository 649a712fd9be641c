//! Worked runs of `ship` over objects in memory. Tests only; no part of the product. They are in a crate of their own so that
//! neither `beat_run` needs the objects in memory, nor `beat_main` is proved once more with them.
#![tactic(auto)]

#[cfg(test)]
mod tests;

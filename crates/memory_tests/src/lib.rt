//! What notes make of rows, given to the registry machine and to the tracker, what a crash leaves of them, and from
//! which place listed files begin over them; how a registry is spelled, what its areas read as, whole, cut and damaged, and
//! what disks in memory have of it after each call. Tests only; no part of the product. They are here so that none of these
//! crates is proved once more with tests of its own.
#![tactic(auto)]

#[cfg(test)]
mod tests;

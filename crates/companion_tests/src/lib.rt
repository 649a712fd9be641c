//! What `check`, `container_run`, `spool_run` and `show` come to over objects in memory, and what lines of container logs are
//! told as. Tests alone; no part of the product. They are in a crate of their own so that the programs are not proved once more
//! with them.
#![tactic(auto)]

#[cfg(test)]
mod checks;
#[cfg(test)]
mod container;
#[cfg(test)]
mod joined;
#[cfg(test)]
mod spool;
#[cfg(test)]
mod status;

//! What runs at once, a piece at a time: a harvester over a tail that follows a script, a lane over such files, workers over
//! peers in memory and over loopback, and the queue and the box that threads share; scans one after another, and files that
//! change between rounds. Tests alone; no part of the product.
#![tactic(auto)]

#[cfg(test)]
mod tests;

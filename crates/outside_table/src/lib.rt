//! The objects of the outside, in memory and of the system: what they give, take and keep, where
//! they fail, and that threads may have them. Tests only; no part of the product.
#![tactic(auto)]

#[cfg(test)]
mod tests;

//! What turns bytes into events: texts, patterns, the longest line, conditions and processors as settings spell
//! them, trees and payloads. Tests only; no part of the product. They are here so that none of these crates is proved once
//! more with tests of its own; `ship_tests` has lines and groups of lines.
#![tactic(auto)]

#[cfg(test)]
mod tests;

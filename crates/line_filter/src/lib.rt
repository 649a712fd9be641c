//! Which messages are dropped before anything else is asked of them.
//!
//! A message without a byte is dropped by rule 0; then one that no pattern to include matches, if there is one, by
//! rule 1; then one that some pattern to exclude matches, by rule 2. Patterns are those of lines, matched on the
//! message's bytes, whatever these are.
//!
//! A `Filter` is seen as its two lists of patterns. It compiles each once, for as long as it lives, and none for a
//! message; its verdicts are those of the definition in `specs/`, and it stays as it was, also when out of memory. The
//! law says what each verdict comes to. Nothing here reads settings or a file.
#![tactic(auto)]

mod filter;
mod laws;
mod verdict;

pub use filter::Filter;
pub use laws::verdict_by_rules;
pub use verdict::Verdict;

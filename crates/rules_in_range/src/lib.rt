//! Which conditions and processors the settings may have.
//!
//! A condition's lists and tables have members, its paths are field paths, its patterns are patterns, a range has a
//! bound, and conditions are nested at most 16 deep. A processor's paths are field paths and what it adds are values that
//! settings can have. Settings that were read are so, and whoever compiles a condition or a processor asks for it and
//! for nothing more. Only definitions and a law; nothing here runs.
#![tactic(auto)]

mod laws;

pub use laws::a_level_less;

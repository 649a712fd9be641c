//! The arguments of the program: one clap command without positional arguments.
//!
//! `-c FILE` or `--config FILE` has to be there; `--data DIR`, `--once` and `--generate N` may be. Which
//! arguments are refused is clap's own definition of that command, with one more rule: N is decimal digits without
//! a sign or a leading zero. A request for help is refused as any other unknown argument.
#![tactic(auto)]

mod command;
mod line_count;
mod locations;
mod place;
mod read;
mod words;

pub use locations::Places;
pub use place::places;
pub use read::read_words;
pub use words::Words;

//! Complete lines of bytes that come in pieces.
//!
//! A line ends after the first terminator that begins at or after its first byte. Its content is what comes before
//! the terminator, with `auto` without one carriage return at its end; its head is the first bytes of the content, as
//! many as the rule keeps. The complete lines of bytes are a definition of `specs/`, as one whole list.
//!
//! A `Cutter` is made with a rule and the place of the first byte, and is fed pieces of any lengths. It hands out the
//! complete lines of all that it was fed, each once, in order, and none exactly if no other is complete; out of
//! memory it stays as before. It holds the head of a line that is not complete, and the bytes that were fed after the
//! last line handed out: once it has none to hand out, only the head. So contracts speak of a cutter by a relation to
//! the bytes that it was fed and the lines that it has handed out.
//!
//! The laws say that the definition is the one meant: the first terminator ends a line, lines adjoin, and the lines of
//! bytes stay their first lines however they go on. Nothing here reads a file.
#![tactic(auto)]

mod cutter;
mod end;
mod laws;
mod line;

pub use cutter::Cutter;
pub use laws::{first_terminator_ends_a_line, later_lines, lines_adjoin, lines_stay};
pub use line::Line;

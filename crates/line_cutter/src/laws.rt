ghost use Rattle.std.specs.Prelude.{◌≡◌, ℕ, ◌+◌, ◌-◌, ◌<◌, List, ◌∷◌, ◌++◌, length, take, drop};
ghost use Rattle.event_tree.specs.declared.line_rule.LineRule.{LineRule};
ghost use Rattle.event_tree.specs.declared.line_rule.Terminator.{Terminator};
ghost use Rattle.line_cutter.specs.declared.line.Line.{Line};
ghost use Rattle.line_cutter.specs.Cut.{cut, rest, line};
ghost use Rattle.line_cutter.specs.Lines.{complete_lines};
ghost use Rattle.line_cutter.specs.Row.{AreAdjoining};
ghost use Rattle.line_cutter.specs.Terminator.{StandsAt, terminator_of};

/// A line ends after the first terminator that begins at or after its first byte, and what follows is cut in the same
/// way; if there is none, no line ends. A law; it computes nothing.
pub fn first_terminator_ends_a_line()
    ensures first { (terminator : Terminator) (bytes : List ℕ) (place : ℕ) →
        StandsAt (terminator_of terminator) bytes place →
        ((earlier : ℕ) → earlier < place → ¬ (StandsAt (terminator_of terminator) bytes earlier)) →
        cut (terminator_of terminator) bytes ≡ line (take place bytes)
        (cut (terminator_of terminator) (drop (place + length (terminator_of terminator)) bytes)) }
    ensures none { (terminator : Terminator) (bytes : List ℕ) →
        ((place : ℕ) → ¬ (StandsAt (terminator_of terminator) bytes place)) →
        cut (terminator_of terminator) bytes ≡ rest bytes }
{}

/// The lines of bytes stay their first lines however they go on. A law; it computes nothing.
pub fn lines_stay()
    ensures { (rule : LineRule) (start : ℕ) (bytes more : List ℕ) →
        (later : List Line) × (complete_lines rule start (bytes ++ more) ≡ complete_lines rule start bytes ++ later) }
{}

/// The lines of bytes adjoin, from the place of the first byte on. A law; it computes nothing.
pub fn lines_adjoin()
    ensures { (rule : LineRule) (start : ℕ) (bytes : List ℕ) → AreAdjoining start (complete_lines rule start bytes) }
{}

/// The lines after one line of bytes are those of the bytes after it. A law; it computes nothing.
pub fn later_lines()
    ensures { (rule : LineRule) (start : ℕ) (bytes : List ℕ) (given : List Line) (line : Line) (more : List Line) →
        complete_lines rule start bytes ≡ given ++ line ∷ more →
        complete_lines rule line.span.end (drop (line.span.end - start) bytes) ≡ more }
{}

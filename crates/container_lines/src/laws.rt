ghost use Rattle.std.specs.Prelude.{◌≡◌, ◌++◌, [], List, true, false};
ghost use Rattle.line_cutter.specs.declared.line.Line.{Line};
ghost use Rattle.container_lines.specs.declared.format.Format.{Format};
ghost use Rattle.container_lines.specs.declared.format.Keep.{Keep};
ghost use Rattle.container_lines.specs.declared.format.Stream.{Stream};
ghost use Rattle.container_lines.specs.declared.told.Joined.{Joined};
ghost use Rattle.container_lines.specs.Joined.{joined_lines, parts_of, spans_of};
ghost use Rattle.container_lines.specs.Part.{is_kept};
ghost use Rattle.container_lines.specs.Parts.{stream_lines, waiting};

/// The lines of a stream that is kept are, in their order and each once, the parts of its joined lines and after them
/// the partial lines that wait; a stream that is not kept has no joined line. A law; it computes nothing.
pub fn each_line_once()
    ensures kept { (format : Format) (keep : Keep) (stream : Stream) (lines : List Line) →
        is_kept keep stream ≡ true →
        parts_of stream (joined_lines format keep lines)
        ++ spans_of (waiting (stream_lines format stream lines))
        ≡ spans_of (stream_lines format stream lines) }
    ensures not_kept { (format : Format) (keep : Keep) (stream : Stream) (lines : List Line) →
        is_kept keep stream ≡ false →
        parts_of stream (joined_lines format keep lines) ≡ [] }
{}

/// The joined lines of lines stay the first ones however the lines go on. A law; it computes nothing.
pub fn joined_lines_stay()
    ensures { (format : Format) (keep : Keep) (lines more : List Line) →
        (later : List Joined)
        × (joined_lines format keep (lines ++ more) ≡ joined_lines format keep lines ++ later) }
{}

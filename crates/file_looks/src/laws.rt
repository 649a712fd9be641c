ghost use Rattle.std.specs.Prelude.{◌≡◌, ◌≤◌, ℕ, List, ◌++◌, Option, Some, IfSome, Ok};
ghost use Rattle.std.specs.List.{AllByRecursion};
ghost use Rattle.outside.specs.declared.history.Look.{Look};
ghost use Rattle.outside.specs.declared.history.Sight.{Sight};
ghost use Rattle.outside.specs.Files.{File};
ghost use Rattle.outside.specs.Tails.{TailHistory, TellsLength, TellsRead};
ghost use Rattle.file_looks.specs.EndLook.{HasEndLook, HadReadTo};
ghost use Rattle.file_looks.specs.Going.{GoesOn, GoOn};
ghost use Rattle.file_looks.specs.Looks.{AreLooks, TellsLooks};
ghost use Rattle.file_looks.specs.Reading.{EachReadsLife, ReadOn, bytes_read};
ghost use Rattle.file_looks.specs.Segment.{AreSegments, Segment, read_to, segments_of, steps_in};
ghost use Rattle.file_looks.specs.Truncation.{SeesTruncations};

/// The segments of looks are all of them, in order: the first goes on from the given place, each other one begins
/// with a look that finds the length below the place up to which the one before it read, and no other look does. A
/// law; it computes nothing.
pub fn segments_are_cut_at_falls()
    ensures { (place : ℕ) (looks : List Look) → AreSegments place looks (segments_of place looks) }
{}

/// With more looks the last segment goes on, and others may follow. A law; it computes nothing.
pub fn segments_go_on()
    ensures { (place : ℕ) (looks more : List Look) →
        GoOn (segments_of place looks) (segments_of place (looks ++ more)) }
{}

/// The looks that a tail reports are of its file, and each is no earlier than the one before it: this holds after each call that
/// is a look. A law; it computes nothing.
pub fn tails_tell_looks()
    ensures length { (told : TailHistory) (answer : ℕ) (after : Option TailHistory) →
        TellsLooks told → TellsLength (Some told) (Ok answer) after → IfSome after TellsLooks }
    ensures read { (told : TailHistory) (at : ℕ) (into : List ℕ) (count : ℕ)
        (after : Option TailHistory) → TellsLooks told →
        TellsRead (Some told) at into (Ok count) after → IfSome after TellsLooks }
{}

/// If truncations are seen, each segment read the bytes of one life from its place on: of the life that was last
/// read before it, or, from the file's first byte on, of another. A law; it computes nothing.
pub fn reads_one_life()
    ensures { (file : File) (before : Sight) (place life : ℕ) (looks : List Look) →
        AreLooks file before looks →
        AllByRecursion (λ segment. ReadOn (steps_in segment)) (segments_of place looks) →
        SeesTruncations life (segments_of place looks) → EachReadsLife file life (segments_of place looks) }
{}

/// If truncations are seen at all looks, they are seen at the first ones. A law; it computes nothing.
pub fn truncations_were_seen()
    ensures { (life : ℕ) (before now : List Segment) → GoOn before now → SeesTruncations life now →
        SeesTruncations life before }
{}

/// What a segment read, and where it found the file's end, stays as it goes on. A law; it computes nothing.
pub fn findings_stay()
    ensures end_look { (before now : Segment) (place : ℕ) → GoesOn before now → HasEndLook before place →
        HasEndLook now place }
    ensures place { (before now : Segment) (place : ℕ) → GoesOn before now → HadReadTo before place →
        HadReadTo now place }
    ensures bytes { (file : File) (before now : Segment) → GoesOn before now →
        (later : List ℕ) × (bytes_read file now ≡ bytes_read file before ++ later) }
    ensures onward { (before now : Segment) → GoesOn before now → read_to before ≤ read_to now }
    ensures read_there { (segment : Segment) (place : ℕ) → HasEndLook segment place →
        HadReadTo segment place }
    ensures read_all { (segment : Segment) → HadReadTo segment (read_to segment) }
{}

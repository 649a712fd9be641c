ghost use Rattle.std.specs.Prelude.{◌≡◌};
ghost use Rattle.file_progress.specs.Texts.{state_text};

/// How a file and its row go together.
#[derive(Clone, Copy, Debug)]
pub enum State {
    /// It has a row, and is at least as long as the row's offset.
    Present,
    /// It has a row, and is shorter than the row's offset: it is to be read anew.
    Shorter,
    /// The scan found no file with the row's key.
    Gone,
    /// No row has its key.
    New,
    /// It has the key of a file with an earlier path, which is followed in its place.
    Doubled,
    /// It is too small for its fingerprint, and so it has no key.
    Small,
}

impl State {
    pub fn name(self) -> &'static str
        ensures { result.now ≡ state_text self }
    {
        match self {
            State::Present => "present",
            State::Shorter => "shorter",
            State::Gone => "gone",
            State::New => "new",
            State::Doubled => "doubled",
            State::Small => "small",
        }
    }
}

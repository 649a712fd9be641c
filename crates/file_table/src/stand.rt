ghost use Rattle.std.specs.Prelude.{◌≡◌};
ghost use Rattle.file_table.specs.Entries.{after_removal, has_tail};

/// The state of a known file (Filebeat reference, filestream input; this project's profile).
#[derive(Clone, Copy, Debug, PartialEq, Eq)]
pub enum Stand {
    /// It is present and has no open tail: it is opened after each scan that shows its key, until that succeeds.
    Waits,
    /// It is present and has an open tail.
    Open,
    /// It was removed while its tail was open, which is read to its end look and then closed.
    Ending(AfterEnd),
    /// Its tail was closed because the file was idle, and no scan found a change of it since.
    Closed,
    /// It was removed, has no open tail, and its row stays.
    Removed,
    /// It was removed and is to be forgotten, but its tail found another file: the next whole scan that shows no file with
    /// its key forgets it.
    Lost,
    /// It leaves the table as soon as no row of it is stored.
    Forgotten,
}

/// What becomes of a removed file once its tail is closed.
#[derive(Clone, Copy, Debug, PartialEq, Eq)]
pub enum AfterEnd {
    /// A scan showed it again: it is opened.
    Opens,
    /// Its row stays.
    Stays,
    /// It is forgotten.
    Goes,
}

impl Stand {
    pub fn has_tail(self) -> bool
        ensures { result ≡ has_tail self }
    {
        match self {
            Stand::Open | Stand::Ending(_) => true,
            Stand::Waits | Stand::Closed | Stand::Removed | Stand::Lost | Stand::Forgotten => false,
        }
    }
}

impl AfterEnd {
    /// Of a file that was removed; whether such files of its input are to be forgotten.
    pub(crate) fn of_removed(clean: bool) -> AfterEnd
        ensures { result ≡ after_removal clean }
    {
        if clean {
            AfterEnd::Goes
        } else {
            AfterEnd::Stays
        }
    }
}

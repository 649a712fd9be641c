ghost use Rattle.std.specs.Prelude.{◌≡◌, List, [], ◌∷◌, ◌++◌};
ghost use Rattle.std.specs.Borrow.{ftrue};
ghost use Rattle.wire_base.specs.declared.note.Note.{Note};

use std::fmt;
use std::marker::Model;
use wire_base::Note;

/// The notes that it was given. It has no bytes: only contracts read it.
#[derive(Drop)]
pub(crate) struct History {
    pub ghost notes: { List Note },
}

impl Model for History {
    ghost also_owns = { λ _. ftrue };
}

// It owns nothing.
unsafe impl Send for History {}

impl History {
    pub(crate) fn new() -> History
        ensures { result.notes ≡ [] }
    {
        History {}
    }

    pub(crate) fn again(&self) -> History
        ensures { result.notes ≡ self.now.notes }
    {
        History {}
    }

    pub(crate) fn and(&self, _note: &Note) -> History
        ensures { result.notes ≡ self.now.notes ++ _note.now ∷ [] }
    {
        History {}
    }
}

impl fmt::Debug for History {
    fn fmt<W: fmt::Write>(&self, f: &mut fmt::Formatter<W>) -> fmt::Result {
        f.write_str("History")
    }
}

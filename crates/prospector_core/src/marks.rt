ghost use Rattle.std.specs.Prelude.{◌≡◌, map};
ghost use Rattle.prospector_core.specs.Marks.{cleared, settled_one};

use crate::Known;
use std::mem;
use wire_base::Text;

/// What the members of a scan so far show of a known file.
#[derive(Debug, Drop)]
pub enum Mark {
    Unseen,
    /// Shown while it waits to be forgotten.
    Held,
    /// Shown with this size, and under this path if it is another.
    Shown { size: u64, path: Option<Text> },
}

/// A known file with its mark.
#[derive(Debug, Drop)]
pub struct Watched {
    pub file: Known,
    pub mark: Mark,
    /// It was forgotten, and leaves with the next scan.
    pub gone: bool,
}

/// No member was looked at yet, and none of the files is gone.
pub fn clear_marks(watched: &mut [Watched])
    ensures { watched.new ≡ map cleared watched.old }
{
    for one in watched.iter_mut() {
        one.mark = Mark::Unseen;
        one.gone = false;
    }
}

/// The files become what their marks say.
pub fn settle(watched: &mut [Watched], whole: bool)
    ensures { watched.new ≡ map (settled_one whole) watched.old }
{
    for one in watched.iter_mut() {
        settle_one(one, whole);
    }
}

fn settle_one(one: &mut Watched, whole: bool)
    ensures { one.new ≡ settled_one whole one.old }
{
    match mem::replace(&mut one.mark, Mark::Unseen) {
        Mark::Unseen => {
            if whole {
                one.file.present = false;
            }
        }
        Mark::Held => {}
        Mark::Shown { size, path } => {
            one.file.size = size;
            one.file.present = true;
            if let Some(path) = path {
                one.file.path = path;
            }
        }
    }
}

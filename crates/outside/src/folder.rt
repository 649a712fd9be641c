ghost use Rattle.std.specs.Prelude.{◌≡◌, ℕ, ◌-◌, ◌≤◌, List, All, Option, IfOk, IsErrOf};
ghost use Rattle.outside.specs.Counts.{Rose, added_counts};
ghost use Rattle.outside.specs.declared.history.Sight.{Sight};
ghost use Rattle.outside.specs.declared.history.Shown.{Shown};
ghost use Rattle.outside.specs.Files.{NoneEarlier};
ghost use Rattle.outside.specs.Folders.{FolderHistory, TellsListing, TellsOpening, TellsClosing, IsListable, StartsFresh, count_after_opening};

use crate::{Entry, FolderError, Tail};
use std::alloc::Global;
use wire_base::Text;

/// The folders of a machine, as they are listed and opened while others change them.
pub trait Folder {
    type Tail: Tail;

    /// Its files and the list of what was done so far, if they are known.
    ghost told: { Self → Option FolderHistory };

    /// What a call now finds of each file, by the file's number, if anything is known of the folder. Open
    /// tails may have seen more.
    ghost states: { Self → List Sight };

    /// The regular files that a call now finds, if anything is known of the folder.
    ghost present: { Self → List Shown };

    /// How many tails are open.
    ghost open_tails: { Self → ℕ };

    /// How often it has failed, its closed tails' counts included.
    ghost faults: { Self → ℕ };

    /// The regular files at most `depth` path parts below `root`, as they are at one moment; paths of
    /// more than `MAX_PATH` bytes are skipped. A root that is not there has none.
    fn list(&mut self, alloc: Global, root: &Text, depth: u32) -> Result<Vec<Entry>, FolderError>
        ensures in_range { IfOk result (λ entries. All IsListable entries.items) }
        ensures told { TellsListing (told self.old) (states self.old) (present self.old) root.now depth result (told self.new) (faults self.new) }
        ensures states_go_on { NoneEarlier (states self.old) (states self.new) }
        ensures open_tails_kept { open_tails self.new ≡ open_tails self.old }
        ensures faults_never_fall { faults self.old ≤ faults self.new }
        ensures failed_only_where_faults_rose { IsErrOf result FolderError.Failed → Rose (faults self.old) (faults self.new) };

    /// Opens the file of this path; `None` only if no file has it at that moment.
    fn open(&mut self, alloc: Global, path: &Text) -> Result<Option<Self::Tail>, FolderError>
        ensures told { TellsOpening Self.Tail.told Self.Tail.numbers (told self.old) (states self.old) (present self.old) path.now result (told self.new) }
        ensures states_go_on { NoneEarlier (states self.old) (states self.new) }
        ensures counts_open_tails { open_tails self.new ≡ count_after_opening (open_tails self.old) result }
        ensures starts_without_faults { StartsFresh Self.Tail.faults result }
        ensures faults_never_fall { faults self.old ≤ faults self.new }
        ensures failed_only_where_faults_rose { IsErrOf result FolderError.Failed → Rose (faults self.old) (faults self.new) };

    /// Takes a tail back, and its looks and its count of faults with it. Takes no memory.
    fn close(&mut self, tail: Self::Tail)
        ensures told { TellsClosing (told self.old) (Self.Tail.told tail) (Self.Tail.faults tail) (told self.new) }
        ensures states_go_on { NoneEarlier (states self.old) (states self.new) }
        ensures counts_open_tails { open_tails self.new ≡ open_tails self.old - 1 }
        ensures counts_faults { added_counts (faults self.old) (Self.Tail.faults tail) ≤ faults self.new };
}

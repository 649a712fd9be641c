ghost use Rattle.std.specs.Prelude.{◌≡◌, IfOk, IfSome, Option};
ghost use Rattle.findings.specs.System.{SystemTold};

use crate::{Place, Skipped};
use glob_paths::Glob;
use std::alloc::Global;
use wire_base::{NoMemory, Text};

/// What the system answers beside what is in files. No call changes anything.
pub trait System {
    /// What it answers, if that is known.
    ghost told: { Self → Option SystemTold };

    fn place(&self, path: &Text) -> Place
        ensures { IfSome (told self.now) (λ told. result ≡ told.place path.now) };

    /// What lies within the reach of the glob and is passed over by a run, or ends it.
    fn skipped(&self, alloc: Global, glob: &Glob) -> Result<Vec<Skipped>, NoMemory>
        ensures { IfOk result
            (λ skipped. IfSome (told self.now) (λ told. skipped.items ≡ told.skipped glob.now)) };

    /// Why the file cannot be opened for reading, in the system's words; `None` if it can.
    fn refusal(&self, alloc: Global, path: &Text) -> Result<Option<Text>, NoMemory>
        ensures { IfOk result
            (λ reason. IfSome (told self.now) (λ told. reason ≡ told.refusal path.now)) };

    /// Why the registry of this folder cannot be written; `None` if it can, as far as that shows without a write.
    fn write_refusal(&self, alloc: Global, folder: &Text) -> Result<Option<Text>, NoMemory>
        ensures { IfOk result
            (λ reason. IfSome (told self.now) (λ told. reason ≡ told.write_refusal folder.now)) };

    /// How many files the process may have open; `None` if there is no limit, or none is known.
    fn open_limit(&self) -> Option<u64>
        ensures { IfSome (told self.now) (λ told. result ≡ told.open_limit) };
}

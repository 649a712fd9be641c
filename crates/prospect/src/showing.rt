ghost use Rattle.std.specs.Prelude.{◌↔◌, IsTrue, OnOk};
ghost use Rattle.prospect.specs.Showings.{AddsEntry, HasNumbers, entries_of};

use outside::Entry;
use wire_base::NoMemory;

/// What the listings showed of one path: an entry for each of the native numbers that it had.
#[derive(Debug, Drop)]
pub struct Showing {
    pub first: Entry,
    /// Those of other numbers, as of a file that took the path between two listings.
    pub others: Vec<Entry>,
}

impl Showing {
    /// Adds an entry, if none with its native numbers is there.
    pub fn add(&mut self, entry: Entry) -> Result<(), NoMemory>
        ensures { OnOk result
            (AddsEntry entry (entries_of self.old) (entries_of self.new)) }
    {
        if self.has(entry.native) {
            return Ok(());
        }
        self.others.push(entry)?;
        Ok(())
    }

    fn has(&self, native: Option<(u64, u64)>) -> bool
        ensures { IsTrue result ↔ HasNumbers (entries_of self.now) native }
    {
        self.first.native == native || self.others.iter().any(|other| other.native == native)
    }
}

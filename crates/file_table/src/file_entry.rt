ghost use Rattle.std.specs.Prelude.{◌≡◌};
ghost use Rattle.file_table.specs.Entries.{begun_entry, created_entry, deed_of, next_entry, opening_at, removed_stand, shut_stand, waits_in};

use crate::{AfterEnd, At, Closing, Deed, FileNews, Stand};
use wire_base::Epoch;

/// What the registry has of a file.
#[derive(Clone, Copy, Debug, PartialEq, Eq)]
pub enum Registered {
    Nothing,
    /// A row that was there as the run began.
    Row,
    /// A Begin of this run.
    Begin,
}

/// A known file.
#[derive(Clone, Copy, Debug, PartialEq, Eq)]
pub struct FileEntry {
    pub registered: Registered,
    /// The place from which it goes on: the end of the last span of a closed tail, or the place of its opening or its begin.
    pub at: At,
    /// The number of the scan that showed its key last.
    pub shown: Option<u64>,
    pub stand: Stand,
}

impl FileEntry {
    /// A file with which the run begins; whether a row of it is stored.
    pub(crate) fn begun(at: At, row: bool) -> FileEntry
        ensures { result ≡ begun_entry at row }
    {
        FileEntry {
            registered: if row {
                Registered::Row
            } else {
                Registered::Nothing
            },
            at,
            shown: None,
            stand: Stand::Waits,
        }
    }

    /// A file that a scan shows for the first time.
    pub(crate) fn created() -> FileEntry
        ensures { result ≡ created_entry }
    {
        FileEntry::begun(
            At {
                epoch: Epoch(0),
                place: 0,
            },
            false,
        )
    }

    /// The place at which it is opened when it was listed with this size in bytes: `at`, if it is not shorter than that, and
    /// else the first byte of the next epoch. `None` exactly if that epoch would be above the last one,
    /// 4,294,967,295.
    pub fn opening(&self, size: u64) -> Option<At>
        ensures { result ≡ opening_at self.now.at size }
    {
        if self.at.place <= size {
            return Some(self.at);
        }
        let epoch = self.at.epoch.0.checked_add(1)?;
        Some(At {
            epoch: Epoch(epoch),
            place: 0,
        })
    }

    /// Whether it is to be opened after the scan of this number.
    pub fn waits_in(&self, scan: u64) -> bool
        ensures { result ≡ waits_in scan self.now }
    {
        matches!(self.stand, Stand::Waits) && self.shown == Some(scan)
    }

    /// Takes in one piece of news; what it asks for.
    pub(crate) fn hear(&mut self, news: FileNews) -> Deed
        ensures next { self.new ≡ next_entry news self.old }
        ensures deed { result ≡ deed_of news self.old }
    {
        match news {
            FileNews::Returned => self.hear_returned(),
            FileNews::Renamed { scan } => self.hear_renamed(scan),
            FileNews::Resized => self.hear_resized(),
            FileNews::Removed { clean } => self.hear_removed(clean),
            FileNews::Shown { scan } => {
                self.shown = Some(scan);
                Deed::Nothing
            }
            FileNews::Missed => self.hear_missed(),
            FileNews::Opened { at } => {
                self.stand = Stand::Open;
                self.registered = Registered::Begin;
                self.at = at;
                Deed::Nothing
            }
            FileNews::Shut { at, closing } => self.hear_shut(at, closing),
        }
    }

    fn hear_returned(&mut self) -> Deed
        ensures next { self.new ≡ next_entry FileNews.Returned self.old }
        ensures deed { result ≡ Deed.Nothing }
    {
        self.stand = match self.stand {
            Stand::Open => Stand::Open,
            Stand::Ending(_) => Stand::Ending(AfterEnd::Opens),
            Stand::Waits | Stand::Closed | Stand::Removed | Stand::Lost | Stand::Forgotten => {
                Stand::Waits
            }
        };
        Deed::Nothing
    }

    fn hear_renamed(&self, scan: u64) -> Deed
        ensures { result ≡ deed_of (FileNews.Renamed scan) self.now }
    {
        match self.registered {
            Registered::Begin => Deed::Rename { scan },
            Registered::Nothing | Registered::Row => Deed::Nothing,
        }
    }

    fn hear_resized(&mut self) -> Deed
        ensures next { self.new ≡ next_entry FileNews.Resized self.old }
        ensures deed { result ≡ deed_of FileNews.Resized self.old }
    {
        match self.stand {
            Stand::Open | Stand::Ending(_) => Deed::Stir,
            Stand::Closed => {
                self.stand = Stand::Waits;
                Deed::Nothing
            }
            Stand::Waits | Stand::Removed | Stand::Lost | Stand::Forgotten => Deed::Nothing,
        }
    }

    fn hear_removed(&mut self, clean: bool) -> Deed
        ensures next { self.new ≡ next_entry (FileNews.Removed clean) self.old }
        ensures deed { result ≡ deed_of (FileNews.Removed clean) self.old }
    {
        if self.stand.has_tail() {
            self.stand = Stand::Ending(AfterEnd::of_removed(clean));
            return Deed::End;
        }
        match self.registered {
            Registered::Nothing => {
                self.stand = Stand::Forgotten;
                Deed::Drop
            }
            Registered::Row => {
                self.registered = Registered::Begin;
                self.stand = removed_stand(clean);
                Deed::BeginRemoved { forget: clean }
            }
            Registered::Begin => {
                self.stand = removed_stand(clean);
                if clean {
                    Deed::Forget(self.at)
                } else {
                    Deed::Nothing
                }
            }
        }
    }

    fn hear_missed(&mut self) -> Deed
        ensures next { self.new ≡ next_entry FileNews.Missed self.old }
        ensures deed { result ≡ deed_of FileNews.Missed self.old }
    {
        if !matches!(self.stand, Stand::Lost) {
            return Deed::Nothing;
        }
        self.stand = Stand::Forgotten;
        Deed::Forget(self.at)
    }

    fn hear_shut(&mut self, at: At, closing: Closing) -> Deed
        ensures next { self.new ≡ next_entry (FileNews.Shut at closing) self.old }
        ensures deed { result ≡ deed_of (FileNews.Shut at closing) self.old }
    {
        self.at = at;
        self.stand = shut_stand(self.stand, closing);
        match self.stand {
            Stand::Forgotten => Deed::Forget(at),
            _ => Deed::Nothing,
        }
    }
}

/// A file without a tail that was removed; whether such files of its input are to be forgotten.
fn removed_stand(clean: bool) -> Stand
    ensures { result ≡ removed_stand clean }
{
    if clean {
        Stand::Forgotten
    } else {
        Stand::Removed
    }
}

/// The state of a file whose tail was closed in this state.
fn shut_stand(stand: Stand, closing: Closing) -> Stand
    ensures { result ≡ shut_stand closing stand }
{
    match (stand, closing) {
        (Stand::Ending(AfterEnd::Opens), _) => Stand::Waits,
        (Stand::Ending(AfterEnd::Stays), _) => Stand::Removed,
        (Stand::Ending(AfterEnd::Goes), Closing::Changed) => Stand::Lost,
        (Stand::Ending(AfterEnd::Goes), _) => Stand::Forgotten,
        (_, Closing::Idle) => Stand::Closed,
        (_, _) => Stand::Waits,
    }
}

ghost use Rattle.std.specs.Prelude.{◌≡◌, ◌∷◌, ◌++◌, [], ◌+◌, ◌-◌, ◌^◌, ◌<◌, ◌≤◌, length, replicate, IfOk, IfSome};
ghost use Rattle.outside.specs.Folders.{ListingFailed};
ghost use Rattle.outside_mem.specs.Happenings.{events_of, event_of};

use outside::{Look, Shown, Sight};
use std::alloc::Global;
use std::mem;
use wire_base::{NoMemory, Text};

/// One thing that was done with a folder.
#[derive(Drop)]
pub(crate) enum Happened {
    Listed {
        root: Text,
        depth: u32,
        shown: Vec<Shown>,
    },
    Opened {
        path: Text,
        file: u64,
        sight: Sight,
    },
    NotThere {
        path: Text,
    },
    OpeningFailed {
        path: Text,
    },
    Closed {
        opening: Opening,
        looks: Vec<Look>,
        faults: u64,
    },
}

/// The place of an opening in a log: how many other things, and how many failed listings, come before it.
#[derive(Clone, Copy)]
pub(crate) struct Opening {
    pub(crate) noted: u64,
    pub(crate) failed: u64,
}

#[cycle(log)]
#[derive(Drop)]
enum Link {
    Start,
    After(Box<Node>),
}

#[cycle(log)]
#[derive(Drop)]
struct Node {
    before: Link,
    /// How many listings failed since the one before.
    failed_before: u64,
    happened: Happened,
}

/// Room in a log for one thing more, so that a closing takes no memory.
#[derive(Drop)]
pub(crate) struct Room {
    node: Box<Node>,
}

/// What was done with a folder, in order. A failed listing takes no memory, and is counted.
#[derive(Drop)]
pub(crate) struct Log {
    last: Link,
    /// How many listings failed since the last.
    failed: u64,
    noted: u64,
    /// How many listings failed in all.
    pub(crate) failed_in_all: u64,
    // A count that is at its end counts no more.
    ghost counted: { noted < 2 ^ 64 - 1 → length (events_of last ++ replicate failed ListingFailed) ≡ noted + failed_in_all },
    ghost few_since: { failed ≤ failed_in_all },
}

impl Log {
    ghost use Rattle.outside_mem.specs.Logs.{log_events, happened_in};

    pub(crate) fn new() -> Log
        ensures nothing { log_events result ≡ [] }
        ensures no_failure { result.failed_in_all ≡ 0 }
    {
        Log {
            last: Link::Start,
            failed: 0,
            noted: 0,
            failed_in_all: 0,
        }
    }

    /// The place of the thing that is noted next; `None` if it cannot be counted.
    pub(crate) fn next_place(&self) -> Option<Opening>
        ensures { IfSome result (λ place. place.noted + place.failed ≡ length (log_events self.now)) }
    {
        if self.noted == u64::MAX {
            return None;
        }
        Some(Opening {
            noted: self.noted,
            failed: self.failed_in_all,
        })
    }

    /// Adds one thing. Takes no memory.
    pub(crate) fn note(&mut self, room: Room)
        ensures noted { log_events self.new ≡ log_events self.old ++ event_of (happened_in room) ∷ [] }
        ensures no_failure { self.new.failed_in_all ≡ self.old.failed_in_all }
    {
        let mut node = room.node;
        node.failed_before = mem::replace(&mut self.failed, 0);
        node.before = mem::replace(&mut self.last, Link::Start);
        self.last = Link::After(node);
        self.noted = self.noted.saturating_add(1);
    }

    /// Adds a failed listing. Takes no memory.
    pub(crate) fn note_failure(&mut self)
        requires { self.old.failed_in_all < 2 ^ 64 - 1 }
        ensures noted { log_events self.new ≡ log_events self.old ++ ListingFailed ∷ [] }
        ensures counted { self.new.failed_in_all ≡ self.old.failed_in_all + 1 }
    {
        self.failed += 1;
        self.failed_in_all += 1;
    }
}

impl Room {
    ghost use Rattle.outside_mem.specs.Logs.{happened_in};

    pub(crate) fn new(alloc: Global, happened: Happened) -> Result<Room, NoMemory>
        ensures { IfOk result (λ room. happened_in room ≡ happened) }
    {
        let node = Node {
            before: Link::Start,
            failed_before: 0,
            happened,
        };
        Ok(Room {
            node: Box::new(alloc, node)?,
        })
    }

    /// Says what the room is for in place of what was said before.
    pub(crate) fn fill(&mut self, happened: Happened)
        ensures { happened_in self.new ≡ happened }
    {
        self.node.happened = happened;
    }
}

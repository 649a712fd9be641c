ghost use Rattle.std.specs.Prelude.{◌≡◌, ◌≤◌, Some, [], IfOk, IfSome};

use crate::failing::FailingCalls;
use crate::failures::Failures;
use crate::link::{LinkEnd, MemLink};
use crate::outcomes::Outcomes;
use crate::talk::MemTalk;
use outside::{Failed, Wire};
use std::alloc::Global;
use wire_base::{Host, NoMemory, Piece};

/// The calls that fail on the link of one number.
#[derive(Drop)]
struct LinkFailures {
    link: u32,
    sends: Vec<u64>,
    recvs: Vec<u64>,
}

impl LinkFailures {
    fn add_to(&self, sends: &mut FailingCalls, recvs: &mut FailingCalls) -> Result<(), NoMemory> {
        sends.fail_at(&self.sends)?;
        recvs.fail_at(&self.recvs)
    }
}

/// Peers in memory, all known.
#[derive(Drop)]
pub struct MemWire {
    alloc: Global,
    /// The talks of the connections to come, the next one last.
    talks: Vec<MemTalk>,
    link_failures: Vec<LinkFailures>,
    /// How many connections succeeded.
    made: u64,
    unfinished: u64,
    idles: u64,
    failures: Failures,
    outcomes: Outcomes,
    ghost refused_are_faults: { outcomes.refused ≤ failures.faults },
}

impl MemWire {
    ghost use Rattle.outside.specs.Counts.{added_counts};
    ghost use Rattle.outside_mem.specs.Asked.{wire_asked};
    ghost use Rattle.outside_mem.specs.LinkHistories.{IsFresh};
    ghost use Rattle.outside_mem.specs.MemWires.{IsSame};
    ghost use Rattle.outside_mem.specs.Outcomes.{last_talk};

    /// The connection number i that succeeds, from 0, has talk i, and one past the last talk has `All`.
    pub fn new(alloc: Global, mut talks: Vec<MemTalk>) -> Result<MemWire, NoMemory>
        ensures outcomes { IfOk result (λ wire. ⟦<MemWire as Wire>⟧.outcomes wire ≡ Some []) }
        ensures open_links { IfOk result (λ wire. ⟦<MemWire as Wire>⟧.open_links wire ≡ 0) }
        ensures faults { IfOk result (λ wire. ⟦<MemWire as Wire>⟧.faults wire ≡ 0) }
        ensures idles { IfOk result (λ wire. ⟦<MemWire as Wire>⟧.idles wire ≡ 0) }
        ensures asked { IfOk result (λ wire. wire_asked wire ≡ 0) }
    {
        talks.reverse();
        Ok(MemWire {
            alloc,
            talks,
            link_failures: Vec::new(alloc),
            made: 0,
            unfinished: 0,
            idles: 0,
            failures: Failures::new(alloc),
            outcomes: Outcomes::new(),
        })
    }

    /// Names the connects that fail, counted from 0.
    pub fn fail_at(&mut self, calls: &[u64]) -> Result<(), NoMemory>
        ensures { IsSame self.old self.new }
    {
        self.failures.fail_at(calls)
    }

    /// Names the sends and the receives that fail, each counted from 0, on the link of that number,
    /// counted from 0 over the connections that succeed. It is observed if that link is still to come.
    pub fn fail_link_at(&mut self, link: u32, sends: &[u64], recvs: &[u64]) -> Result<(), NoMemory>
        ensures { IsSame self.old self.new }
    {
        let sends = sends.to_vec(self.alloc)?;
        let recvs = recvs.to_vec(self.alloc)?;
        self.link_failures
            .push(LinkFailures { link, sends, recvs })?;
        Ok(())
    }

    /// What was sent and received over the link that was finished last; nothing if none was.
    pub fn last_talk(&self) -> &[Piece]
        ensures { IfSome (⟦<MemWire as Wire>⟧.outcomes self.now) (λ outcomes. result.now ≡ last_talk [] outcomes) }
    {
        self.outcomes.last_talk()
    }

    /// How often it failed because it was out of memory, its finished links included.
    pub fn starved(&self) -> u64
        ensures { ⟦<MemWire as Wire>⟧.faults self.now ≡ added_counts result (wire_asked self.now) }
    {
        self.failures.starved
    }

    /// A link of the next number.
    fn next_link(&self) -> Result<MemLink, NoMemory>
        ensures fresh { IfOk result (λ link. IsFresh link.history) }
        ensures no_failed_send { IfOk result (λ link. link.failed_sends ≡ 0) }
    {
        let mut sends = FailingCalls::new(self.alloc);
        let mut recvs = FailingCalls::new(self.alloc);
        for named in &self.link_failures {
            if u64::from(named.link) == self.made {
                named.add_to(&mut sends, &mut recvs)?;
            }
        }
        MemLink::new(self.alloc, sends, recvs)
    }
}

impl Wire for MemWire {
    ghost use Rattle.outside_mem.specs.Outcomes.{told};

    type Link = MemLink;

    ghost outcomes = { λ w. Some (told w.outcomes) };

    ghost open_links = { λ w. w.unfinished };

    ghost faults = { λ w. w.failures.faults };

    ghost idles = { λ w. w.idles };

    fn connect(&mut self, _host: &Host) -> Result<MemLink, Failed> {
        if self.failures.next_call_fails() {
            self.outcomes.refuse();
            return Err(Failed);
        }
        match self.next_link() {
            Ok(link) => {
                self.made = self.made.saturating_add(1);
                self.unfinished = self.unfinished.saturating_add(1);
                let talk = self.talks.pop().unwrap_or(MemTalk::All);
                Ok(link.with_talk(talk))
            }
            Err(_) => {
                self.failures.starve();
                self.outcomes.refuse();
                Err(Failed)
            }
        }
    }

    fn finish(&mut self, link: MemLink) {
        let LinkEnd {
            history,
            starved,
            asked,
            node,
        } = link.into_end();
        self.unfinished = self.unfinished.saturating_sub(1);
        self.idles = self.idles.saturating_add(history.idles);
        self.failures.include(starved, asked);
        self.outcomes.finish(node, history);
    }
}

ghost use Rattle.std.specs.Prelude.{◌≡◌, ◌%◌, ◌<◌, ◌≤◌, List, [], length, None, Some, Option, IfOk, IfErr, IsSome, MatchOption, slice_get};
ghost use Rattle.std.specs.VecDeque.{deque_capacity};
ghost use Rattle.outside.specs.Wires.{Outcome};
ghost use Rattle.lumber_client.specs.Exchange.{no_exchange};
ghost use Rattle.lumber_client.specs.Held.{nothing_held};
ghost use Rattle.lumber_client.specs.Standing.{StandsFor as WindowStandsFor};
ghost use Rattle.batch_worker.specs.Begun.{begun_with, without_passes, with_passes};
ghost use Rattle.batch_worker.specs.Rests.{IsResting, rest_after, rest_end};
ghost use Rattle.batch_worker.specs.Rule.{IsWorkable};
ghost use Rattle.batch_worker.specs.Standing.{StandsFor, length_of};

use event_tree::OutputRule;
use lumber_client::Window;
use mem_queue::TakePass;
use outside::Link;
use settle_box::PostPass;
use std::alloc::Global;
use std::collections::VecDeque;
use std::marker::Model;
use std::mem;
use wire_base::{Host, Moment, NoMemory, Note};

/// The rest after the first failure, in milliseconds.
pub const FIRST_REST: u64 = 1_000;

/// The longest rest, in milliseconds.
pub const LONGEST_REST: u64 = 60_000;

/// One worker, which carries parcels of the queue to its peer and posts what the peer acknowledged.
/// Only `end` closes it.
pub struct Worker<L> {
    pub(crate) host: Host,
    pub(crate) timeout: u64,
    pub(crate) take: Option<TakePass>,
    pub(crate) post: Option<PostPass>,
    pub(crate) link: Option<L>,
    pub(crate) window: Window,
    /// The note of the parcel that was handed out last, if the box refused it.
    pub(crate) refused: Option<Note>,
    pub(crate) failures: u32,
    pub(crate) failed: Moment,
    /// When each window in flight was out, the oldest first.
    pub(crate) outs: VecDeque<Moment>,
    pub(crate) heard: Moment,
}

impl<L> Model for Worker<L> {
    ghost use Rattle.batch_worker.specs.Working.{Working};

    ghost Value = { Working L };

    ghost use Rattle.batch_worker.specs.Sound.{IsSound};

    ghost view = { λ w. record {
      host = w.host;
      timeout = w.timeout;
      take = w.take;
      post = w.post;
      link = w.link;
      window = w.window;
      refused = w.refused;
      failures = w.failures;
      failed = w.failed;
      outs = w.outs.items;
      heard = w.heard;
    } };

    ghost invariant = { λ w. IsSound w };
}

impl<L: Link> Worker<L> {
    /// A worker without a link, for the host of its number modulo the number of hosts. All memory is
    /// taken here.
    pub fn new(
        alloc: Global,
        number: u32,
        rule: &OutputRule,
        take: TakePass,
        post: PostPass,
    ) -> Result<Worker<L>, (TakePass, PostPass)>
        requires { IsWorkable rule.now }
        ensures host { IfOk result (λ worker.
            slice_get rule.now.hosts (number % length rule.now.hosts) ≡ Some worker.host) }
        ensures begun { IfOk result (λ worker. worker ≡ begun_with worker.host rule.now take post) }
        ensures stands { IfOk result (λ worker. (outcomes : Option (List Outcome)) →
            StandsFor L.told (length_of outcomes) worker outcomes []) }
        ensures given_back { IfErr result (λ back. (back.0 ≡ take) × (back.1 ≡ post)) }
    {
        match parts(alloc, number, rule) {
            Ok((host, window, outs)) => Ok(Worker {
                host,
                timeout: rule.timeout,
                take: Some(take),
                post: Some(post),
                link: None,
                window,
                refused: None,
                failures: 0,
                failed: Moment(0),
                outs,
                heard: Moment(0),
            }),
            Err(_) => Err((take, post)),
        }
    }

    /// How many failures in a row had no new acknowledgement between them; the number saturates
    /// at 4,294,967,295.
    pub fn failures(&self) -> u32
        ensures { result ≡ self.now.failures }
    {
        self.failures
    }

    /// Takes the worker's passes out.
    pub fn lay_down(&mut self) -> (TakePass, PostPass)
        requires passes { IsSome self.old.take × IsSome self.old.post }
        ensures laid_down { self.new ≡ without_passes self.old }
        ensures passes { (self.old.take ≡ Some result.0) × (self.old.post ≡ Some result.1) }
    {
        match (mem::take(&mut self.take), mem::take(&mut self.post)) {
            (Some(take), Some(post)) => (take, post),
            _ => unreachable!(),
        }
    }

    /// Gives passes to a worker that has none.
    pub fn take_up(&mut self, take: TakePass, post: PostPass)
        requires { (self.old.take ≡ None) × (self.old.post ≡ None) }
        ensures { self.new ≡ with_passes self.old take post }
    {
        self.take = Some(take);
        self.post = Some(post);
    }

    /// Until when it rests.
    pub(crate) fn rest_until(&self, now: Moment) -> Option<Moment>
        ensures { MatchOption result (¬ (IsResting self.now now.0))
            (λ until. IsResting self.now now.0 × (until.0 ≡ rest_end self.now)) }
    {
        let _ = &self.failed;
        if self.failures == 0 {
            return None;
        }
        let until = self.failed.0 + rest_after(self.failures);
        if now.0 < until {
            Some(Moment(until))
        } else {
            None
        }
    }
}

/// How long a worker rests after this many failures in a row, in milliseconds.
fn rest_after(failures: u32) -> u64
    requires { 0 < failures }
    ensures { result ≡ rest_after failures }
{
    match failures {
        1 => FIRST_REST,
        2 => 2 * FIRST_REST,
        3 => 4 * FIRST_REST,
        4 => 8 * FIRST_REST,
        5 => 16 * FIRST_REST,
        6 => 32 * FIRST_REST,
        _ => LONGEST_REST,
    }
}

/// What a worker takes memory for: its host's name, its window, and room for moments.
fn parts(
    alloc: Global,
    number: u32,
    rule: &OutputRule,
) -> Result<(Host, Window, VecDeque<Moment>), NoMemory>
    requires { IsWorkable rule.now }
    ensures host { IfOk result (λ made.
        slice_get rule.now.hosts (number % length rule.now.hosts) ≡ Some made.0) }
    ensures window { IfOk result (λ made. made.1 ≡ nothing_held rule.now.bulk_max_size rule.now.pipelining) }
    ensures stands { IfOk result (λ made. WindowStandsFor made.1 no_exchange) }
    ensures no_moments { IfOk result (λ made. made.2.items ≡ []) }
    ensures room { IfOk result (λ made. rule.now.pipelining ≤ deque_capacity made.2) }
{
    let hosts = rule.hosts.as_slice();
    let host = copy_host(alloc, &hosts[number as usize % hosts.len()])?;
    let window = Window::new(alloc, rule.bulk_max_size, rule.pipelining)?;
    let outs = VecDeque::with_capacity(alloc, rule.pipelining as usize)?;
    Ok((host, window, outs))
}

fn copy_host(alloc: Global, host: &Host) -> Result<Host, NoMemory>
    ensures { IfOk result (λ copy. copy ≡ host.now) }
{
    Ok(Host {
        name: host.name.copy(alloc)?,
        port: host.port,
    })
}

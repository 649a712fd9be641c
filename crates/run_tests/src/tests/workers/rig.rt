//! One worker with its queue and its box, and what its peers do.
ghost use Rattle.std.specs.Prelude.{◌≡◌, ◌<◌, ◌≤◌, IfOk, IfSome};
ghost use Rattle.wire_base.specs.declared.numbers.TheConstants.{MAX_MOMENT};
ghost use Rattle.wire_base.specs.declared.parcel.TheConstants.{MAX_PAYLOAD};
ghost use Rattle.wire_base.specs.Ranges.{IsParcel};
ghost use Rattle.batch_worker.specs.Rule.{IsWorkable};
ghost use Rattle.batch_worker.specs.Steps.{PostsOf, TakesOf};
ghost use Rattle.run_tests.specs.Passes.{posts_fact, takes_fact};

use batch_worker::{Worker, WorkerTurn};
use event_tree::{Hosts, OutputRule};
use mem_queue::{EventQueue, PutPass};
use outside::{Link, Wire};
use settle_box::{CollectPass, SettleBox};
use std::alloc::Global;
use std::sync::Wait;
use std::test::Fail;
use wire_base::{Blob, Cause, Epoch, Host, Moment, Note, Parcel, Slot, Span, Text};

/// How long a peer may be silent, in milliseconds.
pub const TIMEOUT: u64 = 5_000;

/// How many parcels the queue holds.
const QUEUED: u32 = 512;

/// No worker is turned more often until it waits, and no box is asked more often until it is empty.
const MOST_TURNS: u32 = 100_000;

/// What a worker and its box are made for.
#[derive(Clone, Copy)]
pub struct Sizes {
    /// The most parcels of a window.
    pub most: u32,
    /// The most windows in flight.
    pub depth: u32,
    /// How many notes the box holds.
    pub places: u32,
    ghost some: { 0 < most },
    ghost deep: { 0 < depth },
    ghost room: { 0 < places },
}

/// A worker that has its queue and its box to itself. A parcel's name is the byte at which its span starts.
pub struct Rig<L> {
    pub worker: Worker<L>,
    queue: EventQueue,
    put: PutPass,
    desk: SettleBox,
    collect: CollectPass,
    ghost puts: { put.queue ≡ queue.id },
    ghost takes: { TakesOf queue.id worker.take } by { takes_fact queue.id worker.take },
    ghost posts: { PostsOf desk.id worker.post } by { posts_fact desk.id worker.post },
    ghost collects: { collect.desk ≡ desk.id },
}

/// A parcel of this name, whose payload is the name repeated. None if out of memory.
fn parcel(alloc: Global, name: u8, length: usize) -> Option<Parcel>
    requires { length ≤ MAX_PAYLOAD }
    ensures { IfSome result IsParcel }
{
    let start = u64::from(name);
    Some(Parcel {
        slot: Slot(0),
        epoch: Epoch(0),
        span: Span::new(start, start + 1)?,
        payload: Blob::from_vec(Vec::from_elem(alloc, name, length).ok()?),
    })
}

fn rule(alloc: Global, sizes: Sizes, port: u16) -> Result<OutputRule, Fail>
    ensures { IfOk result IsWorkable }
{
    let name = Text::from_bytes(alloc, b"127.0.0.1")?;
    let mut hosts = Vec::new(alloc);
    hosts.push(Host { name, port })?;
    Ok(OutputRule {
        hosts: Hosts::from_vec(hosts),
        workers: 1,
        bulk_max_size: sizes.most,
        pipelining: sizes.depth,
        timeout: TIMEOUT,
        attempts: 3,
    })
}

/// The name in a note that settles an acknowledged parcel.
fn name_in(note: &Note) -> Option<u8> {
    match note {
        Note::Settle {
            span,
            cause: Cause::Acked,
            ..
        } => u8::try_from(span.start()).ok(),
        _ => None,
    }
}

impl<L: Link> Rig<L> {
    /// A worker for a peer at this port of 127.0.0.1.
    pub fn new(alloc: Global, sizes: Sizes, port: u16) -> Result<Rig<L>, Fail> {
        let rule = rule(alloc, sizes, port)?;
        let (queue, put, take) = EventQueue::new(alloc, QUEUED)?;
        let (desk, post, collect) = SettleBox::new(alloc, sizes.places)?;
        match Worker::new(alloc, 0, &rule, take, post) {
            Ok(worker) => Ok(Rig {
                worker,
                queue,
                put,
                desk,
                collect,
            }),
            Err(_) => Err(Fail::new("no memory for a worker")),
        }
    }

    /// Puts parcels of these names into the queue, whose payloads have so many bytes each; whether all are in it.
    pub fn load<R: Wait>(&mut self, rt: &R, alloc: Global, names: &[u8], length: usize) -> bool
        requires { length ≤ MAX_PAYLOAD }
    {
        for name in names {
            let Some(parcel) = parcel(alloc, *name, length) else {
                return false;
            };
            if !self.put(rt, parcel) {
                return false;
            }
        }
        true
    }

    fn put<R: Wait>(&mut self, rt: &R, parcel: Parcel) -> bool
        requires { IsParcel parcel }
    {
        self.queue.put(rt, &mut self.put, parcel).is_ok()
    }

    pub fn turn<R: Wait, W: Wire<Link = L>>(&mut self, rt: &R, wire: &mut W, now: u64) -> WorkerTurn
        requires { now ≤ MAX_MOMENT }
    {
        self.worker
            .turn(rt, &self.queue, &self.desk, wire, Moment(now))
    }

    /// Turns the worker until it does no work; what it answers then.
    pub fn until<R: Wait, W: Wire<Link = L>>(
        &mut self,
        rt: &R,
        wire: &mut W,
        now: u64,
    ) -> WorkerTurn
        requires { now ≤ MAX_MOMENT }
    {
        for _i in 0..MOST_TURNS {
            match self.turn(rt, wire, now) {
                WorkerTurn::Worked => {}
                other => return other,
            }
        }
        WorkerTurn::Worked
    }

    pub fn hand_on<R: Wait>(&mut self, rt: &R) -> bool {
        self.worker.hand_on(rt, &self.desk)
    }

    /// Takes the worker's passes out, and gives them to it again.
    pub fn change_passes(&mut self) {
        let (take, post) = self.worker.lay_down();
        self.worker.take_up(take, post);
    }

    /// Whether the box holds the notes of the parcels of these names, in their order, and no others. It is emptied.
    pub fn has_posted<R: Wait>(&mut self, rt: &R, names: &[u8]) -> bool {
        for name in names {
            if self.next_posted(rt) != Some(*name) {
                return false;
            }
        }
        self.count_posted(rt) == 0
    }

    /// How many notes the box holds. It is emptied.
    pub fn count_posted<R: Wait>(&mut self, rt: &R) -> u32 {
        for count in 0..MOST_TURNS {
            if self.next_posted(rt).is_none() {
                return count;
            }
        }
        MOST_TURNS
    }

    fn next_posted<R: Wait>(&mut self, rt: &R) -> Option<u8> {
        let note = self.desk.collect(rt, &mut self.collect)?;
        name_in(&note)
    }

    pub fn end<W: Wire<Link = L>>(self, wire: &mut W) {
        let Rig {
            worker,
            queue: _queue,
            put: _put,
            desk: _desk,
            collect: _collect,
        } = self;
        worker.end(wire);
    }
}

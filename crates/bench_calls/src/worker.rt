//! One worker with a queue and a box of its own, driven by one thread.
ghost use Rattle.std.specs.Prelude.{◌≡◌, ◌<◌, IfOk, IfSome};
ghost use Rattle.wire_base.specs.Ranges.{IsMoment, IsParcel};
ghost use Rattle.batch_worker.specs.Rule.{IsWorkable};
ghost use Rattle.batch_worker.specs.Steps.{PostsOf, TakesOf};
ghost use Rattle.bench_calls.specs.Passes.{posts_fact, takes_fact};

use crate::lines::text;
use batch_worker::{Worker, WorkerTurn};
use event_tree::{Hosts, OutputRule};
use mem_queue::{EventQueue, PutPass};
use outside::{Clock, Link, Wire};
use settle_box::{CollectPass, SettleBox};
use std::alloc::Global;
use std::sync::Wait;
use wire_base::{Blob, Epoch, Host, Moment, NoMemory, Parcel, Slot, Span};

/// The most parcels of a window.
const WINDOW: u32 = 2_048;

const PAYLOAD_BYTES: usize = 240;

/// How long a peer may be silent.
const TIMEOUT_MS: u64 = 30_000;

/// How many parcels are under way at most; there is room for as many in the queue and in the box.
const UNDER_WAY: u32 = 32_768;

pub(crate) struct Carrier<L> {
    worker: Worker<L>,
    queue: EventQueue,
    put: PutPass,
    desk: SettleBox,
    collect: CollectPass,
    ghost puts: { put.queue ≡ queue.id },
    ghost takes: { TakesOf queue.id worker.take } by { takes_fact queue.id worker.take },
    ghost posts: { PostsOf desk.id worker.post } by { posts_fact desk.id worker.post },
    ghost collects: { collect.desk ≡ desk.id },
}

/// None if there is no memory.
fn parcel(alloc: Global) -> Option<Parcel>
    ensures { IfSome result IsParcel }
{
    Some(Parcel {
        slot: Slot(0),
        epoch: Epoch(0),
        span: Span::new(0, 1)?,
        payload: Blob::from_vec(Vec::from_elem(alloc, b'x', PAYLOAD_BYTES).ok()?),
    })
}

fn rule(alloc: Global, depth: u32, port: u16) -> Result<OutputRule, NoMemory>
    requires { 0 < depth }
    ensures { IfOk result IsWorkable }
{
    let name = text(alloc, "127.0.0.1")?;
    let mut hosts = Vec::new(alloc);
    hosts.push(Host { name, port })?;
    Ok(OutputRule {
        hosts: Hosts::from_vec(hosts),
        workers: 1,
        bulk_max_size: WINDOW,
        pipelining: depth,
        timeout: TIMEOUT_MS,
        attempts: 1,
    })
}

impl<L: Link> Carrier<L> {
    /// A worker for a peer at this port of 127.0.0.1.
    pub(crate) fn new(alloc: Global, port: u16, depth: u32) -> Result<Carrier<L>, NoMemory>
        requires { 0 < depth }
    {
        let rule = rule(alloc, depth, port)?;
        let (queue, put, take) = EventQueue::new(alloc, UNDER_WAY)?;
        let (desk, post, collect) = SettleBox::new(alloc, UNDER_WAY)?;
        match Worker::new(alloc, 0, &rule, take, post) {
            Ok(worker) => Ok(Carrier {
                worker,
                queue,
                put,
                desk,
                collect,
            }),
            Err(_) => Err(NoMemory),
        }
    }

    fn put_one<R: Wait>(&mut self, rt: &R, alloc: Global) -> bool {
        match parcel(alloc) {
            Some(parcel) => self.queue.put(rt, &mut self.put, parcel).is_ok(),
            None => false,
        }
    }

    /// Puts this many parcels into the queue, or as many as there is room and memory for; how many.
    fn load<R: Wait>(&mut self, rt: &R, alloc: Global, many: u64) -> u64 {
        for put in 0..many {
            if !self.put_one(rt, alloc) {
                return put;
            }
        }
        many
    }

    fn turn<R: Wait, W: Wire<Link = L>>(&mut self, rt: &R, wire: &mut W, now: Moment) -> WorkerTurn
        requires { IsMoment now }
    {
        self.worker.turn(rt, &self.queue, &self.desk, wire, now)
    }

    /// Empties the box; how many notes were in it.
    fn collect<R: Wait>(&mut self, rt: &R) -> u64 {
        for collected in 0..u64::MAX {
            if self.desk.collect(rt, &mut self.collect).is_none() {
                return collected;
            }
        }
        u64::MAX
    }

    pub(crate) fn end<W: Wire<Link = L>>(self, wire: &mut W) {
        let Carrier {
            worker,
            queue: _queue,
            put: _put,
            desk: _desk,
            collect: _collect,
        } = self;
        worker.end(wire);
    }
}

/// How many of this many parcels are acknowledged. It ends early if the worker fails.
pub(crate) fn carry<R: Wait, W: Wire, C: Clock>(
    rt: &R,
    alloc: Global,
    carrier: &mut Carrier<W::Link>,
    wire: &mut W,
    clock: &mut C,
    events: u64,
) -> u64 {
    let (mut put, mut settled) = (0u64, 0u64);
    for _ in rt.forever() {
        let room = u64::from(UNDER_WAY).saturating_sub(put.saturating_sub(settled));
        let loaded = carrier.load(rt, alloc, events.saturating_sub(put).min(room));
        put = put.saturating_add(loaded);
        let answer = carrier.turn(rt, wire, clock.now());
        settled = settled.saturating_add(carrier.collect(rt));
        if settled >= events || matches!(answer, WorkerTurn::Failed(_)) {
            break;
        }
    }
    settled
}

ghost use Rattle.std.specs.Prelude.{◌≡◌, ◌∷◌, ◌<◌, ◌≤◌, ◌+◌, ◌++◌, [], All, IfOk, OnErr, List, ℕ, length, vec_len, vec_capacity};
ghost use Rattle.std.specs.Bool.{OnFalse, OnTrue};
ghost use Rattle.batch_worker.specs.Rule.{IsWorkable};
ghost use Rattle.mem_queue.specs.declared.entry.Entry.{Entry};
ghost use Rattle.settle_box.specs.Poster.{senders_of};
ghost use Rattle.settle_box.specs.Senders.{posted_by};
ghost use Rattle.wire_base.specs.declared.note.Note.{Note};
ghost use Rattle.rounds.specs.Crewed.{carriers_passes, lanes_passes, lanings};
ghost use Rattle.rounds.specs.Making.{AddsCarrier, AddsLane, HaveAll, HaveParts, HaveWires, IsBegunCarrier, IsBegunLane, KnowAll, KnowWith, StandsForNothing, all_seen, wires_of};
ghost use Rattle.rounds.specs.Words.{wire_words};

use crate::carrier::Carrier;
use batch_worker::Worker;
use event_tree::OutputRule;
use lanes::{Lane, Outlets};
use mem_queue::{PutPass, TakePass};
use outside::{Link, Tail, Wire};
use settle_box::PostPass;
use std::alloc::Global;
use wire_base::NoMemory;

/// This many lanes without harvesters, among which these passes are parted. `Err` means out of memory.
pub fn lanes_of<T: Tail>(
    alloc: Global,
    outlets: Outlets<'_>,
    mut put: PutPass,
    mut post: PostPass,
    count: u32,
) -> Result<Vec<Lane<T>>, NoMemory>
    requires some { 0 < count }
    requires of_this_queue { put.queue ≡ outlets.queue.now.id }
    requires of_this_box { post.desk ≡ outlets.desk.now.id }
    ensures all { IfOk result (λ lanes. HaveAll outlets.entry.queue.now.id
        outlets.entry.desk.now.id put.share post.share (lanes_passes (lanings lanes.items))) }
    ensures known { IfOk result (λ lanes. KnowAll put.entries (posted_by (senders_of post))
        (lanes_passes (lanings lanes.items))) }
    ensures begun { IfOk result (λ lanes. All IsBegunLane (lanings lanes.items)) }
    ensures many { IfOk result (λ lanes. length lanes.items ≡ count) }
{
    let mut lanes = Vec::new(alloc);
    if lanes.reserve(count as usize).is_err() {
        lanes.destroy_empty();
        return Err(NoMemory);
    }
    let mut made = 1;
    'lanes: while made < count {
        part_lane(alloc, outlets, &mut put, &mut post, &mut lanes);
        made += 1;
    }
    add_lane(alloc, put, post, &mut lanes);
    Ok(lanes)
}

/// One more lane after the others, with these passes.
fn add_lane<T: Tail>(alloc: Global, put: PutPass, post: PostPass, lanes: &mut Vec<Lane<T>>)
    requires room { vec_len lanes.old < vec_capacity lanes.old }
    ensures adds { AddsLane put post (lanings lanes.old.items) (lanings lanes.new.items) }
    ensures len { vec_len lanes.new ≡ vec_len lanes.old + 1 }
    ensures capacity { vec_capacity lanes.new ≡ vec_capacity lanes.old }
{
    lanes.push_reserved(Lane::new(alloc, put, post));
}

/// One more lane after the others, with a part of each of these passes.
fn part_lane<T: Tail>(
    alloc: Global,
    outlets: Outlets<'_>,
    put: &mut PutPass,
    post: &mut PostPass,
    lanes: &mut Vec<Lane<T>>,
)
    requires of_this_queue { put.old.queue ≡ outlets.queue.now.id }
    requires of_this_box { post.old.desk ≡ outlets.desk.now.id }
    requires room { vec_len lanes.old < vec_capacity lanes.old }
    ensures parts { (moves posts : List ℕ) →
        HaveParts outlets.entry.queue.now.id outlets.entry.desk.now.id moves posts
        put.old post.old (lanes_passes (lanings lanes.old.items)) →
        HaveParts outlets.entry.queue.now.id outlets.entry.desk.now.id moves posts
        put.new post.new (lanes_passes (lanings lanes.new.items)) }
    ensures known { (moved : List Entry) (posted : List Note) →
        KnowWith moved posted put.old post.old (lanes_passes (lanings lanes.old.items)) →
        KnowWith moved posted put.new post.new (lanes_passes (lanings lanes.new.items)) }
    ensures begun { All IsBegunLane (lanings lanes.old.items) →
        All IsBegunLane (lanings lanes.new.items) }
    ensures len { vec_len lanes.new ≡ vec_len lanes.old + 1 }
    ensures capacity { vec_capacity lanes.new ≡ vec_capacity lanes.old }
{
    let its_put = outlets.queue.split_put(put);
    let its_post = outlets.desk.split_post(post);
    add_lane(alloc, its_put, its_post, lanes);
}

/// A worker for each of the first wires, as many as the rule says, among which these passes are parted. `Err` means out
/// of memory; then all wires are back in their order.
pub fn carriers_of<L: Link, W: Wire<Link = L>>(
    alloc: Global,
    outlets: Outlets<'_>,
    take: TakePass,
    post: PostPass,
    rule: &OutputRule,
    wires: &mut Vec<W>,
) -> Result<Vec<Carrier<W, L>>, NoMemory>
    requires workable { IsWorkable rule.now }
    requires some { 0 < rule.now.workers }
    requires enough_wires { rule.now.workers ≤ length wires.old.items }
    requires of_this_queue { take.queue ≡ outlets.queue.now.id }
    requires of_this_box { post.desk ≡ outlets.desk.now.id }
    ensures all { IfOk result (λ carriers. HaveAll outlets.entry.queue.now.id
        outlets.entry.desk.now.id take.share post.share (carriers_passes carriers.items)) }
    ensures known { IfOk result (λ carriers. KnowAll take.entries (posted_by (senders_of post))
        (carriers_passes carriers.items)) }
    ensures begun { IfOk result (λ carriers. All (IsBegunCarrier rule.entry.now) carriers.items) }
    ensures stands { IfOk result (λ carriers. All (StandsForNothing L.told) carriers.items) }
    ensures wires { IfOk result (λ carriers.
        HaveWires rule.entry.now wires.old.items wires.new.items carriers.items) }
    ensures many { IfOk result (λ carriers. length carriers.items ≡ rule.entry.now.workers) }
    ensures back { OnErr result
        (all_seen (wire_words W.outcomes W.open_links W.faults W.idles) wires.new.items
        ≡ all_seen (wire_words W.outcomes W.open_links W.faults W.idles) wires.old.items) }
    ensures capacity { vec_capacity wires.new ≡ vec_capacity wires.old }
{
    let mut carriers = Vec::new(alloc);
    if carriers.reserve(rule.workers as usize).is_err() {
        carriers.destroy_empty();
        return Err(NoMemory);
    }
    let all = WorkerPasses { take, post };
    if fill(alloc, outlets, all, rule, wires, &mut carriers) {
        return Ok(carriers);
    }
    give_back(rule, carriers, wires);
    Err(NoMemory)
}

/// What workers have together.
#[derive(Drop)]
struct WorkerPasses {
    take: TakePass,
    post: PostPass,
}

/// A worker for each of the first wires; whether there was memory for all. The last one has what is left of the passes.
fn fill<L: Link, W: Wire<Link = L>>(
    alloc: Global,
    outlets: Outlets<'_>,
    all: WorkerPasses,
    rule: &OutputRule,
    wires: &mut Vec<W>,
    carriers: &mut Vec<Carrier<W, L>>,
) -> bool
    requires workable { IsWorkable rule.now }
    requires some { 0 < rule.now.workers }
    requires enough_wires { rule.now.workers ≤ vec_len wires.old }
    requires none { carriers.old.items ≡ [] }
    requires room { rule.now.workers ≤ vec_capacity carriers.old }
    requires of_this_queue { all.take.queue ≡ outlets.queue.now.id }
    requires of_this_box { all.post.desk ≡ outlets.desk.now.id }
    ensures all { OnTrue result (HaveAll outlets.entry.queue.now.id outlets.entry.desk.now.id
        all.take.share all.post.share (carriers_passes carriers.new.items)) }
    ensures known { OnTrue result (KnowAll all.take.entries (posted_by (senders_of all.post))
        (carriers_passes carriers.new.items)) }
    ensures begun { All (IsBegunCarrier rule.entry.now) carriers.new.items }
    ensures stands { All (StandsForNothing L.told) carriers.new.items }
    ensures wires { HaveWires rule.entry.now wires.old.items wires.new.items carriers.new.items }
    ensures many { OnTrue result (vec_len carriers.new ≡ rule.entry.now.workers) }
    ensures capacity { vec_capacity wires.new ≡ vec_capacity wires.old }
{
    let WorkerPasses { mut take, mut post } = all;
    let many = rule.workers;
    let mut made = 1;
    'workers: while made < many {
        let its = WorkerPasses {
            take: outlets.queue.split_take(&mut take),
            post: outlets.desk.split_post(&mut post),
        };
        if !add_carrier(alloc, made - 1, its, rule, wires, carriers) {
            return false;
        }
        made += 1;
    }
    let last = WorkerPasses { take, post };
    add_carrier(alloc, made - 1, last, rule, wires, carriers)
}

/// One more worker after the others, with the first of these wires; whether there was memory for it.
fn add_carrier<L: Link, W: Wire<Link = L>>(
    alloc: Global,
    number: u32,
    its: WorkerPasses,
    rule: &OutputRule,
    wires: &mut Vec<W>,
    carriers: &mut Vec<Carrier<W, L>>,
) -> bool
    requires workable { IsWorkable rule.now }
    requires some_wire { 0 < vec_len wires.old }
    requires room { vec_len carriers.old < vec_capacity carriers.old }
    ensures adds { OnTrue result (AddsCarrier rule.entry.now number its.take its.post
        wires.old.items wires.new.items carriers.old.items carriers.new.items) }
    ensures stands { All (StandsForNothing L.told) carriers.old.items →
        All (StandsForNothing L.told) carriers.new.items }
    ensures kept { OnFalse result ((wires.new.items ≡ wires.old.items)
        × (carriers.new.items ≡ carriers.old.items)) }
    ensures len { OnTrue result (vec_len carriers.new ≡ vec_len carriers.old + 1) }
    ensures wire_len { OnTrue result (vec_len wires.new + 1 ≡ vec_len wires.old) }
    ensures capacity { vec_capacity carriers.new ≡ vec_capacity carriers.old }
    ensures wire_capacity { vec_capacity wires.new ≡ vec_capacity wires.old }
{
    let WorkerPasses { take, post } = its;
    match Worker::new(alloc, number, rule, take, post) {
        Ok(worker) => {
            let wire = wires.remove(0);
            carriers.push_reserved(Carrier::new(worker, wire));
            true
        }
        Err(_) => false,
    }
}

/// Releases workers that have no link, and puts their wires before the others.
fn give_back<L: Link, W: Wire<Link = L>>(
    rule: &OutputRule,
    mut carriers: Vec<Carrier<W, L>>,
    wires: &mut Vec<W>,
)
    requires begun { All (IsBegunCarrier rule.now) carriers.items }
    requires room { vec_len carriers + vec_len wires.old ≤ vec_capacity wires.old }
    ensures seen { all_seen (wire_words W.outcomes W.open_links W.faults W.idles) wires.new.items
        ≡ all_seen (wire_words W.outcomes W.open_links W.faults W.idles)
        (wires_of carriers.items ++ wires.old.items) }
    ensures capacity { vec_capacity wires.new ≡ vec_capacity wires.old }
{
    'carriers: while let Some(carrier) = carriers.pop() {
        give_one_back(rule, carrier, wires);
    }
    carriers.destroy_empty();
}

fn give_one_back<L: Link, W: Wire<Link = L>>(
    rule: &OutputRule,
    carrier: Carrier<W, L>,
    wires: &mut Vec<W>,
)
    requires begun { IsBegunCarrier rule.now carrier }
    requires room { vec_len wires.old < vec_capacity wires.old }
    ensures seen { all_seen (wire_words W.outcomes W.open_links W.faults W.idles) wires.new.items
        ≡ all_seen (wire_words W.outcomes W.open_links W.faults W.idles)
        (carrier.wire ∷ wires.old.items) }
    ensures len { vec_len wires.new ≡ vec_len wires.old + 1 }
    ensures capacity { vec_capacity wires.new ≡ vec_capacity wires.old }
{
    let Carrier {
        worker,
        mut wire,
        carried: _,
    } = carrier;
    let _ = worker.end(&mut wire);
    // There is room, so none is refused.
    if let Err(refused) = wires.insert(0, wire) {
        wires.push_reserved(refused.value);
    }
}

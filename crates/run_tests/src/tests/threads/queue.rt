ghost use Rattle.std.specs.Prelude.{◌≡◌, ◌+◌, ◌<◌, ◌^◌, IfSome};
ghost use Rattle.std.specs.Thread.{IsSync};
ghost use Rattle.pass_sums.specs.Share.{IsWhole};
ghost use Rattle.wire_base.specs.Ranges.{IsParcel};

use mem_queue::{EventQueue, PutPass, TakePass};
use std::alloc::{AllocError, Global};
use std::sync::Wait;
use std::sync::atomic::{AtomicU64, Ordering};
use std::test::Fail;
use std::thread;
use std::thread::Threads;
use wire_base::{Blob, Epoch, Parcel, Slot, Span};

/// How many parcels each of two threads puts.
const PUT_BY_EACH: u64 = 1_000;

fn parcel(alloc: Global, slot: u32, place: u64) -> Option<Parcel>
    requires { place < 2 ^ 62 }
    ensures { IfSome result (λ parcel. IsParcel parcel) }
{
    Some(Parcel {
        slot: Slot(slot),
        epoch: Epoch(0),
        span: Span::new(place, place + 1)?,
        payload: Blob::from_vec(Vec::new(alloc)),
    })
}

fn place_of(parcel: Option<Parcel>) -> Option<u64> {
    parcel.map(|parcel| parcel.span.start())
}

#[test]
fn capacity_one(rt: HostRuntime) -> Result<(), Fail> {
    let alloc = rt.alloc();
    let (queue, mut put, mut take) = EventQueue::new(alloc, 1)?;
    assert!(rt; put_at(&rt, alloc, &queue, &mut put, 7));
    let Some(y) = parcel(alloc, 0, 8) else {
        return Ok(());
    };
    let refused = queue.put(&rt, &mut put, y);
    assert_eq!(rt; place_of(refused.err()), Some(8));
    assert_eq!(rt; place_of(queue.take(&rt, &mut take)), Some(7));
    assert_eq!(rt; place_of(queue.take(&rt, &mut take)), None);
    Ok(())
}

fn fresh(alloc: Global) -> Result<Vec<u8>, AllocError> {
    Vec::from_elem(alloc, 0, 2 * PUT_BY_EACH as usize)
}

/// Puts parcels of one slot at the places below 1,000.
fn put_all<R: Wait>(
    rt: &R,
    alloc: Global,
    queue: &EventQueue,
    mut pass: PutPass,
    slot: u32,
) -> PutPass
    requires { pass.queue ≡ queue.now.id }
    ensures { (result.queue ≡ queue.now.id) × (result.share ≡ pass.share) }
{
    for place in 0..PUT_BY_EACH {
        if let Some(parcel) = parcel(alloc, slot, place) {
            put_one(rt, queue, &mut pass, parcel);
        }
    }
    pass
}

/// Tries until the parcel is in the queue.
fn put_one<R: Wait>(rt: &R, queue: &EventQueue, pass: &mut PutPass, parcel: Parcel)
    requires of_this_queue { pass.old.queue ≡ queue.now.id }
    requires range { IsParcel parcel }
    ensures { (pass.new.queue ≡ pass.old.queue) × (pass.new.share ≡ pass.old.share) }
{
    let mut waiting = Some(parcel);
    for _ in rt.forever() {
        let Some(parcel) = waiting else {
            return;
        };
        waiting = queue.put(rt, pass, parcel).err();
        if waiting.is_some() {
            thread::yield_now();
        }
    }
}

/// Takes until all threads together have as many parcels as were put, and counts how often each
/// came.
fn take_all<R: Wait>(
    rt: &R,
    queue: &EventQueue,
    mut pass: TakePass,
    taken: &AtomicU64,
    mut times: Vec<u8>,
) -> (TakePass, Vec<u8>)
    requires { pass.queue ≡ queue.now.id }
    ensures { (result.0.queue ≡ queue.now.id) × (result.0.share ≡ pass.share) }
{
    for _ in rt.forever() {
        if taken.load(Ordering::SeqCst) >= 2 * PUT_BY_EACH {
            break;
        }
        match queue.take(rt, &mut pass) {
            Some(parcel) => {
                count(&mut times, &parcel);
                taken.fetch_add(1, Ordering::SeqCst);
            }
            None => thread::yield_now(),
        }
    }
    (pass, times)
}

fn count(times: &mut Vec<u8>, parcel: &Parcel) {
    let place = parcel.span.start() as usize;
    let first = if parcel.slot.0 == 0 {
        0
    } else {
        PUT_BY_EACH as usize
    };
    if let Some(time) = times.get_mut(first.saturating_add(place)) {
        *time = time.saturating_add(1);
    }
}

#[tactic(auto, using(pass_sums::proofs::Shares::halves_whole))]
fn put_by_two<R: Threads + Wait + Sync>(
    rt: &R,
    alloc: Global,
    queue: &EventQueue,
    mut put: PutPass,
) -> PutPass
    requires { (put.queue ≡ queue.now.id) × IsWhole put.share }
    ensures { (result.queue ≡ queue.now.id) × IsWhole result.share }
{
    let second = queue.split_put(&mut put);
    let (mut put, second) = thread::join(
        rt,
        move ||
            requires { IsSync R.row × (put.queue ≡ queue.now.id) }
            ensures { (result.queue ≡ queue.entry.now.id) × (result.share ≡ put.share) }
        { put_all(rt, alloc, queue, put, 0) },
        move ||
            requires { IsSync R.row × (second.queue ≡ queue.now.id) }
            ensures { (result.queue ≡ queue.entry.now.id) × (result.share ≡ second.share) }
        { put_all(rt, alloc, queue, second, 1) },
    );
    queue.join_put(&mut put, second);
    put
}

#[tactic(auto, using(pass_sums::proofs::Shares::halves_whole))]
fn take_by_two<R: Threads + Wait + Sync>(
    rt: &R,
    queue: &EventQueue,
    mut take: TakePass,
    one: Vec<u8>,
    two: Vec<u8>,
) -> (TakePass, Vec<u8>, Vec<u8>)
    requires { (take.queue ≡ queue.now.id) × IsWhole take.share }
    ensures { (result.0.queue ≡ queue.now.id) × IsWhole result.0.share }
{
    let second = queue.split_take(&mut take);
    let taken = AtomicU64::new(0);
    let ((mut take, one), (second, two)) = thread::join(
        rt,
        ||
            requires { IsSync R.row × (take.queue ≡ queue.now.id) }
            ensures { (result.0.queue ≡ queue.entry.now.id) × (result.0.share ≡ take.share) }
        { take_all(rt, queue, take, &taken, one) },
        ||
            requires { IsSync R.row × (second.queue ≡ queue.now.id) }
            ensures { (result.0.queue ≡ queue.entry.now.id) × (result.0.share ≡ second.share) }
        { take_all(rt, queue, second, &taken, two) },
    );
    queue.join_take(&mut take, second);
    (take, one, two)
}

#[test]
fn each_parcel_comes_once(rt: HostRuntime) -> Result<(), Fail> {
    let alloc = rt.alloc();
    let (queue, put, take) = EventQueue::new(alloc, 16)?;
    let queue_of_both = &queue;
    let (one, two) = (fresh(alloc)?, fresh(alloc)?);
    let (mut put, (mut take, one, two)) = thread::join(
        &rt,
        || put_by_two(&rt, alloc, queue_of_both, put),
        || take_by_two(&rt, queue_of_both, take, one, two),
    );
    assert_eq!(rt; (one.len(), two.len()), (2_000, 2_000));
    assert!(rt;
        one.iter()
            .zip(two.iter())
            .all(|(first, second)| first.saturating_add(*second) == 1)
    );
    queue.meet(&mut put, &mut take);
    let mut left = queue.close(&rt, put, take);
    assert_eq!(rt; place_of(left.next(&rt)), None);
    Ok(())
}

/// Whether a parcel of this place was put.
fn put_at<R: Wait>(
    rt: &R,
    alloc: Global,
    queue: &EventQueue,
    pass: &mut PutPass,
    place: u64,
) -> bool
    requires of_this_queue { pass.old.queue ≡ queue.now.id }
    requires small { place < 2 ^ 62 }
    ensures { (pass.new.queue ≡ pass.old.queue) × (pass.new.share ≡ pass.old.share) }
{
    match parcel(alloc, 0, place) {
        Some(parcel) => queue.put(rt, pass, parcel).is_ok(),
        None => false,
    }
}

/// What is left of a closed queue comes in the order of entry.
#[test]
fn the_rest_comes_in_order(rt: HostRuntime) -> Result<(), Fail> {
    let alloc = rt.alloc();
    let (queue, mut put, mut take) = EventQueue::new(alloc, 3)?;
    assert!(rt; put_at(&rt, alloc, &queue, &mut put, 5));
    assert!(rt; put_at(&rt, alloc, &queue, &mut put, 3));
    assert!(rt; put_at(&rt, alloc, &queue, &mut put, 9));
    assert!(rt; !put_at(&rt, alloc, &queue, &mut put, 7));
    assert_eq!(rt; place_of(queue.take(&rt, &mut take)), Some(5));
    let mut left = queue.close(&rt, put, take);
    for place in [Some(3), Some(9), None, None] {
        assert_eq!(rt; place_of(left.next(&rt)), place);
    }
    Ok(())
}

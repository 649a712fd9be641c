ghost use Rattle.std.specs.Prelude.{◌≡◌, ◌+◌, ◌<◌, ◌^◌, IfSome};
ghost use Rattle.std.specs.Thread.{IsSync};
ghost use Rattle.pass_sums.specs.Share.{IsWorth};
ghost use Rattle.wire_base.specs.Ranges.{IsNote};
ghost use Rattle.settle_box.specs.Notes.{IsPostable};

use settle_box::{CollectPass, PostPass, SettleBox};
use std::sync::Wait;
use std::test::Fail;
use std::thread;
use std::thread::Threads;
use wire_base::{Cause, Epoch, Note, Slot, Span};

/// How many notes each of four threads posts.
const POSTED_BY_EACH: u64 = 1_000;

fn settled(slot: u32, place: u64) -> Option<Note>
    requires { place < 2 ^ 62 }
    ensures { IfSome result (λ note. IsPostable note × IsNote note) }
{
    Some(Note::Settle {
        slot: Slot(slot),
        epoch: Epoch(0),
        span: Span::new(place, place + 1)?,
        cause: Cause::Acked,
    })
}

fn start_of(note: &Note) -> Option<u64> {
    match note {
        Note::Settle { span, .. } => Some(span.start()),
        _ => None,
    }
}

fn place_of(note: Option<Note>) -> Option<u64> {
    note.as_ref().and_then(start_of)
}

/// Whether a note of this place was posted.
fn post_at<R: Wait>(rt: &R, desk: &SettleBox, pass: &mut PostPass, slot: u32, place: u64) -> bool
    requires of_this_box { pass.old.desk ≡ desk.now.id }
    requires small { place < 2 ^ 62 }
    ensures { (pass.new.desk ≡ pass.old.desk) × (pass.new.share ≡ pass.old.share) }
{
    match settled(slot, place) {
        Some(note) => desk.post(rt, pass, note).is_ok(),
        None => false,
    }
}

/// What is left of a closed box comes in the order of entry.
#[test]
fn the_rest_comes_in_order(rt: HostRuntime) -> Result<(), Fail> {
    let (desk, mut post, mut collect) = SettleBox::new(rt.alloc(), 3)?;
    assert!(rt; post_at(&rt, &desk, &mut post, 0, 5));
    assert!(rt; post_at(&rt, &desk, &mut post, 0, 3));
    assert!(rt; post_at(&rt, &desk, &mut post, 0, 9));
    assert_eq!(rt; place_of(desk.collect(&rt, &mut collect)), Some(5));
    let mut left = desk.close(&rt, post, collect);
    for place in [Some(3), Some(9), None, None] {
        assert_eq!(rt; place_of(left.next(&rt)), place);
    }
    Ok(())
}

/// Posts notes of one slot at the places below 1,000 in their order, each until it is in the box.
fn post_all<R: Wait>(rt: &R, desk: &SettleBox, mut pass: PostPass, slot: u32) -> PostPass
    requires { pass.desk ≡ desk.now.id }
    ensures { (result.desk ≡ desk.now.id) × (result.share ≡ pass.share) }
{
    let mut place = 0;
    for _ in rt.forever() {
        if place >= POSTED_BY_EACH {
            break;
        }
        if post_at(rt, desk, &mut pass, slot, place) {
            place += 1;
        } else {
            thread::yield_now();
        }
    }
    pass
}

fn post_by_two<R: Threads + Wait + Sync>(
    rt: &R,
    desk: &SettleBox,
    mut pass: PostPass,
    slots: (u32, u32),
) -> PostPass
    requires { pass.desk ≡ desk.now.id }
    ensures { (result.desk ≡ desk.now.id) × IsWorth result.share pass.share }
{
    let second = desk.split_post(&mut pass);
    let (mut pass, second) = thread::join(
        rt,
        move ||
            requires { IsSync R.row × (pass.desk ≡ desk.now.id) }
            ensures { (result.desk ≡ desk.entry.now.id) × (result.share ≡ pass.share) }
        { post_all(rt, desk, pass, slots.0) },
        move ||
            requires { IsSync R.row × (second.desk ≡ desk.now.id) }
            ensures { (result.desk ≡ desk.entry.now.id) × (result.share ≡ second.share) }
        { post_all(rt, desk, second, slots.1) },
    );
    desk.join_post(&mut pass, second);
    pass
}

fn post_by_four<R: Threads + Wait + Sync>(rt: &R, desk: &SettleBox, mut pass: PostPass) -> PostPass
    requires { pass.desk ≡ desk.now.id }
    ensures { (result.desk ≡ desk.now.id) × IsWorth result.share pass.share }
{
    let second = desk.split_post(&mut pass);
    let (mut pass, second) = thread::join(
        rt,
        move ||
            requires { IsSync R.row × (pass.desk ≡ desk.now.id) }
            ensures { (result.desk ≡ desk.entry.now.id) × IsWorth result.share pass.share }
        { post_by_two(rt, desk, pass, (0, 1)) },
        move ||
            requires { IsSync R.row × (second.desk ≡ desk.now.id) }
            ensures { (result.desk ≡ desk.entry.now.id) × IsWorth result.share second.share }
        { post_by_two(rt, desk, second, (2, 3)) },
    );
    desk.join_post(&mut pass, second);
    pass
}

/// Collects until all notes have come. Gives how many came of each sender, in their order alone.
fn collect_all<R: Wait>(rt: &R, desk: &SettleBox, mut pass: CollectPass) -> (CollectPass, [u64; 4])
    requires { pass.desk ≡ desk.now.id }
    ensures { result.0.desk ≡ desk.now.id }
{
    let mut came = [0; 4];
    let mut all = 0u64;
    for _ in rt.forever() {
        if all >= 4 * POSTED_BY_EACH {
            break;
        }
        match desk.collect(rt, &mut pass) {
            Some(note) => {
                all = all.saturating_add(1);
                count(&mut came, &note);
            }
            None => thread::yield_now(),
        }
    }
    (pass, came)
}

/// Counts the note if it is its sender's next.
fn count(came: &mut [u64; 4], note: &Note) {
    if let Note::Settle { slot, span, .. } = note
        && let Some(next) = came.get_mut(slot.0 as usize)
        && *next == span.start()
    {
        *next = next.saturating_add(1);
    }
}

#[test]
fn each_sender_keeps_its_order(rt: HostRuntime) -> Result<(), Fail> {
    let (desk, post, collect) = SettleBox::new(rt.alloc(), 16)?;
    let shared = &desk;
    let (mut post, collected) = thread::join(
        &rt,
        || post_by_four(&rt, shared, post),
        || collect_all(&rt, shared, collect),
    );
    let (mut collect, came) = collected;
    assert_eq!(rt; came, [POSTED_BY_EACH; 4]);
    assert_eq!(rt; post.count(), 4 * POSTED_BY_EACH);
    desk.meet(&mut post, &mut collect);
    let mut left = desk.close(&rt, post, collect);
    assert_eq!(rt; place_of(left.next(&rt)), None);
    Ok(())
}

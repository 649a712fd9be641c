ghost use Rattle.std.specs.Prelude.{◌≡◌, ◌≢◌, ◌++◌, []};
ghost use Rattle.lanes.specs.Laning.{laning, without_passes};
ghost use Rattle.mem_queue.specs.Known.{known};
ghost use Rattle.settle_box.specs.Poster.{poster};
ghost use Rattle.rounds.specs.Crewed.{bare_lanes, lane_passes, lanes_passes, lanings};
ghost use Rattle.rounds.specs.Meeting.{AreJoined, AreParted};
ghost use Rattle.rounds.specs.Passes.{AreAllOf, AreOf, entries, entries_in, post_share_in, post_shares, senders, senders_in, share_in, shares};

use lanes::{Lane, Outlets};
use mem_queue::PutPass;
use outside::Tail;
use settle_box::PostPass;

/// Takes the passes of all these lanes out, and joins those of each kind.
pub(crate) fn gather_lanes<T: Tail>(
    outlets: Outlets<'_>,
    lanes: &mut [Lane<T>],
) -> (PutPass, PostPass)
    requires some { lanes.old ≢ [] }
    requires have { AreAllOf outlets.queue.now.id outlets.desk.now.id
        (lanes_passes (lanings lanes.old)) }
    ensures joined { AreJoined outlets.entry.queue.now.id outlets.entry.desk.now.id
        (lanes_passes (lanings lanes.old)) result.0 result.1 }
    ensures bare { lanings lanes.new ≡ bare_lanes (lanings lanes.old) }
{
    let Some((first, rest)) = lanes.split_first_mut() else {
        unreachable!()
    };
    let (mut put, mut post) = first.lay_down();
    gather_more(outlets, rest, &mut put, &mut post);
    (put, post)
}

/// Joins the passes of further lanes after these.
fn gather_more<T: Tail>(
    outlets: Outlets<'_>,
    lanes: &mut [Lane<T>],
    put: &mut PutPass,
    post: &mut PostPass,
)
    requires have { AreAllOf outlets.queue.now.id outlets.desk.now.id
        (lanes_passes (lanings lanes.old)) }
    requires of_this_queue { put.old.queue ≡ outlets.queue.now.id }
    requires of_this_box { post.old.desk ≡ outlets.desk.now.id }
    ensures put { put.new ≡ known put.old.queue
        (put.old.share ++ shares (lanes_passes (lanings lanes.old)))
        (put.old.entries ++ entries (lanes_passes (lanings lanes.old))) }
    ensures post { post.new ≡ poster post.old.desk
        (post.old.share ++ post_shares (lanes_passes (lanings lanes.old))) post.old.mine
        (post.old.joined ++ senders (lanes_passes (lanings lanes.old))) }
    ensures bare { lanings lanes.new ≡ bare_lanes (lanings lanes.old) }
{
    let Some((first, rest)) = lanes.split_first_mut() else {
        return;
    };
    gather_one(outlets, first, put, post);
    gather_more(outlets, rest, put, post);
}

fn gather_one<T: Tail>(
    outlets: Outlets<'_>,
    lane: &mut Lane<T>,
    put: &mut PutPass,
    post: &mut PostPass,
)
    requires has { AreOf outlets.queue.now.id outlets.desk.now.id
        (lane_passes (laning lane.old)) }
    requires of_this_queue { put.old.queue ≡ outlets.queue.now.id }
    requires of_this_box { post.old.desk ≡ outlets.desk.now.id }
    ensures put { put.new ≡ known put.old.queue (put.old.share ++ share_in lane.old.put)
        (put.old.entries ++ entries_in lane.old.put) }
    ensures post { post.new ≡ poster post.old.desk (post.old.share ++ post_share_in lane.old.post)
        post.old.mine (post.old.joined ++ senders_in lane.old.post) }
    ensures bare { laning lane.new ≡ without_passes (laning lane.old) }
{
    let (its_put, its_post) = lane.lay_down();
    outlets.queue.join_put(put, its_put);
    outlets.desk.join_post(post, its_post);
}

/// Parts these passes among these lanes, which have none.
pub(crate) fn part_lanes<T: Tail>(
    outlets: Outlets<'_>,
    lanes: &mut [Lane<T>],
    mut put: PutPass,
    mut post: PostPass,
)
    requires some { lanes.old ≢ [] }
    requires bare { lanings lanes.old ≡ bare_lanes (lanings lanes.old) }
    requires of_this_queue { put.queue ≡ outlets.queue.now.id }
    requires of_this_box { post.desk ≡ outlets.desk.now.id }
    ensures parted { AreParted outlets.entry.queue.now.id outlets.entry.desk.now.id put post
        (lanes_passes (lanings lanes.new)) }
    ensures same { bare_lanes (lanings lanes.new) ≡ lanings lanes.old }
{
    let Some((first, rest)) = lanes.split_first_mut() else {
        unreachable!()
    };
    if rest.is_empty() {
        first.take_up(put, post);
        return;
    }
    first.take_up(
        outlets.queue.split_put(&mut put),
        outlets.desk.split_post(&mut post),
    );
    part_lanes(outlets, rest, put, post);
}

ghost use Rattle.std.specs.Prelude.{◌≡◌, ◌≢◌, ◌++◌, []};
ghost use Rattle.mem_queue.specs.Known.{known};
ghost use Rattle.settle_box.specs.Poster.{poster};
ghost use Rattle.rounds.specs.Crewed.{bare_carrier, bare_carriers, carrier_passes, carriers_passes};
ghost use Rattle.rounds.specs.Meeting.{AreJoined, AreParted};
ghost use Rattle.rounds.specs.Passes.{AreAllOf, AreOf, entries, entries_in, post_share_in, post_shares, senders, senders_in, share_in, shares};

use crate::carrier::Carrier;
use lanes::Outlets;
use mem_queue::TakePass;
use outside::{Link, Wire};
use settle_box::PostPass;

/// Takes the passes of all these workers out, and joins those of each kind.
pub(crate) fn gather_carriers<L: Link, W: Wire<Link = L>>(
    outlets: Outlets<'_>,
    carriers: &mut [Carrier<W, L>],
) -> (TakePass, PostPass)
    requires some { carriers.old ≢ [] }
    requires have { AreAllOf outlets.queue.now.id outlets.desk.now.id
        (carriers_passes carriers.old) }
    ensures joined { AreJoined outlets.entry.queue.now.id outlets.entry.desk.now.id
        (carriers_passes carriers.old) result.0 result.1 }
    ensures bare { carriers.new ≡ bare_carriers carriers.old }
{
    let Some((first, rest)) = carriers.split_first_mut() else {
        unreachable!()
    };
    let (mut take, mut post) = first.worker.lay_down();
    gather_more(outlets, rest, &mut take, &mut post);
    (take, post)
}

/// Joins the passes of further workers after these.
fn gather_more<L: Link, W: Wire<Link = L>>(
    outlets: Outlets<'_>,
    carriers: &mut [Carrier<W, L>],
    take: &mut TakePass,
    post: &mut PostPass,
)
    requires have { AreAllOf outlets.queue.now.id outlets.desk.now.id
        (carriers_passes carriers.old) }
    requires of_this_queue { take.old.queue ≡ outlets.queue.now.id }
    requires of_this_box { post.old.desk ≡ outlets.desk.now.id }
    ensures take { take.new ≡ known take.old.queue
        (take.old.share ++ shares (carriers_passes carriers.old))
        (take.old.entries ++ entries (carriers_passes carriers.old)) }
    ensures post { post.new ≡ poster post.old.desk
        (post.old.share ++ post_shares (carriers_passes carriers.old)) post.old.mine
        (post.old.joined ++ senders (carriers_passes carriers.old)) }
    ensures bare { carriers.new ≡ bare_carriers carriers.old }
{
    let Some((first, rest)) = carriers.split_first_mut() else {
        return;
    };
    gather_one(outlets, first, take, post);
    gather_more(outlets, rest, take, post);
}

fn gather_one<L: Link, W: Wire<Link = L>>(
    outlets: Outlets<'_>,
    carrier: &mut Carrier<W, L>,
    take: &mut TakePass,
    post: &mut PostPass,
)
    requires has { AreOf outlets.queue.now.id outlets.desk.now.id
        (carrier_passes carrier.old) }
    requires of_this_queue { take.old.queue ≡ outlets.queue.now.id }
    requires of_this_box { post.old.desk ≡ outlets.desk.now.id }
    ensures take { take.new ≡ known take.old.queue
        (take.old.share ++ share_in carrier.old.worker.take)
        (take.old.entries ++ entries_in carrier.old.worker.take) }
    ensures post { post.new ≡ poster post.old.desk
        (post.old.share ++ post_share_in carrier.old.worker.post) post.old.mine
        (post.old.joined ++ senders_in carrier.old.worker.post) }
    ensures bare { carrier.new ≡ bare_carrier carrier.old }
{
    let (its_take, its_post) = carrier.worker.lay_down();
    outlets.queue.join_take(take, its_take);
    outlets.desk.join_post(post, its_post);
}

/// Parts these passes among these workers, which have none.
pub(crate) fn part_carriers<L: Link, W: Wire<Link = L>>(
    outlets: Outlets<'_>,
    carriers: &mut [Carrier<W, L>],
    mut take: TakePass,
    mut post: PostPass,
)
    requires some { carriers.old ≢ [] }
    requires bare { carriers.old ≡ bare_carriers carriers.old }
    requires of_this_queue { take.queue ≡ outlets.queue.now.id }
    requires of_this_box { post.desk ≡ outlets.desk.now.id }
    ensures parted { AreParted outlets.entry.queue.now.id outlets.entry.desk.now.id take post
        (carriers_passes carriers.new) }
    ensures same { bare_carriers carriers.new ≡ carriers.old }
{
    let Some((first, rest)) = carriers.split_first_mut() else {
        unreachable!()
    };
    if rest.is_empty() {
        first.worker.take_up(take, post);
        return;
    }
    first.worker.take_up(
        outlets.queue.split_take(&mut take),
        outlets.desk.split_post(&mut post),
    );
    part_carriers(outlets, rest, take, post);
}

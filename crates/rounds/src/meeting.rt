ghost use Rattle.std.specs.Prelude.{◌≡◌, ◌≢◌, ◌-◌, ◌^◌, ◌++◌, [], min};
ghost use Rattle.settle_box.specs.Senders.{posts_of};
ghost use Rattle.rounds.specs.Crewed.{carriers_passes, lanes_passes, lanings};
ghost use Rattle.rounds.specs.Meeting.{HaveAllPasses, HaveMet};
ghost use Rattle.rounds.specs.Passes.{senders};

use crate::carrier::Carrier;
use crate::carrier_passes::{gather_carriers, part_carriers};
use crate::lane_passes::{gather_lanes, part_lanes};
use keeper::Keeper;
use lanes::{Lane, Outlets};
use outside::{Link, Tail, Wire};

/// Joins all passes, compares what they know with what the queue and the box hold, and parts them again. How many notes were
/// posted in all; the count saturates at 2^64 - 1. Takes no memory.
pub(crate) fn meet<T: Tail, L: Link, W: Wire<Link = L>>(
    outlets: Outlets<'_>,
    lanes: &mut [Lane<T>],
    carriers: &mut [Carrier<W, L>],
    keeper: &mut Keeper,
) -> u64
    requires some_lanes { lanes.old ≢ [] }
    requires some_carriers { carriers.old ≢ [] }
    requires have { HaveAllPasses outlets.queue.now.id outlets.desk.now.id (lanings lanes.old)
        carriers.old }
    requires of_this_box { keeper.old.pass.desk ≡ outlets.desk.now.id }
    ensures met { HaveMet outlets.entry.queue.now.id outlets.entry.desk.now.id keeper.old.pass.got
        (lanings lanes.old) (lanings lanes.new) carriers.old carriers.new }
    ensures keeper { keeper.new ≡ keeper.old }
    ensures count { result ≡ min (posts_of (senders (lanes_passes (lanings lanes.old))
        ++ senders (carriers_passes carriers.old))) (2 ^ 64 - 1) }
{
    let (mut put, mut post) = gather_lanes(outlets, lanes);
    let (mut take, others) = gather_carriers(outlets, carriers);
    outlets.desk.join_post(&mut post, others);
    outlets.queue.meet(&mut put, &mut take);
    outlets.desk.meet(&mut post, keeper.collect_pass());
    let posted = post.count();
    let others = outlets.desk.split_post(&mut post);
    part_lanes(outlets, lanes, put, post);
    part_carriers(outlets, carriers, take, others);
    posted
}

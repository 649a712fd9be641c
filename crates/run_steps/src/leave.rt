ghost use Rattle.std.specs.Prelude.{◌≡◌, ◌+◌, ◌-◌, ◌<◌, ◌≤◌, [], ◌∷◌, All, Some, false, length, true, vec_capacity, vec_len};
ghost use Rattle.lanes.specs.Laning.{laning};
ghost use Rattle.outside.specs.Counts.{added_counts};
ghost use Rattle.outside.specs.Files.{NoneEarlier};
ghost use Rattle.rounds.specs.Crewed.{lanings};
ghost use Rattle.rounds.specs.WordsOf.{links_of, tails_of, wires_of};
ghost use Rattle.run_steps.specs.CarriersEnd.{EndsCarriers, HasCarrierPasses, HasLanePasses, PutsWire};
ghost use Rattle.run_steps.specs.ClosesTail.{ClosesFailed, ClosesOne, ClosesResting, ClosesSome, LetsSlotGo, RestsAt, readers};
ghost use Rattle.run_steps.specs.LastEpoch.{IsInEpoch};
ghost use Rattle.run_steps.specs.Releasing.{HasNoHarvesters, closing_of, with_events};

use harvester::Harvester;
use lanes::Lane;
use outside::{Folder, Link, Tail, Wire};
use rounds::{Carrier, Crew};
use wire_base::Slot;

/// Closes all tails: lane by lane, and in each from the last one on. It takes no memory.
pub fn close_all<F: Folder>(folder: &mut F, lanes: &mut [Lane<F::Tail>])
    ensures closes { ClosesSome (tails_of F.Tail.Tail)
        (readers F.Folder folder.old (lanings lanes.old))
        (readers F.Folder folder.new (lanings lanes.new)) }
    ensures none_left { All HasNoHarvesters (lanings lanes.new) }
{
    let Some((first, rest)) = lanes.split_first_mut() else {
        return;
    };
    close_lane(folder, first);
    close_all(folder, rest);
}

fn close_lane<F: Folder>(folder: &mut F, lane: &mut Lane<F::Tail>)
    ensures closes { ClosesSome (tails_of F.Tail.Tail)
        (readers F.Folder folder.old (laning lane.old ∷ []))
        (readers F.Folder folder.new (laning lane.new ∷ [])) }
    ensures none_left { HasNoHarvesters (laning lane.new) }
{
    'harvesters: while lane.len() > 0 {
        close_tail(folder, lane, lane.len() - 1);
    }
}

/// Closes the tail of this seat, and releases its harvester; the lane's last one takes the seat. It takes no memory.
pub fn close_tail<F: Folder>(folder: &mut F, lane: &mut Lane<F::Tail>, seat: usize)
    requires seat { seat < length (laning lane.old).harvesters }
    ensures closes { ClosesOne (tails_of F.Tail.Tail)
        (readers F.Folder folder.old (laning lane.old ∷ []))
        (readers F.Folder folder.new (laning lane.new ∷ [])) }
    ensures fewer { length (laning lane.new).harvesters + 1
        ≡ length (laning lane.old).harvesters }
{
    let harvester = lane.release_at(seat);
    release(folder, harvester);
}

/// Closes the tail of this seat if its file is at rest or changed, and releases its harvester; the lane's last one takes the seat. Whether
/// it was closed. It takes no memory.
pub fn close_resting<F: Folder>(folder: &mut F, lane: &mut Lane<F::Tail>, seat: usize) -> bool
    requires seat { seat < length (laning lane.old).harvesters }
    ensures closes { result ≡ true → ClosesResting (tails_of F.Tail.Tail)
        (readers F.Folder folder.old (laning lane.old ∷ []))
        (readers F.Folder folder.new (laning lane.new ∷ [])) }
    ensures stays { result ≡ false → readers F.Folder folder.new (laning lane.new ∷ [])
        ≡ readers F.Folder folder.old (laning lane.old ∷ []) }
{
    if !is_resting(lane, seat) {
        return false;
    }
    let harvester = lane.release_at(seat);
    release(folder, harvester);
    true
}

fn is_resting<T: Tail>(lane: &Lane<T>, seat: usize) -> bool
    requires seat { seat < length (laning lane.now).harvesters }
    ensures { result ≡ true → RestsAt seat (laning lane.now).harvesters }
{
    let look = lane.look(seat);
    look.changed || look.idle_since.is_some()
}

/// After a round: of each lane, closes the first file of which a read failed. Whether there was one. It takes no memory.
pub fn close_failed<F: Folder>(folder: &mut F, lanes: &mut [Lane<F::Tail>]) -> bool
    ensures { ClosesFailed (tails_of F.Tail.Tail) result
        (readers F.Folder folder.old (lanings lanes.old))
        (readers F.Folder folder.new (lanings lanes.new)) }
{
    let Some((first, rest)) = lanes.split_first_mut() else {
        return false;
    };
    let here = close_failed_of(folder, first);
    let later = close_failed(folder, rest);
    here || later
}

fn close_failed_of<F: Folder>(folder: &mut F, lane: &mut Lane<F::Tail>) -> bool
    ensures { ClosesFailed (tails_of F.Tail.Tail) result
        (readers F.Folder folder.old (laning lane.old ∷ []))
        (readers F.Folder folder.new (laning lane.new ∷ [])) }
{
    match lane.tally().failed {
        Some(slot) => {
            close_slot(folder, lane, slot);
            true
        }
        None => false,
    }
}

/// Closes the tail of a harvester of this slot, if the lane has one, and releases the harvester. It takes no memory.
pub fn close_slot<F: Folder>(folder: &mut F, lane: &mut Lane<F::Tail>, slot: Slot)
    ensures closes { ClosesSome (tails_of F.Tail.Tail)
        (readers F.Folder folder.old (laning lane.old ∷ []))
        (readers F.Folder folder.new (laning lane.new ∷ [])) }
    ensures lets_go { LetsSlotGo (Some slot) (laning lane.old) (laning lane.new) }
{
    if let Some(harvester) = lane.release(slot) {
        release(folder, harvester);
    }
}

/// Releases a harvester, and gives the folder its tail back. Takes no memory. The harvester counts its epochs in 32 bits.
pub(crate) fn release<F: Folder>(folder: &mut F, harvester: Harvester<F::Tail>)
    ensures told { F.told folder.new ≡ with_events
        (closing_of (F.Tail.told harvester.tail) (F.Tail.faults harvester.tail))
        (F.told folder.old) }
    ensures states_go_on { NoneEarlier (F.states folder.old) (F.states folder.new) }
    ensures open_tails { F.open_tails folder.new ≡ F.open_tails folder.old - 1 }
    ensures counts_faults { added_counts (F.faults folder.old) (F.Tail.faults harvester.tail)
        ≤ F.faults folder.new }
    ensures in_epoch { IsInEpoch (tails_of F.Tail.Tail) harvester }
{
    prove!(harvester.told().0.0 <= u32::MAX);
    folder.close(harvester.finish());
}

/// Releases lanes and workers, and puts the workers' wires before the others again. It takes no memory.
pub fn end_crew<T: Tail, L: Link, W: Wire<Link = L>>(crew: Crew<T, W, L>, wires: &mut Vec<W>)
    requires lanes { All HasLanePasses (lanings crew.lanes.items) }
    requires no_harvesters { All HasNoHarvesters (lanings crew.lanes.items) }
    requires carriers { All HasCarrierPasses crew.carriers.items }
    requires room { vec_len crew.carriers + vec_len wires.old ≤ vec_capacity wires.old }
    ensures ended { EndsCarriers (links_of L.Link) (wires_of W.Wire)
        crew.carriers.items wires.old.items wires.new.items }
    ensures capacity { vec_capacity wires.new ≡ vec_capacity wires.old }
{
    let (lanes, carriers) = crew.end();
    end_lanes(lanes);
    end_carriers(carriers, wires);
}

/// Releases lanes that have no harvesters. What they hold is given up.
pub fn end_lanes<T: Tail>(mut lanes: Vec<Lane<T>>)
    requires passes { All HasLanePasses (lanings lanes.items) }
    requires no_harvesters { All HasNoHarvesters (lanings lanes.items) }
{
    'lanes: while let Some(lane) = lanes.pop() {
        end_lane(lane);
    }
    lanes.destroy_empty();
}

fn end_lane<T: Tail>(lane: Lane<T>)
    requires passes { HasLanePasses (laning lane) }
    requires no_harvesters { HasNoHarvesters (laning lane) }
{
    let _ = lane.end();
}

/// From the last worker on, so that the wires are in order again.
fn end_carriers<L: Link, W: Wire<Link = L>>(mut carriers: Vec<Carrier<W, L>>, wires: &mut Vec<W>)
    requires passes { All HasCarrierPasses carriers.items }
    requires room { vec_len carriers + vec_len wires.old ≤ vec_capacity wires.old }
    ensures ended { EndsCarriers (links_of L.Link) (wires_of W.Wire)
        carriers.items wires.old.items wires.new.items }
    ensures capacity { vec_capacity wires.new ≡ vec_capacity wires.old }
{
    'carriers: while let Some(carrier) = carriers.pop() {
        end_carrier(carrier, wires);
    }
    carriers.destroy_empty();
}

fn end_carrier<L: Link, W: Wire<Link = L>>(carrier: Carrier<W, L>, wires: &mut Vec<W>)
    requires passes { HasCarrierPasses carrier }
    requires room { vec_len wires.old < vec_capacity wires.old }
    ensures ended { PutsWire (links_of L.Link) (wires_of W.Wire)
        carrier wires.old.items wires.new.items }
    ensures len { vec_len wires.new ≡ vec_len wires.old + 1 }
    ensures capacity { vec_capacity wires.new ≡ vec_capacity wires.old }
{
    let Carrier {
        worker,
        mut wire,
        carried: _,
    } = carrier;
    let _ = worker.end(&mut wire);
    // There is room, so none is refused.
    if let Err(refused) = wires.insert(0, wire) {
        wires.push_reserved(refused.value);
    }
}

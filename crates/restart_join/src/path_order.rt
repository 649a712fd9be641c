ghost use Rattle.std.specs.Prelude.{◌≡◌, ◌<◌, All, IfOk, length};
ghost use Rattle.std.specs.List.Sorted.{IsPermutation, IsSortedBy};
ghost use Rattle.std.specs.Ordering.{is_lt};
ghost use Rattle.restart_join.specs.PathOrder.{InPathOrder, path_at, paths_of, place_cmp};

use prospector_core::Seen;
use std::alloc::Global;
use wire_base::NoMemory;

/// The places of the members in byte order of their paths, those of one path in the order in which they are.
pub fn path_order(alloc: Global, seen: &[Seen]) -> Result<Vec<usize>, NoMemory>
    ensures in_order { IfOk result (λ order. InPathOrder seen.now order.items) }
    ensures places { IfOk result (λ order. All (λ place. place < length seen.now) order.items) }
{
    let mut order = Vec::with_capacity(alloc, seen.len())?;
    for place in 0..seen.len() {
        order.push(place)?;
    }
    sort_places(seen, &mut order);
    Ok(order)
}

fn sort_places(seen: &[Seen], order: &mut Vec<usize>)
    ensures permutation { IsPermutation order.old.items order.new.items }
    ensures sorted { IsSortedBy (λ a b. is_lt (place_cmp (paths_of seen.now) a b)) order.new.items }
{
    order.sort_unstable_by(|a, b| path_at(seen, *a).cmp(path_at(seen, *b)).then(a.cmp(b)));
}

/// The path at a place, and no byte if no member is there.
fn path_at(seen: &[Seen], place: usize) -> &[u8]
    ensures { result.now ≡ path_at (paths_of seen.now) place }
{
    if place < seen.len() {
        seen[place].path.bytes()
    } else {
        &[]
    }
}

ghost use Rattle.std.specs.Prelude.{◌≡◌, ◌≢◌, ◌<◌, All, IfNone, IfSome, OnErr, OnOk, length, slice_index, false, true};
ghost use Rattle.std.specs.List.Sorted.{IsPermutation, IsSortedBy};
ghost use Rattle.std.specs.Ordering.{is_lt};
ghost use Rattle.prospector_core.specs.KeyIndex.{IsIndex, key_at};
ghost use Rattle.prospector_core.specs.Marks.{AreApart, keys_of, slots_of};
ghost use Rattle.wire_base.specs.KeyOrder.{compare};

use crate::marks::Watched;
use wire_base::{NoMemory, Slot};

/// Where the file of this key is.
pub fn place_of(watched: &[Watched], order: &[usize], key: &[u8]) -> Option<usize>
    requires { IsIndex (keys_of watched.now) order.now }
    ensures within { IfSome result (λ place. place < length watched.now) }
    ensures found { IfSome result (λ place. key_at (keys_of watched.now) place ≡ key.now) }
    ensures absent { IfNone result (All (λ one. one.file.key ≢ key.now) watched.now) }
{
    match order.binary_search_by(|place| key_at(watched, *place).cmp(key)) {
        Ok(i) => Some(order[i]),
        Err(_) => None,
    }
}

/// Where the file of this key is, by the index if there is one for the files as they are, else by a look at each.
pub fn place_by_key(
    watched: &[Watched],
    order: &[usize],
    indexed: bool,
    key: &[u8],
) -> Option<usize>
    requires { indexed ≡ true → IsIndex (keys_of watched.now) order.now }
    ensures within { IfSome result (λ place. place < length watched.now) }
    ensures found { IfSome result (λ place. key_at (keys_of watched.now) place ≡ key.now) }
    ensures absent { IfNone result (All (λ one. one.file.key ≢ key.now) watched.now) }
{
    if indexed {
        return place_of(watched, order, key);
    }
    place_of_key(watched, key)
}

/// The same by a look at each.
fn place_of_key(watched: &[Watched], key: &[u8]) -> Option<usize>
    ensures within { IfSome result (λ place. place < length watched.now) }
    ensures found { IfSome result (λ place. key_at (keys_of watched.now) place ≡ key.now) }
    ensures absent { IfNone result (All (λ one. one.file.key ≢ key.now) watched.now) }
{
    for (place, one) in watched.iter().enumerate() {
        if one.file.key.bytes() == key {
            return Some(place);
        }
    }
    None
}

/// Where the file of this slot is.
pub fn place_of_slot(watched: &[Watched], slot: Slot) -> Option<usize>
    requires { AreApart watched.now }
    ensures within { IfSome result (λ place. place < length watched.now) }
    ensures found { IfSome result (λ place. slice_index (slots_of watched.now) place ≡ slot.0) }
    ensures absent { IfNone result (All (λ one. one.file.slot.0 ≢ slot.0) watched.now) }
{
    match watched.binary_search_by(|one| one.file.slot.0.cmp(&slot.0)) {
        Ok(place) => Some(place),
        Err(_) => None,
    }
}

/// Makes the index if there is none for the files as they are.
pub fn need_index(
    watched: &[Watched],
    order: &mut Vec<usize>,
    indexed: bool,
) -> Result<(), NoMemory>
    requires { indexed ≡ true → IsIndex (keys_of watched.now) order.old.items }
    ensures indexed { OnOk result (IsIndex (keys_of watched.now) order.new.items) }
    ensures refused_without_one { OnErr result (indexed ≡ false) }
{
    if indexed {
        return Ok(());
    }
    index_keys(watched, order)
}

/// Whether there is an index for the files as they are, with those that were added.
pub fn grow_index(watched: &[Watched], order: &mut Vec<usize>, grown: bool) -> bool
    requires { grown ≡ false → IsIndex (keys_of watched.now) order.old.items }
    ensures { result ≡ true → IsIndex (keys_of watched.now) order.new.items }
{
    if !grown {
        return true;
    }
    index_keys(watched, order).is_ok()
}

/// Takes memory only if there are more files than ever before.
pub fn index_keys(watched: &[Watched], order: &mut Vec<usize>) -> Result<(), NoMemory>
    ensures { OnOk result (IsIndex (keys_of watched.now) order.new.items) }
{
    order.clear();
    for place in 0..watched.len() {
        order.push(place)?;
    }
    sort_places(watched, order);
    Ok(())
}

fn sort_places(watched: &[Watched], order: &mut Vec<usize>)
    ensures permutation { IsPermutation order.old.items order.new.items }
    ensures sorted { IsSortedBy (λ a b. is_lt (compare (key_at (keys_of watched.now) a) (key_at (keys_of watched.now) b))) order.new.items }
{
    order.sort_unstable_by(|a, b| key_at(watched, *a).cmp(key_at(watched, *b)));
}

/// The key at a place, and no byte if no file is there.
fn key_at(watched: &[Watched], place: usize) -> &[u8]
    ensures { result.now ≡ key_at (keys_of watched.now) place }
{
    if place < watched.len() {
        watched[place].file.key.bytes()
    } else {
        &[]
    }
}

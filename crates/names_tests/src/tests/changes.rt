use crate::tests::parts::text;
use prospector_core::{Change, ProspectError, Prospector, Seen};
use std::alloc::Global;
use std::test::Fail;
use wire_base::{Begin, Epoch, Full, Slot, TextError};

/// The key of a file, its path and its size. One whose key begins with `c` is of the input that cleans.
type Member = (&'static str, &'static str, u64);

/// Whether the removed files of each input are to be forgotten.
const CLEAN: [bool; 2] = [false, true];

/// The member, as a scan shows it.
fn seen(alloc: Global, member: &Member) -> Result<Seen, TextError> {
    let (key, path, size) = *member;
    Ok(Seen {
        input: if key.starts_with('c') { 1 } else { 0 },
        key: text(alloc, key)?,
        path: text(alloc, path)?,
        size,
    })
}

/// A scan of these members.
fn members(alloc: Global, rows: &[Member]) -> Result<Vec<Seen>, Fail> {
    let mut members = Vec::new(alloc);
    for row in rows {
        members.push(seen(alloc, row)?)?;
    }
    Ok(members)
}

/// A change, with a slot first in all but the last, and the values of its fields after it.
enum Told {
    Created(u32, u32, Member),
    Returned(u32, &'static str, u64),
    Renamed(u32, &'static str, &'static str),
    Written(u32, u64),
    Truncated(u32, u64),
    Removed(u32),
    Doubled(&'static str),
}

/// The change is this one.
fn is_told(change: &Change, told: &Told) -> bool {
    match (change, told) {
        (
            Change::Created {
                slot,
                input,
                key,
                path,
                size,
            },
            Told::Created(number, of, member),
        ) => {
            slot.0 == *number
                && input == of
                && key.as_str() == member.0
                && path.as_str() == member.1
                && *size == member.2
        }
        (Change::Returned { slot, path, size }, Told::Returned(number, at, now)) => {
            slot.0 == *number && path.as_str() == *at && size == now
        }
        (Change::Renamed { slot, from, to }, Told::Renamed(number, old, new)) => {
            slot.0 == *number && from.as_str() == *old && to.as_str() == *new
        }
        (Change::Written { slot, size }, Told::Written(number, now))
        | (Change::Truncated { slot, size }, Told::Truncated(number, now)) => {
            slot.0 == *number && size == now
        }
        (Change::Removed { slot }, Told::Removed(number)) => slot.0 == *number,
        (Change::Doubled { path }, Told::Doubled(at)) => path.as_str() == *at,
        _ => false,
    }
}

/// The changes are these, in this order.
fn are_told(changes: &[Change], told: &[Told]) -> bool {
    changes.len() == told.len()
        && changes
            .iter()
            .zip(told)
            .all(|(change, told)| is_told(change, told))
}

/// The files of a scan, whether it is whole, and its changes.
type Scan = (&'static [Member], bool, &'static [Told]);

/// The prospector reports the changes of the scan.
fn tells(alloc: Global, prospector: &mut Prospector, scan: &Scan) -> Result<bool, Fail> {
    let (rows, whole, told) = *scan;
    let seen = members(alloc, rows)?;
    let changes = prospector.compare(alloc, &seen, whole, &CLEAN)?;
    Ok(are_told(&changes, told))
}

const SCANS: [Scan; 14] = [
    (
        &[("a", "/a", 5), ("b", "/b", 5)],
        true,
        &[
            Told::Created(0, 0, ("a", "/a", 5)),
            Told::Created(1, 0, ("b", "/b", 5)),
        ],
    ),
    (&[("a", "/a", 5), ("b", "/b", 5)], true, &[]),
    (
        &[("a", "/a", 6), ("b", "/b", 4)],
        true,
        &[Told::Written(0, 6), Told::Truncated(1, 4)],
    ),
    (
        &[("a", "/d", 6), ("b", "/e", 9)],
        true,
        &[
            Told::Renamed(0, "/a", "/d"),
            Told::Renamed(1, "/b", "/e"),
            Told::Written(1, 9),
        ],
    ),
    (
        &[("a", "/d", 6), ("a", "/e", 6), ("b", "/f", 2)],
        true,
        &[
            Told::Doubled("/e"),
            Told::Renamed(1, "/e", "/f"),
            Told::Truncated(1, 2),
        ],
    ),
    (&[("a", "/d", 6)], false, &[]),
    (&[("b", "/f", 2)], true, &[Told::Removed(0)]),
    (&[("b", "/f", 2)], true, &[]),
    (
        &[("a", "/a", 7), ("a", "/b", 8), ("b", "/f", 2)],
        true,
        &[Told::Returned(0, "/a", 7), Told::Doubled("/b")],
    ),
    (
        &[("c", "/c", 1)],
        true,
        &[
            Told::Created(2, 1, ("c", "/c", 1)),
            Told::Removed(0),
            Told::Removed(1),
        ],
    ),
    (&[], true, &[Told::Removed(2)]),
    (
        &[("c", "/c", 4), ("c", "/d", 4)],
        true,
        &[Told::Doubled("/d")],
    ),
    (
        &[("n", "/n", 1), ("n", "/o", 1)],
        false,
        &[Told::Created(3, 0, ("n", "/n", 1)), Told::Doubled("/o")],
    ),
    (&[], true, &[Told::Removed(3)]),
];

#[test]
fn each_change_alone_and_in_pairs(rt: HostRuntime) -> Result<(), Fail> {
    let mut prospector = Prospector::begin(rt.alloc(), &[], 0)?;
    for (number, scan) in SCANS.iter().enumerate() {
        assert!(rt; tells(rt.alloc(), &mut prospector, scan)?, "scan {number}");
    }
    Ok(())
}

/// Files that come, go, and come again after the first was forgotten.
const FORGOTTEN: [Scan; 3] = [
    (
        &[("c", "/c", 1), ("x", "/x", 1)],
        true,
        &[
            Told::Created(0, 1, ("c", "/c", 1)),
            Told::Created(1, 0, ("x", "/x", 1)),
        ],
    ),
    (&[], true, &[Told::Removed(0), Told::Removed(1)]),
    (
        &[("c", "/c", 9), ("x", "/x", 1)],
        true,
        &[
            Told::Created(2, 1, ("c", "/c", 9)),
            Told::Returned(1, "/x", 1),
        ],
    ),
];

#[test]
fn a_forgotten_file_begins_anew(rt: HostRuntime) -> Result<(), Fail> {
    let mut prospector = Prospector::begin(rt.alloc(), &[], 0)?;
    for (number, scan) in FORGOTTEN.iter().enumerate() {
        if number == 2 {
            prospector.gone(Slot(0));
        }
        assert!(rt; tells(rt.alloc(), &mut prospector, scan)?, "scan {number}");
    }
    Ok(())
}

/// Whether the file of this key has this slot, path and size; with `None`, whether neither the slot nor the key has a file.
fn knows(prospector: &Prospector, slot: Slot, key: &str, place: Option<(&str, u64)>) -> bool {
    let by_key = prospector.slot_of(key.as_bytes());
    match (prospector.file_of(slot), place) {
        (Some(file), Some((path, size))) => {
            by_key == Some(slot)
                && file.slot == slot
                && file.key.as_str() == key
                && file.path.as_str() == path
                && file.size == size
        }
        (None, None) => by_key.is_none(),
        _ => false,
    }
}

/// A slot, a key, and the path and the size of its file, if there is one.
type Place = (u32, &'static str, Option<(&'static str, u64)>);

const FOUND: [Place; 3] = [
    (0, "c", Some(("/c", 1))),
    (1, "x", Some(("/x", 1))),
    (2, "d", None),
];

/// Once the first is gone.
const LEFT: [Place; 2] = [(0, "c", None), (1, "x", Some(("/x", 1)))];

fn knows_all(prospector: &Prospector, places: &[Place]) -> bool {
    places.iter().all(|(slot, key, place)| knows(prospector, Slot(*slot), key, *place))
}

#[test]
fn found_by_slot_and_by_key(rt: HostRuntime) -> Result<(), Fail> {
    let mut prospector = Prospector::begin(rt.alloc(), &[], 0)?;
    assert!(rt; tells(rt.alloc(), &mut prospector, &FORGOTTEN[0])?);
    assert!(rt; knows_all(&prospector, &FOUND));
    prospector.gone(Slot(0));
    assert!(rt; knows_all(&prospector, &LEFT));
    Ok(())
}

/// A prospector that remembers the file `a`, beside all but one of the rows that there may be.
fn nearly_full(alloc: Global) -> Result<Prospector, Fail> {
    let begin = Begin {
        slot: Slot(0),
        input: 0,
        key: text(alloc, "a")?,
        path: text(alloc, "/a")?,
        size: 3,
        epoch: Epoch(1),
        base: 2,
    };
    Ok(Prospector::begin(alloc, &[begin], 65_535)?)
}

const AFTER_REFUSAL: Scan = (&[("a", "/a", 4)], true, &[Told::Written(0, 4)]);

#[test]
fn one_file_too_many(rt: HostRuntime) -> Result<(), Fail> {
    let alloc = rt.alloc();
    let mut prospector = nearly_full(alloc)?;
    let seen = members(alloc, &[("a", "/a", 4), ("b", "/b", 1)])?;
    let path = match prospector.compare(alloc, &seen, true, &CLEAN) {
        Err(
            ProspectError::TooMany {
                what: Full::Files,
                path,
            },
        ) => path,
        _ => return Err("not refused".into()),
    };
    assert!(rt; path.as_str() == "/b");
    assert!(rt; tells(alloc, &mut prospector, &AFTER_REFUSAL)?);
    Ok(())
}

use crate::SlotDeed;
use crate::tests::{Member, Step, Trial};
use file_table::{AfterEnd, At, Deed, Stand};
use prospector_core::ProspectError;
use std::test::Fail;
use wire_base::{Epoch, Full, Slot};

/// The name, the key of the file with which the run begins, the steps, what the last scan asks for, and the state of each of these
/// slots then; no state if it is not known.
type TrialRow = (
    &'static str,
    &'static str,
    &'static [Step],
    &'static [(u32, Deed)],
    &'static [(u32, Option<Stand>)],
);

/// The place up to which a tail told.
const TOLD: At = At {
    epoch: Epoch(1),
    place: 9,
};

const A: &[Member] = &[("a", "/a", 4)];

const GROWN: &[Member] = &[("a", "/a", 9)];

const CUT: &[Member] = &[("a", "/a", 1)];

const RENAMED: &[Member] = &[("a", "/b", 4)];

const NEW: &[Member] = &[("a", "/a", 4), ("n", "/n", 0)];

const DOUBLED: &[Member] = &[("a", "/a", 4), ("n", "/n", 0), ("n", "/o", 0)];

const C: &[Member] = &[("c", "/c", 4)];

const R: &[Member] = &[("r", "/r", 4)];

const CR: &[Member] = &[("cr", "/cr", 4)];

const SHOWN: &[TrialRow] = &[
    (
        "first",
        "a",
        &[Step::Scan(A)],
        &[],
        &[(0, Some(Stand::Waits))],
    ),
    (
        "new",
        "a",
        &[Step::Scan(A), Step::Open, Step::Scan(NEW), Step::Open],
        &[],
        &[(0, Some(Stand::Open)), (1, Some(Stand::Open)), (2, None)],
    ),
    (
        "grown",
        "a",
        &[Step::Scan(A), Step::Open, Step::Scan(GROWN)],
        &[(0, Deed::Stir)],
        &[(0, Some(Stand::Open))],
    ),
    (
        "cut",
        "a",
        &[Step::Scan(A), Step::Open, Step::Scan(CUT)],
        &[(0, Deed::Stir)],
        &[(0, Some(Stand::Open))],
    ),
    (
        "renamed",
        "a",
        &[Step::Scan(A), Step::Open, Step::Scan(RENAMED)],
        &[(0, Deed::Rename { scan: 1 })],
        &[(0, Some(Stand::Open))],
    ),
    (
        "renamed_before_its_begin",
        "a",
        &[Step::Scan(A), Step::Scan(RENAMED)],
        &[],
        &[(0, Some(Stand::Waits))],
    ),
    (
        "passed_over_and_listed_again",
        "a",
        &[Step::Scan(A), Step::Scan(A), Step::Open],
        &[],
        &[(0, Some(Stand::Open))],
    ),
    (
        "idle_and_grown",
        "a",
        &[Step::Scan(A), Step::Open, Step::Rest(0), Step::Scan(GROWN)],
        &[],
        &[(0, Some(Stand::Waits))],
    ),
    (
        "doubled_path",
        "a",
        &[Step::Scan(A), Step::Scan(DOUBLED), Step::Open],
        &[],
        &[(1, Some(Stand::Open)), (2, None)],
    ),
    (
        "partial_removes_nothing",
        "c",
        &[Step::Scan(C), Step::Open, Step::Partial(&[])],
        &[],
        &[(0, Some(Stand::Open))],
    ),
];

const REMOVED: &[TrialRow] = &[
    (
        "removed_while_open",
        "a",
        &[Step::Scan(A), Step::Open, Step::Scan(&[])],
        &[(0, Deed::End)],
        &[(0, Some(Stand::Ending(AfterEnd::Stays)))],
    ),
    (
        "cleaned_while_open",
        "c",
        &[Step::Scan(C), Step::Open, Step::Scan(&[]), Step::Rest(0)],
        &[(0, Deed::End)],
        &[(0, Some(Stand::Forgotten))],
    ),
    (
        "removed_by_its_row",
        "r",
        &[Step::Scan(&[])],
        &[(0, Deed::BeginRemoved { forget: false })],
        &[(0, Some(Stand::Removed))],
    ),
    (
        "cleaned_by_its_row",
        "cr",
        &[Step::Scan(&[])],
        &[(0, Deed::BeginRemoved { forget: true })],
        &[(0, Some(Stand::Forgotten))],
    ),
    (
        "removed_without_a_row",
        "a",
        &[Step::Scan(&[]), Step::Gone(0)],
        &[(0, Deed::Drop)],
        &[(0, None)],
    ),
    (
        "cleaned_while_closed",
        "c",
        &[Step::Scan(C), Step::Open, Step::Rest(0), Step::Scan(&[])],
        &[(0, Deed::Forget(TOLD))],
        &[(0, Some(Stand::Forgotten))],
    ),
    (
        "returned_while_ending",
        "a",
        &[Step::Scan(A), Step::Open, Step::Scan(&[]), Step::Scan(A)],
        &[],
        &[(0, Some(Stand::Ending(AfterEnd::Opens)))],
    ),
    (
        "returned_after_its_end",
        "a",
        &[
            Step::Scan(A),
            Step::Open,
            Step::Scan(&[]),
            Step::Rest(0),
            Step::Scan(GROWN),
            Step::Open,
        ],
        &[],
        &[(0, Some(Stand::Open))],
    ),
    (
        "lost_and_missed",
        "c",
        &[
            Step::Scan(C),
            Step::Open,
            Step::Scan(&[]),
            Step::Change(0),
            Step::Scan(&[]),
        ],
        &[(0, Deed::Forget(TOLD))],
        &[(0, Some(Stand::Forgotten))],
    ),
    (
        "lost_and_partly_missed",
        "c",
        &[
            Step::Scan(C),
            Step::Open,
            Step::Scan(&[]),
            Step::Change(0),
            Step::Partial(&[]),
        ],
        &[],
        &[(0, Some(Stand::Lost))],
    ),
    (
        "lost_and_shown",
        "c",
        &[
            Step::Scan(C),
            Step::Open,
            Step::Scan(&[]),
            Step::Change(0),
            Step::Scan(C),
        ],
        &[],
        &[(0, Some(Stand::Lost))],
    ),
    (
        "known_again_under_a_new_slot",
        "cr",
        &[Step::Scan(&[]), Step::Gone(0), Step::Scan(CR), Step::Open],
        &[],
        &[(0, None), (1, Some(Stand::Open))],
    ),
    (
        "opened_by_its_row",
        "r",
        &[Step::Scan(R), Step::Open],
        &[],
        &[(0, Some(Stand::Open))],
    ),
];

fn are_deeds(deeds: &[SlotDeed], wanted: &[(u32, Deed)]) -> bool {
    if deeds.len() != wanted.len() {
        return false;
    }
    deeds.iter().zip(wanted).all(|(one, (slot, deed))| one.slot.0 == *slot && one.deed == *deed)
}

#[test]
fn each_change_asks_for_its_deed(rt: HostRuntime) -> Result<(), Fail> {
    for rows in [SHOWN, REMOVED] {
        for (name, key, steps, deeds, stands) in rows {
            let mut trial = Trial::begin(rt.alloc(), key, 0)?;
            for step in *steps {
                trial.take(rt.alloc(), *step)?;
            }
            assert!(rt; are_deeds(&trial.deeds, deeds), "{name}");
            for (slot, stand) in *stands {
                assert!(rt; trial.stand(*slot) == *stand, "{name} {slot}");
                let known = trial.files.known(Slot(*slot)).is_some();
                assert_eq!(rt; known, stand.is_some(), "{name} {slot}");
            }
        }
    }
    Ok(())
}

#[test]
fn one_file_too_many(rt: HostRuntime) -> Result<(), Fail> {
    let mut trial = Trial::begin(rt.alloc(), "a", 65_535)?;
    assert!(rt; trial.scan(rt.alloc(), A, true)?.is_none());
    match trial.scan(rt.alloc(), &[("m", "/m", 1), ("n", "/n", 1)], true)? {
        Some(ProspectError::TooMany { what, path }) => {
            assert!(rt; what == Full::Files);
            assert_eq!(rt; path.as_str(), "/m");
        }
        _ => assert!(rt; false),
    }
    assert!(rt; trial.stand(0) == Some(Stand::Waits));
    assert!(rt; trial.stand(1).is_none());
    assert!(rt; trial.files.known(Slot(0)).is_some());
    Ok(())
}

#[test]
fn a_renamed_file_has_its_new_path(rt: HostRuntime) -> Result<(), Fail> {
    let mut trial = Trial::begin(rt.alloc(), "a", 0)?;
    for members in [A, RENAMED, &[]] {
        trial.scan(rt.alloc(), members, true)?;
    }
    match trial.files.known(Slot(0)) {
        Some(file) => assert_eq!(rt; file.path.as_str(), "/b"),
        None => assert!(rt; false),
    }
    Ok(())
}

use crate::tests::{Step, at, tell};
use crate::{AfterEnd, At, Deed, FileTable, Stand};
use std::test::Fail;
use wire_base::{Epoch, Slot};

/// The steps, what the last of them asks for, and the state of the file then; no state if it left.
type Row = (&'static str, &'static [Step], Deed, Option<Stand>);

/// Up to where a tail told that was read to 5.
const FIVE: At = At {
    epoch: Epoch(1),
    place: 5,
};

const OPEN: Step = Step::Open { place: 0 };

/// All that was listed is read, and nothing came for longer than `close_inactive`.
const IDLE: Step = Step::Look {
    changed: false,
    idle_since: Some(0),
    read_to: 5,
    listed: 5,
};

const CHANGED: Step = Step::Look {
    changed: true,
    idle_since: None,
    read_to: 5,
    listed: 5,
};

const REMOVED: Step = Step::Removed { clean: false };

const CLEANED: Step = Step::Removed { clean: true };

const FILES_THAT_STAY: &[Row] = &[
    (
        "created_waits",
        &[Step::Created],
        Deed::Nothing,
        Some(Stand::Waits),
    ),
    (
        "opened",
        &[Step::Created, OPEN],
        Deed::Nothing,
        Some(Stand::Open),
    ),
    (
        "written_stirs",
        &[Step::Created, OPEN, Step::Written],
        Deed::Stir,
        Some(Stand::Open),
    ),
    (
        "truncated_stirs",
        &[Step::Created, OPEN, Step::Truncated],
        Deed::Stir,
        Some(Stand::Open),
    ),
    (
        "idle_is_closed",
        &[Step::Created, OPEN, IDLE],
        Deed::Nothing,
        Some(Stand::Closed),
    ),
    (
        "idle_for_less_stays_open",
        &[
            Step::Created,
            OPEN,
            Step::Look {
                changed: false,
                idle_since: Some(5_001),
                read_to: 5,
                listed: 5,
            },
        ],
        Deed::Nothing,
        Some(Stand::Open),
    ),
    (
        "at_rest_below_what_is_listed_is_opened_anew",
        &[
            Step::Created,
            OPEN,
            Step::Look {
                changed: false,
                idle_since: Some(0),
                read_to: 5,
                listed: 6,
            },
        ],
        Deed::Nothing,
        Some(Stand::Waits),
    ),
    (
        "closed_is_opened_at_written",
        &[Step::Created, OPEN, IDLE, Step::Written],
        Deed::Nothing,
        Some(Stand::Waits),
    ),
    (
        "changed_is_found_anew",
        &[Step::Created, OPEN, CHANGED],
        Deed::Nothing,
        Some(Stand::Waits),
    ),
    (
        "renamed_before_its_begin",
        &[Step::Created, Step::Renamed { scan: 7 }],
        Deed::Nothing,
        Some(Stand::Waits),
    ),
    (
        "renamed_by_its_scan",
        &[Step::Created, OPEN, IDLE, Step::Renamed { scan: 7 }],
        Deed::Rename { scan: 7 },
        Some(Stand::Closed),
    ),
];

const REMOVED_FILES: &[Row] = &[
    (
        "without_a_row_it_drops",
        &[Step::Created, REMOVED],
        Deed::Drop,
        Some(Stand::Forgotten),
    ),
    (
        "by_its_row_it_begins",
        &[Step::Begin { row: true }, REMOVED],
        Deed::BeginRemoved { forget: false },
        Some(Stand::Removed),
    ),
    (
        "by_its_row_it_begins_and_is_forgotten",
        &[Step::Begin { row: true }, CLEANED],
        Deed::BeginRemoved { forget: true },
        Some(Stand::Forgotten),
    ),
    (
        "closed_is_forgotten_at_once",
        &[Step::Created, OPEN, IDLE, CLEANED],
        Deed::Forget(FIVE),
        Some(Stand::Forgotten),
    ),
    (
        "open_ends",
        &[Step::Created, OPEN, CLEANED],
        Deed::End,
        Some(Stand::Ending(AfterEnd::Goes)),
    ),
    (
        "end_look_forgets",
        &[Step::Created, OPEN, CLEANED, IDLE],
        Deed::Forget(FIVE),
        Some(Stand::Forgotten),
    ),
    (
        "end_look_keeps_the_row",
        &[Step::Created, OPEN, REMOVED, IDLE],
        Deed::Nothing,
        Some(Stand::Removed),
    ),
    (
        "changed_before_its_end_is_lost",
        &[Step::Created, OPEN, CLEANED, CHANGED],
        Deed::Nothing,
        Some(Stand::Lost),
    ),
    (
        "lost_is_forgotten_by_a_whole_scan",
        &[
            Step::Created,
            OPEN,
            CLEANED,
            CHANGED,
            Step::EndScan {
                scan: 3,
                whole: true,
            },
        ],
        Deed::Forget(FIVE),
        Some(Stand::Forgotten),
    ),
    (
        "lost_stays_after_a_partial_scan",
        &[
            Step::Created,
            OPEN,
            CLEANED,
            CHANGED,
            Step::EndScan {
                scan: 3,
                whole: false,
            },
        ],
        Deed::Nothing,
        Some(Stand::Lost),
    ),
    (
        "lost_stays_where_its_key_is_shown",
        &[
            Step::Created,
            OPEN,
            CLEANED,
            CHANGED,
            Step::Show { scan: 3 },
            Step::EndScan {
                scan: 3,
                whole: true,
            },
        ],
        Deed::Nothing,
        Some(Stand::Lost),
    ),
    (
        "returned_waits",
        &[Step::Created, OPEN, IDLE, REMOVED, Step::Returned],
        Deed::Nothing,
        Some(Stand::Waits),
    ),
    (
        "returned_while_it_ends",
        &[Step::Created, OPEN, REMOVED, Step::Returned],
        Deed::Nothing,
        Some(Stand::Ending(AfterEnd::Opens)),
    ),
    (
        "returned_is_opened_after_its_end_look",
        &[Step::Created, OPEN, REMOVED, Step::Returned, IDLE],
        Deed::Nothing,
        Some(Stand::Waits),
    ),
    (
        "stored_is_not_gone",
        &[
            Step::Created,
            OPEN,
            CLEANED,
            IDLE,
            Step::Gone { stored: true },
        ],
        Deed::Nothing,
        Some(Stand::Forgotten),
    ),
    (
        "gone_leaves",
        &[
            Step::Created,
            OPEN,
            CLEANED,
            IDLE,
            Step::Gone { stored: false },
        ],
        Deed::Nothing,
        None,
    ),
];

#[test]
fn changes_from_the_listing(rt: HostRuntime) -> Result<(), Fail> {
    let slot = Slot(3);
    for rows in [FILES_THAT_STAY, REMOVED_FILES] {
        for (name, steps, asked, stand) in rows {
            let mut table = FileTable::new(rt.alloc());
            let mut last = Deed::Nothing;
            for step in *steps {
                last = tell(rt.alloc(), &mut table, slot, *step)?;
            }
            assert_eq!(rt; last, *asked, "{name}");
            let stands = match table.find(slot) {
                Some(entry) => Some(entry.stand),
                None => None,
            };
            assert!(rt; stands == *stand, "{name}");
            let first = table.first_from(Slot(0));
            assert_eq!(rt; first.is_some(), stand.is_some(), "{name}");
        }
    }
    Ok(())
}

/// The place, the size, and the place and the epoch at which a file that goes on there is opened.
const OPENINGS: &[(u64, u64, u64, u32)] = &[
    (10, 10, 10, 1),
    (10, 9, 0, 2),
    (10, 11, 10, 1),
    (0, 0, 0, 1),
];

#[test]
fn a_cut_file_goes_on_in_the_next_epoch(rt: HostRuntime) -> Result<(), Fail> {
    let slot = Slot(0);
    let mut table = FileTable::new(rt.alloc());
    for (place, size, opened, epoch) in OPENINGS {
        table.begin(slot, at(*place), true)?;
        let found = table.find(slot).map(|entry| entry.opening(*size));
        let wanted = At {
            epoch: Epoch(*epoch),
            place: *opened,
        };
        assert!(rt; found == Some(Some(wanted)), "{place} at {size}");
    }
    let last = At {
        epoch: Epoch(u32::MAX),
        place: 10,
    };
    table.begin(slot, last, true)?;
    assert!(rt; table.find(slot).map(|entry| entry.opening(9)) == Some(None));
    Ok(())
}

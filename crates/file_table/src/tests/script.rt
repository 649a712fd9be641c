use crate::tests::{Step, tell};
use crate::{AfterEnd, FileTable, Stand};
use std::alloc::{AllocError, Global};
use std::test::Fail;
use wire_base::Slot;

/// What the slow model keeps of the steps that were taken, in order.
#[derive(Clone, Copy, Debug, PartialEq, Eq)]
enum Kind {
    Began,
    BeganByRow,
    Returned,
    Resized,
    RemovedKept,
    RemovedCleaned,
    Missed,
    Opened,
    ShutChanged,
    ShutEnded,
    ShutUnread,
    ShutIdle,
    Gone,
}

const STARTS: &[Kind] = &[Kind::Began, Kind::BeganByRow];

const REMOVALS: &[Kind] = &[Kind::RemovedKept, Kind::RemovedCleaned];

const SHUTS: &[Kind] = &[
    Kind::ShutChanged,
    Kind::ShutEnded,
    Kind::ShutUnread,
    Kind::ShutIdle,
];

const NEWS: &[Kind] = &[
    Kind::Returned,
    Kind::Resized,
    Kind::RemovedKept,
    Kind::RemovedCleaned,
    Kind::Opened,
    Kind::ShutChanged,
    Kind::ShutEnded,
    Kind::ShutUnread,
];

/// One of the first kinds was taken in, and none of the others since.
fn since(told: &[Kind], are: &[Kind], ends: &[Kind]) -> bool {
    for kind in told.iter().rev() {
        if are.contains(kind) {
            return true;
        }
        if ends.contains(kind) {
            return false;
        }
    }
    false
}

/// What was taken in from the last beginning on.
fn life(told: &[Kind]) -> &[Kind] {
    let mut start = 0;
    for (index, kind) in told.iter().enumerate() {
        if STARTS.contains(kind) {
            start = index;
        }
    }
    told.get(start..).unwrap_or(told)
}

fn is_open(told: &[Kind]) -> bool {
    since(told, &[Kind::Opened], SHUTS)
}

fn ends(told: &[Kind]) -> bool {
    is_open(told) && since(told, REMOVALS, &[Kind::Opened])
}

/// The state of a file for which all this was taken in; none if it is not known.
fn stand(told: &[Kind]) -> Option<Stand> {
    if !since(told, STARTS, &[Kind::Gone]) {
        return None;
    }
    let told = life(told);
    let removed = since(told, REMOVALS, &[Kind::Returned]);
    let cleaned = since(
        told,
        &[Kind::RemovedCleaned],
        &[Kind::RemovedKept, Kind::Returned],
    );
    let begun = told.contains(&Kind::Opened) || told.contains(&Kind::BeganByRow);
    let lost = since(
        told,
        &[Kind::ShutChanged],
        &[
            Kind::RemovedKept,
            Kind::RemovedCleaned,
            Kind::ShutEnded,
            Kind::Missed,
        ],
    );
    Some(if ends(told) {
        Stand::Ending(match (removed, cleaned) {
            (false, _) => AfterEnd::Opens,
            (true, false) => AfterEnd::Stays,
            (true, true) => AfterEnd::Goes,
        })
    } else if is_open(told) {
        Stand::Open
    } else if removed {
        match (begun && !cleaned, lost) {
            (true, _) => Stand::Removed,
            (false, true) => Stand::Lost,
            (false, false) => Stand::Forgotten,
        }
    } else if since(told, &[Kind::ShutIdle], NEWS) {
        Stand::Closed
    } else {
        Stand::Waits
    })
}

/// What the model keeps of a step.
fn kind_of(told: &[Kind], shown: u64, step: Step) -> Option<Kind> {
    match step {
        Step::Begin { row: true } => Some(Kind::BeganByRow),
        Step::Begin { row: false } | Step::Created => Some(Kind::Began),
        Step::Returned => Some(Kind::Returned),
        Step::Written | Step::Truncated => Some(Kind::Resized),
        Step::Removed { clean: true } => Some(Kind::RemovedCleaned),
        Step::Removed { clean: false } => Some(Kind::RemovedKept),
        Step::EndScan { scan, whole } if whole && shown != scan => Some(Kind::Missed),
        Step::Open { .. } if stand(told) == Some(Stand::Waits) => Some(Kind::Opened),
        Step::Gone { stored: false } if stand(told) == Some(Stand::Forgotten) => Some(Kind::Gone),
        Step::Look {
            changed,
            idle_since,
            read_to,
            listed,
        } if stand(told).is_some() && is_open(life(told)) => {
            if changed {
                return Some(Kind::ShutChanged);
            }
            let since = idle_since?;
            if ends(life(told)) {
                Some(Kind::ShutEnded)
            } else if read_to < listed {
                Some(Kind::ShutUnread)
            } else if since <= 5_000 {
                Some(Kind::ShutIdle)
            } else {
                None
            }
        }
        _ => None,
    }
}

/// The step of these digits.
fn step_of(digit: u64, other: u64) -> Step {
    let (flag, scan) = (other % 2 == 0, other % 5);
    match digit % 16 {
        0 => Step::Begin { row: flag },
        1 => Step::Created,
        2 | 3 => Step::Returned,
        4 => Step::Renamed { scan },
        5 => Step::Written,
        6 => Step::Truncated,
        7 => Step::Removed { clean: flag },
        8 => Step::Show { scan },
        9 => Step::EndScan { scan, whole: flag },
        10 | 11 => Step::Open { place: other },
        12 => Step::Gone { stored: flag },
        _ => Step::Look {
            changed: other % 3 == 0,
            idle_since: if other % 7 == 0 {
                None
            } else {
                Some(other % 10_000)
            },
            read_to: other % 4,
            listed: other % 3,
        },
    }
}

/// What the model keeps of one slot.
#[derive(Drop)]
struct Model {
    told: Vec<Kind>,
    /// The scan that showed it last; 99 if none did.
    shown: u64,
}

impl Model {
    fn new(alloc: Global) -> Model {
        Model {
            told: Vec::new(alloc),
            shown: 99,
        }
    }

    fn tell(&mut self, step: Step) -> Result<(), AllocError> {
        if let Step::Begin { .. } | Step::Created = step {
            self.shown = 99;
        }
        if let Step::Show { scan } = step {
            self.shown = scan;
        }
        if let Some(kind) = kind_of(&self.told, self.shown, step) {
            self.told.push(kind)?;
        }
        Ok(())
    }
}

#[test]
fn a_thousand_changes_beside_a_slow_model(rt: HostRuntime) -> Result<(), Fail> {
    let mut table = FileTable::new(rt.alloc());
    let mut models = [
        Model::new(rt.alloc()),
        Model::new(rt.alloc()),
        Model::new(rt.alloc()),
    ];
    let mut seed = 7u64;
    for count in 0..1_000u64 {
        seed = seed
            .wrapping_mul(6_364_136_223_846_793_005)
            .wrapping_add(1_442_695_040_888_963_407);
        let step = step_of(seed >> 40, seed >> 20);
        let slot = Slot((seed >> 60) as u32 % 3);
        tell(rt.alloc(), &mut table, slot, step)?;
        models[slot.0 as usize].tell(step)?;
        for (number, model) in models.iter().enumerate() {
            let stands = match table.find(Slot(number as u32)) {
                Some(entry) => Some(entry.stand),
                None => None,
            };
            assert!(rt; stands == stand(&model.told), "step {count} at {number}");
        }
    }
    Ok(())
}

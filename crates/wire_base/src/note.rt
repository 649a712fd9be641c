use crate::{Epoch, Moment, RuleNo, Slot, Span, Text};

/// How a file that a scan shows begins.
#[derive(Debug, Drop, PartialEq, Eq)]
pub struct Begin {
    pub slot: Slot,
    /// The input's number in the settings, from 0.
    pub input: u32,
    pub key: Text,
    pub path: Text,
    /// The size when it was listed, in bytes.
    pub size: u64,
    pub epoch: Epoch,
    /// The place from which it is read, in bytes.
    pub base: u64,
}

/// Why a span is settled.
#[derive(Clone, Copy, Debug, PartialEq, Eq)]
pub enum Cause {
    /// A peer acknowledged its payload.
    Acked,
    /// A written rule dropped it.
    Dropped(RuleNo),
}

/// What is reported to the keeper.
#[derive(Debug, Drop, PartialEq, Eq)]
pub enum Note {
    Begin {
        slot: Slot,
        key: Text,
        path: Text,
        epoch: Epoch,
        base: u64,
        /// That of the row with which the run began, or 0 if there was none.
        changed: Moment,
    },
    Announce {
        slot: Slot,
        epoch: Epoch,
    },
    Settle {
        slot: Slot,
        epoch: Epoch,
        span: Span,
        cause: Cause,
    },
    Rename {
        slot: Slot,
        scan: u64,
        path: Text,
    },
    /// A scan listed the file with this moment of change.
    Seen {
        slot: Slot,
        changed: Moment,
    },
    Forget {
        slot: Slot,
        epoch: Epoch,
        end: u64,
    },
}

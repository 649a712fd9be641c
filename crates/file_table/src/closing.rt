ghost use Rattle.std.specs.Prelude.{◌≡◌};
ghost use Rattle.file_table.specs.Closings.{closing_of};

use crate::{At, Stand};
use wire_base::Moment;

/// Why a tail is closed before a scan.
#[derive(Clone, Copy, Debug, PartialEq, Eq)]
pub enum Closing {
    /// A turn found that the file has another key or none, or that its last epoch is over.
    Changed,
    /// The file was removed, and its end look was made.
    Ended,
    /// It is at its end, and a scan listed more bytes than it read: the path now shows another file.
    Unread,
    /// It gave no line for `close_inactive`, and all that was listed is read.
    Idle,
}

/// What a look at an open tail gives.
#[derive(Clone, Copy, Debug, PartialEq, Eq)]
pub struct TailLook {
    /// The epoch, and the end of its last reported span.
    pub told: At,
    /// The place up to which it read, in bytes.
    pub read_to: u64,
    /// The size with which a scan last listed the file, in bytes.
    pub listed: u64,
    /// No further turn is made.
    pub changed: bool,
    /// Since when the file gave no line. `None`: an event waits for lines, or its end was not found since the last change.
    pub idle_since: Option<Moment>,
}

/// When a file that gives no line is idle.
#[derive(Clone, Copy, Debug, PartialEq, Eq)]
pub struct Inactive {
    pub now: Moment,
    /// `close_inactive` of the file's input, in milliseconds.
    pub after_ms: u64,
}

/// Whether a file in this state is to be closed, and why.
pub(crate) fn closing_of(stand: Stand, look: &TailLook, inactive: Inactive) -> Option<Closing>
    ensures { result ≡ closing_of stand look.now inactive }
{
    if !stand.has_tail() {
        return None;
    }
    if look.changed {
        return Some(Closing::Changed);
    }
    let since = look.idle_since?;
    if let Stand::Ending(_) = stand {
        return Some(Closing::Ended);
    }
    if look.read_to < look.listed {
        return Some(Closing::Unread);
    }
    if inactive.now.0.saturating_sub(since.0) < inactive.after_ms {
        return None;
    }
    Some(Closing::Idle)
}

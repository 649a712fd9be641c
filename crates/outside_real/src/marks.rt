ghost use Rattle.wire_base.specs.Ranges.{IsMoment, IsPlace};

use std::fs::Metadata;
use std::os::unix::fs::MetadataExt;
use std::time::{Duration, UNIX_EPOCH};
use wire_base::{MAX_MOMENT, MAX_PLACE, Moment};

/// A time since 1970 as a moment; one past `MAX_MOMENT` is that number.
pub(crate) fn moment_of(since_1970: Duration) -> Moment
    ensures { IsMoment result }
{
    let milliseconds = u64::try_from(since_1970.as_millis()).unwrap_or(MAX_MOMENT);
    Moment(milliseconds.min(MAX_MOMENT))
}

/// When the file was last changed; 0 if the system does not give it, or gives a time before 1970.
pub(crate) fn changed_of(found: &Metadata) -> Moment
    ensures { IsMoment result }
{
    match found.modified() {
        Ok(time) => moment_of(time.duration_since(UNIX_EPOCH).unwrap_or(Duration::ZERO)),
        Err(_) => Moment(0),
    }
}

/// Inode and device; no file has the inode 0, which is used if the system gives none.
pub(crate) fn numbers_of(found: &Metadata) -> Option<(u64, u64)> {
    match found.ino() {
        0 => None,
        inode => Some((inode, found.dev())),
    }
}

/// The length in bytes, at most `MAX_PLACE`.
pub(crate) fn size_of(found: &Metadata) -> u64
    ensures { IsPlace result }
{
    found.len().min(MAX_PLACE)
}

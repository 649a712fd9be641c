use std::fs::File;
use std::io::Read;
use std::rt::Files;
use std::{io, str};

/// The file in which Linux shows a process its limits.
const LIMITS: &str = "/proc/self/limits";

/// What the line of the limit begins with.
const OPEN_FILES: &str = "Max open files";

/// So many bytes of the limits are looked at; there are about 1,300.
const MOST: usize = 4_096;

/// How many files the process may have open; `None` if there is no limit, or none is known.
pub(crate) fn open_limit(rt: &impl Files<File = File>) -> Option<u64> {
    let mut buffer = [0u8; MOST];
    let count = read_limits(rt, &mut buffer).ok()?;
    let text = str::from_utf8(buffer.get(..count)?).ok()?;
    for line in text.lines() {
        if let Some(limits) = line.strip_prefix(OPEN_FILES) {
            return limits.split_whitespace().next()?.parse::<u64>().ok();
        }
    }
    None
}

/// Reads until the buffer is full or the file ends.
fn read_limits(rt: &impl Files<File = File>, buffer: &mut [u8]) -> io::Result<usize> {
    let mut file = File::open(rt, LIMITS)?;
    let mut count = 0usize;
    for _ in 0..MOST {
        let Some(rest) = buffer.get_mut(count..) else {
            break;
        };
        let more = file.read(rest)?;
        if more == 0 {
            break;
        }
        count = count.saturating_add(more);
    }
    Ok(count)
}

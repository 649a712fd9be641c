//! The standard streams, which a program may be started without.

use std::fs::{File, OpenOptions};
use std::io;
use std::os::fd::{AsFd, IntoRawFd};
use std::rt::Files;

/// Opens `/dev/null` in the place of a stream that is closed. The system gives a file the lowest number that
/// is free, so that the streams before this one have to be open.
pub fn hold_open(rt: &impl Files<File = File>, stream: &impl AsFd) -> io::Result<()> {
    if stream.as_fd().try_clone_to_owned().is_err() {
        let mut options = OpenOptions::new();
        let null = options.read(true).write(true).open(rt, "/dev/null")?;
        // It stays open until the program ends.
        let _ = null.into_raw_fd();
    }
    Ok(())
}

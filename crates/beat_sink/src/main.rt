//! The receiver's program: makes the objects that its arguments name, and calls `receive`. It prints nothing.
#![tactic(auto)]

mod objects;
mod port;
mod sink;

use lumber_server::{SinkStatus, is_command, receive};
use objects::Objects;
use std::process::ExitCode;

fn main(rt: HostRuntime) -> ExitCode {
    let status = match Objects::new(&rt) {
        Ok(
            Objects {
                words,
                mut port,
                mut out,
                mut bell,
            },
        ) => {
            // before the file is touched, so that a second receiver at this port leaves it as it is
            if is_command(&words) && port.listen().is_err() {
                SinkStatus::PortFault
            } else {
                receive(&rt, rt.alloc(), &words, &mut port, &mut out, &mut bell)
            }
        }
        Err(_) => SinkStatus::NoMemory,
    };
    ExitCode::from(status.code())
}

//! The program: checks the settings of a run, the files that they name and the hosts, and prints that. It changes nothing.
#![tactic(auto)]

mod hosts;
mod limits;
mod system;
mod walk;
mod writable;

use clap::Error;
use clap::error::ErrorKind;
use findings::{Asked, Ending, Outside, check, read_words};
use hosts::TcpHosts;
use outside_real::{DirFolder, ErrorSink, FileSource, StdSink};
use report::{Status, status_line};
use std::alloc::Global;
use std::env;
use std::env::Env;
use std::io::Eprint;
use std::process::ExitCode;
use system::OwnSystem;
use wire_base::NoMemory;

/// The arguments after the program's name; none if one of them is not UTF-8, which the program does not take.
fn words_of(rt: &(impl Env + AllocGlobal), alloc: Global) -> Result<Vec<String>, NoMemory> {
    let mut words = Vec::new(alloc);
    match env::args(rt) {
        Ok(args) => {
            for word in args.skip(1) {
                words.push(word)?;
            }
            Ok(words)
        }
        Err(error) if error.kind() == std::io::ErrorKind::OutOfMemory => Err(NoMemory),
        Err(_) => Ok(words),
    }
}

/// Checks what is asked for.
fn look(rt: &HostRuntime, asked: &Asked) -> Result<Ending, NoMemory> {
    let alloc = rt.alloc();
    let mut outside = Outside {
        folder: DirFolder::new(rt),
        system: OwnSystem::new(rt),
        hosts: TcpHosts::new(rt),
    };
    Ok(check(
        alloc,
        asked,
        &mut FileSource::new(rt, asked.settings.copy(alloc)?),
        &mut outside,
        &mut StdSink::new(rt),
        &mut ErrorSink::new(rt),
    ))
}

/// Says why there is nothing to show. If that cannot be written, the exit status still says it.
fn refused(rt: &HostRuntime, status: &Status) -> ExitCode {
    let _ = status_line(status, &mut ErrorSink::new(rt));
    ExitCode::from(status.code())
}

/// Prints what the arguments lack, or the help.
fn answered(rt: &HostRuntime, error: &Error) -> ExitCode {
    if error.kind() == ErrorKind::OutOfMemory {
        return refused(rt, &Status::NoMemory);
    }
    match error.print(rt) {
        Ok(()) => ExitCode::from(error.exit_code() as u8),
        Err(_) => ExitCode::from(Status::OutFault.code()),
    }
}

fn main(rt: HostRuntime) -> ExitCode {
    let Ok(words) = words_of(&rt, rt.alloc()) else {
        return refused(&rt, &Status::NoMemory);
    };
    let ending = match read_words(rt.alloc(), words.as_slice()) {
        Ok(asked) => look(&rt, &asked).unwrap_or(Ending::Refused(Status::NoMemory)),
        Err(error) => return answered(&rt, &error),
    };
    match ending {
        Ending::Refused(status) => refused(&rt, &status),
        ending => ExitCode::from(ending.code()),
    }
}

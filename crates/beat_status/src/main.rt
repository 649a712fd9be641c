//! The program: shows how far each file is, during a run or without one. It changes nothing.
#![tactic(auto)]

use clap::Error;
use clap::error::ErrorKind;
use file_progress::{Asked, Outside, read_words, show};
use outside_real::{DirFolder, ErrorSink, FileSource, ReadOnlyFile, StdSink, SystemClock};
use report::{Status, status_line};
use std::alloc::Global;
use std::env;
use std::env::Env;
use std::fs::File;
use std::io::Eprint;
use std::process::ExitCode;
use std::rt::Files;
use wire_base::{Moment, NoMemory, Text};

/// The arguments after the program's name; none if one of them is not UTF-8, which the program does not take.
fn words_of(rt: &(impl Env + AllocGlobal), alloc: Global) -> Result<Vec<String>, NoMemory> {
    let mut words = Vec::new(alloc);
    match env::args(rt) {
        Ok(args) => {
            for word in args.skip(1) {
                words.push(word)?;
            }
            Ok(words)
        }
        Err(error) if error.kind() == std::io::ErrorKind::OutOfMemory => Err(NoMemory),
        Err(_) => Ok(words),
    }
}

/// The registry area of this name in the data folder.
fn area<R: Files<File = File> + Drop>(
    rt: R,
    alloc: Global,
    data: &Text,
    name: &str,
) -> Result<ReadOnlyFile<R>, NoMemory> {
    let mut path = String::from_str(alloc, data.as_str())?;
    path.push_str(name)?;
    Ok(ReadOnlyFile::new(rt, Text::from_string(path)))
}

/// The later of two moments.
fn later(one: Option<Moment>, other: Option<Moment>) -> Option<Moment> {
    match (one, other) {
        (Some(one), Some(other)) => Some(one.max(other)),
        (one, None) => one,
        (None, other) => other,
    }
}

/// Looks, and prints what is seen.
fn look(rt: &HostRuntime, asked: Asked) -> Result<Status, NoMemory> {
    let alloc = rt.alloc();
    let mut outside = Outside {
        folder: DirFolder::new(rt),
        area_a: area(rt, alloc, &asked.data, "/registry.a")?,
        area_b: area(rt, alloc, &asked.data, "/registry.b")?,
        clock: SystemClock::new(rt),
    };
    let committed = later(outside.area_a.changed(), outside.area_b.changed());
    Ok(show(
        alloc,
        asked.format,
        &mut FileSource::new(rt, asked.settings),
        &mut outside,
        committed,
        &mut StdSink::new(rt),
    ))
}

/// Says why nothing is shown. If that cannot be written, the exit status still says it.
fn refused(rt: &HostRuntime, status: &Status) -> ExitCode {
    let _ = status_line(status, &mut ErrorSink::new(rt));
    ExitCode::from(status.code())
}

/// Prints what the arguments lack, or the help.
fn answered(rt: &HostRuntime, error: &Error) -> ExitCode {
    if error.kind() == ErrorKind::OutOfMemory {
        return refused(rt, &Status::NoMemory);
    }
    match error.print(rt) {
        Ok(()) => ExitCode::from(error.exit_code() as u8),
        Err(_) => ExitCode::from(Status::OutFault.code()),
    }
}

fn main(rt: HostRuntime) -> ExitCode {
    let Ok(words) = words_of(&rt, rt.alloc()) else {
        return refused(&rt, &Status::NoMemory);
    };
    let status = match read_words(rt.alloc(), words.as_slice()) {
        Ok(asked) => look(&rt, asked).unwrap_or(Status::NoMemory),
        Err(error) => return answered(&rt, &error),
    };
    match status {
        Status::Done => ExitCode::SUCCESS,
        status => refused(&rt, &status),
    }
}

//! The program: makes the objects that its arguments name, and calls `ship`.
#![tactic(auto)]

mod objects;
mod streams;

use beat_run::{Places, Status, places, ship, status_line};
use objects::{Surroundings, generated_surroundings, real_surroundings, words_of};
use outside_real::{FileBell, FileSource, StdSink};
use std::fs::File;
use std::io;
use std::process::ExitCode;
use std::rt::Files;
use std::sync::Wait;
use std::thread::Threads;
use streams::hold_open;
use wire_base::{NoMemory, Text};

/// Before anything else is opened, so that no other file takes the number of a standard stream.
fn hold_streams(rt: &HostRuntime) -> io::Result<()> {
    hold_open(rt, &rt.stdin())?;
    hold_open(rt, &rt.stdout())?;
    hold_open(rt, &rt.stderr())
}

/// The arguments, and the places that they name.
fn asked(rt: &HostRuntime) -> Result<(Vec<Text>, Places), NoMemory> {
    let words = words_of(rt, rt.alloc())?;
    let places = places(rt.alloc(), &words)?;
    Ok((words, places))
}

fn out_of_memory(rt: &HostRuntime) -> ExitCode {
    // If the line cannot be written either, the exit status still says it.
    let _ = status_line(&Status::NoMemory, &mut StdSink::new(rt));
    ExitCode::from(Status::NoMemory.code())
}

/// Ships generated lines, all in memory but the settings file, the stop file and standard output.
fn ship_generated<R>(rt: &R, words: &[Text], places: Places, lines: u32) -> Result<Status, NoMemory>
where
    R: AllocGlobal + Print + Files<File = File> + Threads + Wait + Sync,
{
    let Surroundings {
        mut folder,
        mut wires,
        mut area_a,
        mut area_b,
        mut clock,
    } = generated_surroundings(rt.alloc(), lines)?;
    Ok(ship(
        rt,
        rt.alloc(),
        words,
        &mut FileSource::new(rt, places.settings),
        &mut folder,
        &mut wires,
        &mut area_a,
        &mut area_b,
        &mut clock,
        &mut FileBell::new(rt, places.stop),
        &mut StdSink::new(rt),
    ))
}

fn main(rt: HostRuntime) -> ExitCode {
    if hold_streams(&rt).is_err() {
        return ExitCode::from(Status::OutFault.code());
    }
    let Ok((words, places)) = asked(&rt) else {
        return out_of_memory(&rt);
    };
    if let Some(lines) = places.generate {
        return match ship_generated(&rt, &words, places, lines) {
            Ok(status) => ExitCode::from(status.code()),
            Err(_) => out_of_memory(&rt),
        };
    }
    let Ok(
        Surroundings {
            mut folder,
            mut wires,
            mut area_a,
            mut area_b,
            mut clock,
        },
    ) = real_surroundings(&rt, places.area_a, places.area_b)
    else {
        return out_of_memory(&rt);
    };
    let status = ship(
        &rt,
        rt.alloc(),
        &words,
        &mut FileSource::new(&rt, places.settings),
        &mut folder,
        &mut wires,
        &mut area_a,
        &mut area_b,
        &mut clock,
        &mut FileBell::new(&rt, places.stop),
        &mut StdSink::new(&rt),
    );
    ExitCode::from(status.code())
}

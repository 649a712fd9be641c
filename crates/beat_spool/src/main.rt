//! The program: puts the lines of standard input into the spool of the present folder, or sends what is outstanding there.
#![tactic(auto)]

mod stdin;

use outside_real::{FileDisk, StdSink, SystemClock, TcpWire};
use spool_queue::{SpoolStatus, spool_run};
use std::alloc::Global;
use std::env;
use std::env::Env;
use std::io::ErrorKind;
use std::process::ExitCode;
use stdin::StdinSource;
use wire_base::{NoMemory, Text};

/// The arguments after the program's name; none if one of them is not UTF-8, which the program does not take.
fn words_of(rt: &(impl Env + AllocGlobal), alloc: Global) -> Result<Vec<Text>, NoMemory> {
    let mut words = Vec::new(alloc);
    match env::args(rt) {
        Ok(args) => {
            for word in args.skip(1) {
                words.push(Text::from_string(word))?;
            }
            Ok(words)
        }
        Err(error) if error.kind() == ErrorKind::OutOfMemory => Err(NoMemory),
        Err(_) => Ok(words),
    }
}

/// The spool's file, in the present folder.
fn spool_file(alloc: Global) -> Result<Text, NoMemory> {
    Ok(Text::from_string(String::from_str(alloc, "spool")?))
}

fn main(rt: HostRuntime) -> ExitCode {
    let alloc = rt.alloc();
    let status = match (words_of(&rt, alloc), spool_file(alloc)) {
        (Ok(words), Ok(path)) => spool_run(
            &rt,
            alloc,
            &words,
            &mut StdinSource::new(rt.reader()),
            &mut TcpWire::new(&rt),
            &mut FileDisk::new(&rt, path),
            &mut SystemClock::new(&rt),
            &mut StdSink::new(&rt),
        ),
        _ => SpoolStatus::NoMemory,
    };
    ExitCode::from(status.code())
}

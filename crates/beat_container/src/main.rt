//! The program: reads a container log from standard input, and writes the container's own lines to standard output.
#![tactic(auto)]

mod stdin;

use container_lines::{ContainerStatus, container_run};
use outside_real::StdSink;
use std::alloc::Global;
use std::env;
use std::env::Env;
use std::io::ErrorKind;
use std::process::ExitCode;
use stdin::StdinSource;
use wire_base::{NoMemory, Text};

/// The arguments after the program's name; none if one of them is not UTF-8, which the program does not take.
fn words_of(rt: &(impl Env + AllocGlobal), alloc: Global) -> Result<Vec<Text>, NoMemory> {
    let mut words = Vec::new(alloc);
    match env::args(rt) {
        Ok(args) => {
            for word in args.skip(1) {
                words.push(Text::from_string(word))?;
            }
            Ok(words)
        }
        Err(error) if error.kind() == ErrorKind::OutOfMemory => Err(NoMemory),
        Err(_) => Ok(words),
    }
}

fn main(rt: HostRuntime) -> ExitCode {
    let alloc = rt.alloc();
    let status = match words_of(&rt, alloc) {
        Ok(words) => container_run(
            &rt,
            alloc,
            &words,
            &mut StdinSource::new(rt.reader()),
            &mut StdSink::new(&rt),
        ),
        Err(_) => ContainerStatus::NoMemory,
    };
    ExitCode::from(status.code())
}

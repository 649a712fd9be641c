use crate::port::TcpPort;
use crate::sink::FileSink;
use lumber_server::{SinkPlaces, sink_places};
use outside_real::FileBell;
use std::alloc::Global;
use std::env;
use std::env::Env;
use std::fs::File;
use std::io::ErrorKind;
use std::net::{Net, TcpListener, TcpStream};
use std::rt::Files;
use std::time::Clock;
use wire_base::{NoMemory, Text};

/// The arguments of the program, and the objects over sockets and files that they name.
#[derive(Drop)]
pub struct Objects<R> {
    pub words: Vec<Text>,
    pub port: TcpPort<R>,
    pub out: FileSink<R>,
    pub bell: FileBell<R>,
}

impl<'a, R> Objects<&'a R>
where
    R: AllocGlobal
        + Env
        + Clock
        + Files<File = File>
        + Net<Listener = TcpListener, Stream = TcpStream>,
{
    pub fn new(rt: &'a R) -> Result<Objects<&'a R>, NoMemory> {
        let alloc = rt.alloc();
        let words = words_of(rt, alloc)?;
        let SinkPlaces { host, file } = sink_places(alloc, &words)?;
        Ok(Objects {
            words,
            port: TcpPort::new(rt, host),
            out: FileSink::new(rt, file),
            bell: FileBell::new(rt, stop_file(alloc)?),
        })
    }
}

/// The file whose presence stops the program, in the folder that it runs in.
fn stop_file(alloc: Global) -> Result<Text, NoMemory> {
    Ok(Text::from_string(String::from_str(alloc, "stop")?))
}

/// The arguments after the program's name; none if one of them is not UTF-8, which no command takes.
fn words_of(rt: &(impl Env + AllocGlobal), alloc: Global) -> Result<Vec<Text>, NoMemory> {
    let mut words = Vec::new(alloc);
    match env::args(rt) {
        Ok(args) => {
            for word in args.skip(1) {
                words.push(Text::from_string(word))?;
            }
            Ok(words)
        }
        Err(error) if error.kind() == ErrorKind::OutOfMemory => Err(NoMemory),
        Err(_) => Ok(words),
    }
}

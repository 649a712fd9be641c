ghost use Rattle.std.specs.Prelude.{◌≡◌, vec_len, IfOk};

use load_gen::generated;
use outside_mem::{Due, MemChange, MemClock, MemDisk, MemFile, MemFolder, MemStep, MemWire};
use outside_real::{DirFolder, FileDisk, SystemClock, TcpWire};
use std::alloc::Global;
use std::env;
use std::env::Env;
use std::fs::File;
use std::io::ErrorKind;
use std::net::{Net, TcpStream};
use std::rt::Files;
use std::time::Clock;
use wire_base::{Moment, NoMemory, Text};

/// One wire for each worker that a run may have.
const WIRES: usize = 16;
/// The one file of a run over generated lines.
const GENERATED_PATH: &str = "/generated/a.log";

/// What a run works on: its files, its receivers, both registry files and its clock.
#[derive(Drop)]
pub struct Surroundings<F, W, D, K> {
    pub folder: F,
    pub wires: Vec<W>,
    pub area_a: D,
    pub area_b: D,
    pub clock: K,
}

/// The file system, the network and the system's clock, with the registry in these two files.
pub fn real_surroundings<'a, R: AllocGlobal + Clock + Files<File = File> + Net<Stream = TcpStream>>(
    rt: &'a R,
    area_a: Text,
    area_b: Text,
) -> Result<
    Surroundings<DirFolder<&'a R>, TcpWire<&'a R>, FileDisk<&'a R>, SystemClock<&'a R>>,
    NoMemory,
>
    ensures { IfOk result (λ surroundings. vec_len surroundings.wires ≡ WIRES) }
{
    let mut wires = Vec::new(rt.alloc());
    for _ in 0..WIRES {
        wires.push(TcpWire::new(rt))?;
    }
    Ok(Surroundings {
        folder: DirFolder::new(rt),
        wires,
        area_a: FileDisk::new(rt, area_a),
        area_b: FileDisk::new(rt, area_b),
        clock: SystemClock::new(rt),
    })
}

/// All in memory: one file of this many generated lines, receivers that acknowledge all, an empty registry, and a clock
/// that starts at 0 and moves by pauses only, so that each run is the same.
pub fn generated_surroundings(
    alloc: Global,
    lines: u32,
) -> Result<Surroundings<MemFolder, MemWire, MemDisk, MemClock>, NoMemory>
    ensures { IfOk result (λ surroundings. vec_len surroundings.wires ≡ WIRES) }
{
    let mut wires = Vec::new(alloc);
    for _ in 0..WIRES {
        wires.push(MemWire::new(alloc, Vec::new(alloc))?)?;
    }
    Ok(Surroundings {
        folder: generated_folder(alloc, lines)?,
        wires,
        area_a: MemDisk::new(alloc, b"")?,
        area_b: MemDisk::new(alloc, b"")?,
        clock: MemClock::new(alloc, Moment(0))?,
    })
}

fn generated_folder(alloc: Global, lines: u32) -> Result<MemFolder, NoMemory> {
    let mut steps = Vec::new(alloc);
    steps.push(MemStep {
        due: Due::Listings(0),
        change: MemChange::Append(generated(alloc, lines)?),
    })?;
    let mut files = Vec::new(alloc);
    files.push(MemFile {
        path: Text::from_string(String::from_str(alloc, GENERATED_PATH)?),
        native: None,
        steps,
    })?;
    MemFolder::new(alloc, files)
}

/// The arguments after the program's name; none if one of them is not UTF-8, which no command takes.
pub fn words_of(rt: &(impl Env + AllocGlobal), alloc: Global) -> Result<Vec<Text>, NoMemory> {
    let mut words = Vec::new(alloc);
    match env::args(rt) {
        Ok(args) => {
            for word in args.skip(1) {
                words.push(Text::from_string(word))?;
            }
            Ok(words)
        }
        Err(error) if error.kind() == ErrorKind::OutOfMemory => Err(NoMemory),
        Err(_) => Ok(words),
    }
}

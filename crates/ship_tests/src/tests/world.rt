//! A run over objects in memory: what it begins with, and what it leaves.
ghost use Rattle.std.specs.Prelude.{◌≡◌, vec_len, IfOk};

use beat_run::{Status, ship};
use outside_mem::{
    Due, MeetLink, MemBell, MemChange, MemClock, MemDisk, MemFile, MemFolder, MemPiece, MemSink,
    MemSource, MemStep, MemTalk, MemWire,
};
use std::alloc::Global;
use std::sync::Wait;
use std::test::Fail;
use std::thread::Threads;
use wire_base::{Blob, Moment, NoMemory, Text};

/// How many wires a run is given.
const WIRES: usize = 16;

/// An object whose call fails.
#[derive(Clone, Copy)]
pub enum Object {
    Source,
    Area,
    OtherArea,
    Folder,
    /// Each tail of `/w/a.log`.
    Tail,
    /// The first wire, and its first link.
    Wire,
    LinkSend,
    LinkReceive,
    Sink,
}

/// What becomes of a file, once it is there.
#[derive(Clone, Copy)]
pub enum Later<'a> {
    /// It loses its bytes, once so many calls on its tail were made.
    Cut(u64),
    /// It gets these bytes, once so many calls on its tail were made.
    Grows(u64, &'a [u8]),
    /// It is removed, once so many listings were made.
    Removed(u64),
    /// It has this path, once so many listings were made.
    Renamed(u64, &'a str),
}

/// The path and the bytes of a file, and what becomes of it.
pub type File<'a> = (&'a str, &'a [u8], &'a [Later<'a>]);

/// What the peers do.
#[derive(Clone, Copy)]
pub enum Peer<'a> {
    Acknowledges,
    /// That of the first wire sends these bytes once it has a window, and closes. Later connections
    /// acknowledge.
    Closes(&'a [u8]),
    /// That of the first wire sends these bytes once it has a window, and nothing more.
    FallsSilent(&'a [u8]),
    /// Those of the first two wires acknowledge once both were asked at the same time.
    Meet,
}

/// What a run begins with, at moment 0.
#[derive(Clone, Copy)]
pub struct Start<'a> {
    pub words: &'a [&'a str],
    /// The settings, if they are not those of one input `w` over `/w/*.log` with these lines.
    pub settings: Option<&'a str>,
    /// Lines before the input, in it and in the output.
    pub top: &'a str,
    pub input: &'a str,
    pub output: &'a str,
    /// The files in the order in which a listing shows them.
    pub files: &'a [File<'a>],
    /// The inodes and devices of the first files; the others have none.
    pub numbers: &'a [(u64, u64)],
    pub area: &'a str,
    pub peer: Peer<'a>,
    /// How often the bell may be asked before it rings.
    pub quiet: u64,
    /// Calls that fail, each counted from 0 over the calls of its object.
    pub failing: &'a [(Object, u64)],
    /// After this many calls the first area stops.
    pub stop_after: Option<u64>,
}

pub const ONCE: &[&str] = &["-c", "f", "--once"];

pub const PLAIN: Start = Start {
    words: ONCE,
    settings: None,
    top: "",
    input: "",
    output: "",
    files: &[("/w/a.log", b"a\nb\n", &[])],
    numbers: &[],
    area: "",
    peer: Peer::Acknowledges,
    quiet: u64::MAX,
    failing: &[],
    stop_after: None,
};

/// Its input knows files by inode and device.
pub const NATIVE: Start = Start {
    settings: Some(
        "[[inputs]]\nid = 'w'\npaths = ['/w/*.log']\nfile_identity = 'native'\n[output]\nhosts = ['h:5044']\n",
    ),
    numbers: &[(7, 1)],
    ..PLAIN
};

/// It knows files by the SHA-256 of their first 112 bytes.
pub const FINGERPRINT: Start = Start {
    settings: Some(
        "[[inputs]]\nid = 'w'\npaths = ['/w/*.log']\nfingerprint.length = 112\n[output]\nhosts = ['h:5044']\n",
    ),
    files: &[(
        "/w/a.log",
        b"abcdefghbcdefghicdefghijdefghijkefghijklfghijklmghijklmnhijklmnoijklmnopjklmnopqklmnopqrlmnopqrsmnopqrstnopqrstu\n",
        &[],
    )],
    ..PLAIN
};

/// What a run is given, and what it leaves of that.
#[derive(Drop)]
pub struct Objects {
    settings: MemSource,
    folder: MemFolder,
    pub wires: Vec<MemWire>,
    pub area: MemDisk,
    pub other_area: MemDisk,
    pub clock: MemClock,
    bell: MemBell,
    pub printed: MemSink,
}

impl Objects {
    fn new(alloc: Global, start: Start, area: MemDisk, other_area: MemDisk) -> Result<Objects, Fail>
        ensures { IfOk result (λ objects. vec_len objects.wires ≡ WIRES) }
    {
        let text = settings_of(alloc, start)?;
        Ok(Objects {
            settings: MemSource::new(alloc, text.as_bytes())?,
            folder: folder_of(alloc, start.files, start.numbers)?,
            wires: wires_of(alloc, start.peer)?,
            area,
            other_area,
            clock: MemClock::new(alloc, Moment(0))?,
            bell: MemBell::new(alloc, start.quiet)?,
            printed: MemSink::new(alloc)?,
        })
    }

    /// The call of this number fails.
    fn fail_at(&mut self, alloc: Global, object: Object, call: u64) -> Result<(), Fail>
        requires { vec_len self.old.wires ≡ WIRES }
        ensures { vec_len self.new.wires ≡ WIRES }
    {
        let calls = [call];
        match object {
            Object::Source => self.settings.fail_at(&calls)?,
            Object::Area => self.area.fail_at(&calls)?,
            Object::OtherArea => self.other_area.fail_at(&calls)?,
            Object::Folder => self.folder.fail_at(&calls)?,
            Object::Tail => {
                let path = Text::from_bytes(alloc, b"/w/a.log")?;
                self.folder.fail_tail_at(&path, &calls)?;
            }
            Object::Wire => self.wires[0].fail_at(&calls)?,
            Object::LinkSend => self.wires[0].fail_link_at(0, &calls, &[])?,
            Object::LinkReceive => self.wires[0].fail_link_at(0, &[], &calls)?,
            Object::Sink => self.printed.fail_at(&calls)?,
        }
        Ok(())
    }
}

/// What a run leaves.
#[derive(Drop)]
pub struct Ran {
    pub status: Status,
    pub objects: Objects,
}

/// Makes a run over the area of its start, and a blank one.
pub fn run<X: Threads + Wait + Sync + AllocGlobal>(rt: &X, start: Start) -> Result<Ran, Fail> {
    let alloc = rt.alloc();
    let area = MemDisk::new(alloc, start.area.as_bytes())?;
    run_over(rt, start, area, MemDisk::new(alloc, b"")?)
}

/// Makes a run over these areas.
pub fn run_over<X: Threads + Wait + Sync + AllocGlobal>(
    rt: &X,
    start: Start,
    area: MemDisk,
    other_area: MemDisk,
) -> Result<Ran, Fail> {
    let alloc = rt.alloc();
    let words = words_of(alloc, start.words)?;
    let mut objects = objects_of(alloc, start, area, other_area)?;
    let status = ship(
        rt,
        alloc,
        &words,
        &mut objects.settings,
        &mut objects.folder,
        &mut objects.wires,
        &mut objects.area,
        &mut objects.other_area,
        &mut objects.clock,
        &mut objects.bell,
        &mut objects.printed,
    );
    Ok(Ran { status, objects })
}

/// What the run is given, with the calls that fail.
fn objects_of(
    alloc: Global,
    start: Start,
    area: MemDisk,
    other_area: MemDisk,
) -> Result<Objects, Fail>
    ensures { IfOk result (λ objects. vec_len objects.wires ≡ WIRES) }
{
    let mut objects = Objects::new(alloc, start, area, other_area)?;
    for (object, call) in start.failing {
        objects.fail_at(alloc, *object, *call)?;
    }
    if let Some(calls) = start.stop_after {
        objects.area.stop_after(calls);
    }
    Ok(objects)
}

fn words_of(alloc: Global, words: &[&str]) -> Result<Vec<Text>, Fail> {
    let mut texts = Vec::new(alloc);
    for word in words {
        texts.push(Text::from_bytes(alloc, word.as_bytes())?)?;
    }
    Ok(texts)
}

fn settings_of(alloc: Global, start: Start) -> Result<String, Fail> {
    let Start {
        top,
        input,
        output,
        ..
    } = start;
    match start.settings {
        Some(settings) => Ok(String::from_str(alloc, settings)?),
        None => Ok(format!(in alloc;
            "{top}\n[[inputs]]\nid = \"w\"\npaths = [\"/w/*.log\"]\nfile_identity = \"path\"\n{input}\n[output]\nhosts = [\"h:5044\"]\n{output}\n"
        )?),
    }
}

fn folder_of(alloc: Global, files: &[File], numbers: &[(u64, u64)]) -> Result<MemFolder, Fail> {
    let mut listed = Vec::new(alloc);
    for (place, (path, bytes, later)) in files.iter().enumerate() {
        listed.push(MemFile {
            path: Text::from_bytes(alloc, path.as_bytes())?,
            native: numbers.get(place).copied(),
            steps: steps_of(alloc, bytes, later)?,
        })?;
    }
    Ok(MemFolder::new(alloc, listed)?)
}

fn steps_of(alloc: Global, bytes: &[u8], later: &[Later]) -> Result<Vec<MemStep>, Fail> {
    let mut steps = Vec::new(alloc);
    steps.push(MemStep {
        due: Due::Listings(0),
        change: MemChange::Append(Blob::from_bytes(alloc, bytes)?),
    })?;
    for change in later {
        steps.push(step_of(alloc, *change)?)?;
    }
    Ok(steps)
}

fn step_of(alloc: Global, change: Later) -> Result<MemStep, Fail> {
    let (due, change) = match change {
        Later::Cut(calls) => (Due::TailCalls(calls), MemChange::Truncate(0)),
        Later::Grows(calls, bytes) => {
            let bytes = Blob::from_bytes(alloc, bytes)?;
            (Due::TailCalls(calls), MemChange::Append(bytes))
        }
        Later::Removed(listings) => (Due::Listings(listings), MemChange::Remove),
        Later::Renamed(listings, path) => {
            let path = Text::from_bytes(alloc, path.as_bytes())?;
            (Due::Listings(listings), MemChange::Rename(path))
        }
    };
    Ok(MemStep { due, change })
}

/// The first wires are those of the peer; the others have no talk.
fn wires_of(alloc: Global, peer: Peer) -> Result<Vec<MemWire>, NoMemory>
    ensures { IfOk result (λ wires. vec_len wires ≡ WIRES) }
{
    let mut talks = last_first(alloc, talks_of(alloc, peer)?)?;
    let mut wires = Vec::new(alloc);
    for _ in 0..WIRES {
        wires.push(wire_of(alloc, talks.pop())?)?;
    }
    Ok(wires)
}

/// The talks in the order in which they are taken from the end.
fn last_first(alloc: Global, talks: (MemTalk, MemTalk)) -> Result<Vec<MemTalk>, NoMemory> {
    let mut turned = Vec::new(alloc);
    turned.push(talks.1)?;
    turned.push(talks.0)?;
    Ok(turned)
}

/// A wire whose first link has this talk, if there is one.
fn wire_of(alloc: Global, talk: Option<MemTalk>) -> Result<MemWire, NoMemory> {
    let mut talks = Vec::new(alloc);
    if let Some(talk) = talk {
        talks.push(talk)?;
    }
    MemWire::new(alloc, talks)
}

/// The first talks of the first two wires.
fn talks_of(alloc: Global, peer: Peer) -> Result<(MemTalk, MemTalk), NoMemory> {
    match peer {
        Peer::Acknowledges => Ok((MemTalk::All, MemTalk::All)),
        Peer::Closes(bytes) => Ok((talk_of(alloc, bytes, true)?, MemTalk::All)),
        Peer::FallsSilent(bytes) => Ok((talk_of(alloc, bytes, false)?, MemTalk::All)),
        Peer::Meet => {
            let (first, second) = MeetLink::pair(alloc)?;
            Ok((MemTalk::Meet(first), MemTalk::Meet(second)))
        }
    }
}

fn talk_of(alloc: Global, bytes: &[u8], closes: bool) -> Result<MemTalk, NoMemory> {
    let mut pieces = Vec::new(alloc);
    pieces.push(MemPiece {
        windows: 1,
        bytes: Blob::from_bytes(alloc, bytes)?,
    })?;
    Ok(MemTalk::Pieces { pieces, closes })
}

//! A harvester over a file in memory, and `event_payload` by itself.
ghost use Rattle.std.specs.Prelude.{◌≡◌, IfOk, None};
ghost use Rattle.harvester.specs.InRange.{IsReadable};
ghost use Rattle.wire_base.specs.Ranges.{IsBegin};

use event_json::event_payload;
use event_tree::{GroupRule, IdentityRule, InputRule, LineRule, ListOf, Terminator};
use harvester::{Harvester, Turn};
use outside::{Failed, Tail};
use std::alloc::Global;
use wire_base::{Begin, Epoch, MAX_PLACE, Moment, NoMemory, Slot, Text};

const MESSAGE_MAX_BYTES: u64 = 10_485_760;

/// How many lines the piece has that the file repeats.
const PIECE_LINES: usize = 1_024;

const PATH: &str = "/var/log/app.log";

/// No file has more bytes.
const MAX_BYTES: u64 = 1 << 48;

/// An open file in memory that has one piece over and over. Its looks are not known.
#[derive(Drop)]
struct PieceTail<'a> {
    piece: &'a [u8],
    length: u64,
}

impl<'a> PieceTail<'a> {
    /// A file of this many bytes.
    fn new(piece: &'a [u8], length: u64) -> PieceTail<'a> {
        PieceTail { piece, length }
    }
}

impl Tail for PieceTail<'_> {
    ghost told = { λ _. None };

    ghost numbers = { λ _. None };

    ghost faults = { λ _. 0 };

    fn native(&self) -> Option<(u64, u64)> {
        None
    }

    fn length(&mut self) -> Result<u64, Failed> {
        Ok(self.length.min(MAX_BYTES))
    }

    fn read_at(&mut self, at: u64, into: &mut [u8]) -> Result<usize, Failed> {
        let left = self.length.min(MAX_BYTES).saturating_sub(at);
        if left == 0 || self.piece.is_empty() {
            return Ok(0);
        }
        let start = (at % self.piece.len() as u64) as usize;
        let rest = &self.piece[start..];
        let count = rest.len().min(into.len()).min(left as usize);
        into[..count].copy_from_slice(&rest[..count]);
        Ok(count)
    }
}

pub(crate) fn text(alloc: Global, chars: &str) -> Result<Text, NoMemory>
    ensures { IfOk result (λ text. text ≡ chars.now) }
{
    Ok(Text::from_string(String::from_str(alloc, chars)?))
}

fn input(alloc: Global) -> Result<InputRule, NoMemory>
    ensures { IfOk result IsReadable }
{
    Ok(InputRule {
        id: text(alloc, "nginx")?,
        paths: ListOf::from_vec(Vec::new(alloc)),
        file_identity: IdentityRule::Path,
        check_interval: 10_000,
        clean_removed: true,
        close_inactive: 300_000,
        ignore_older: 0,
        clean_inactive: 0,
        lines: LineRule {
            terminator: Terminator::Auto,
            message_max_bytes: MESSAGE_MAX_BYTES,
        },
        include_lines: ListOf::from_vec(Vec::new(alloc)),
        exclude_lines: ListOf::from_vec(Vec::new(alloc)),
        multiline: GroupRule::Single {
            message_max_bytes: MESSAGE_MAX_BYTES,
        },
    })
}

fn begin(alloc: Global) -> Result<Begin, NoMemory>
    ensures { IfOk result IsBegin }
{
    Ok(Begin {
        slot: Slot(0),
        input: 0,
        key: text(alloc, "filestream::nginx::path::/var/log/app.log")?,
        path: text(alloc, PATH)?,
        size: 0,
        epoch: Epoch(0),
        base: 0,
    })
}

fn open<'a>(alloc: Global, tail: PieceTail<'a>) -> Result<Harvester<PieceTail<'a>>, NoMemory> {
    let rule = input(alloc)?;
    Harvester::open(alloc, &rule, &[], begin(alloc)?, tail, Moment(0)).map_err(|_| NoMemory)
}

/// Whether a turn reported an event; none at the end of the file, if none waits.
fn told_one(alloc: Global, harvester: &mut Harvester<PieceTail<'_>>) -> Option<bool> {
    if harvester.changed() {
        return None;
    }
    match harvester.turn(alloc, Moment(0), true) {
        Turn::Issued(_) | Turn::Passed(..) => Some(true),
        Turn::More => Some(false),
        _ => None,
    }
}

fn told(alloc: Global, harvester: &mut Harvester<PieceTail<'_>>) -> u64 {
    let mut events: u64 = 0;
    for _ in 0..u64::MAX {
        match told_one(alloc, harvester) {
            Some(true) => events = events.saturating_add(1),
            Some(false) => {}
            None => break,
        }
    }
    events
}

/// How many events a file has of this many lines of this many bytes.
pub(crate) fn harvested(alloc: Global, bytes: usize, lines: u64) -> Result<u64, NoMemory> {
    let message = "x".repeat(alloc, bytes)?;
    let piece = format!(in alloc; "{message}\n")?.repeat(alloc, PIECE_LINES)?;
    let length = lines.saturating_mul(message.len() as u64 + 1);
    let mut harvester = open(alloc, PieceTail::new(piece.as_bytes(), length))?;
    Ok(told(alloc, &mut harvester))
}

/// How many payloads of messages of this many bytes are written, of this many.
pub(crate) fn payloads(alloc: Global, bytes: usize, many: u64) -> Result<u64, NoMemory> {
    let path = text(alloc, PATH)?;
    let message = "x".repeat(alloc, bytes)?;
    let (mut place, mut count) = (0u64, 0u64);
    for _ in 0..many {
        let offset = place.min(MAX_PLACE);
        if event_payload(alloc, &path, offset, message.as_bytes(), Moment(0))?.is_some() {
            count = count.saturating_add(1);
        }
        place = offset.saturating_add(message.len() as u64);
    }
    Ok(count)
}

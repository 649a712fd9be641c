//! What a run has to leave, and whether it did. Rows are read by the registry's own reader, and
//! payloads are spelled here.

use crate::tests::world::{Ran, Start, run};
use lumber_frame::{FrameRead, FrameView, read_frame};
use outside::Clock;
use registry_store::Store;
use std::alloc::Global;
use std::process::Abort;
use std::sync::Wait;
use std::test::Fail;
use std::thread::Threads;
use wire_base::{NoMemory, Piece, Text};

/// What is sent over the last link of each wire.
#[derive(Clone, Copy)]
pub enum Sent<'a> {
    /// That is left open.
    Open,
    /// So many events. Between files and workers no order is said.
    Events(usize),
    /// One event for each of these messages, in any order.
    Messages(&'a [&'a str]),
    /// The lines of `/w/a.log` that begin at these places, in whole windows, closed at moment 0.
    Lines(&'a [(u64, &'a str)]),
    /// These payloads.
    Payloads(&'a [&'a str]),
}

/// What a run has to leave.
#[derive(Clone, Copy)]
pub struct Wanted<'a> {
    pub status: u8,
    /// The rows of the registry as the report has them; `None` if both areas stay as they were.
    pub rows: Option<&'a str>,
    /// What is printed, after the rows if the status is 0 or 1.
    pub printed: &'a str,
    pub sent: Sent<'a>,
    /// The clock's moment, in milliseconds after the run began; `None` if that is left open.
    pub moment: Option<u64>,
}

/// A run, and what it has to leave.
#[derive(Clone, Copy)]
pub struct Case<'a> {
    pub name: &'a str,
    pub start: Start<'a>,
    pub wanted: Wanted<'a>,
}

/// Makes one run after the other, and compares what each leaves.
pub fn check_each<X: Threads + Wait + Sync + AllocGlobal + Abort>(
    rt: &X,
    cases: &[Case],
) -> Result<(), Fail> {
    for case in cases {
        check(rt, case.name, case.start, case.wanted)?;
    }
    Ok(())
}

/// Makes a run, and compares all that it leaves with what is wanted.
pub fn check<X: Threads + Wait + Sync + AllocGlobal + Abort>(
    rt: &X,
    case: &str,
    start: Start,
    wanted: Wanted,
) -> Result<(), Fail> {
    check_left(rt, case, run(rt, start)?, start.area, wanted)
}

/// Two texts are the same.
pub fn check_text(rt: &impl Abort, what: &str, case: &str, text: &str, wanted: &str) {
    assert_eq!(rt; text, wanted, "{what}: {case}");
}

/// Two numbers are the same.
pub fn check_number(rt: &impl Abort, what: &str, case: &str, number: u64, wanted: u64) {
    assert_eq!(rt; number, wanted, "{what}: {case}");
}

/// Two lists of bytes are the same.
fn check_bytes(rt: &impl Abort, what: &str, case: &str, bytes: &[u8], wanted: &[u8]) {
    assert_eq!(rt; bytes, wanted, "{what}: {case}");
}

/// Compares all that a run leaves with what is wanted; `area` is what the first area held before it.
pub fn check_left<X: AllocGlobal + Abort>(
    rt: &X,
    case: &str,
    mut ran: Ran,
    area: &str,
    wanted: Wanted,
) -> Result<(), Fail> {
    let alloc = rt.alloc();
    let reported = reported(alloc, wanted)?;
    check_text(
        rt,
        "printed",
        case,
        ran.printed(alloc)?.as_str(),
        reported.as_str(),
    );
    check_end(rt, case, &mut ran, wanted);
    check_sent(rt, case, &ran, wanted.sent)?;
    match wanted.rows {
        Some(rows) => check_text(rt, "rows", case, ran.stored(alloc)?.as_str(), rows),
        None => check_areas(rt, case, &ran, area),
    }
    Ok(())
}

/// The exit status, and the clock's moment.
fn check_end(rt: &impl Abort, case: &str, ran: &mut Ran, wanted: Wanted) {
    check_number(rt, "exit status", case, ran.code(), wanted.status as u64);
    if let Some(moment) = wanted.moment {
        check_number(rt, "clock", case, ran.objects.clock.now().0, moment);
    }
}

/// The first area holds this, and the other one nothing.
fn check_areas(rt: &impl Abort, case: &str, ran: &Ran, area: &str) {
    check_bytes(rt, "area", case, ran.objects.area.bytes(), area.as_bytes());
    check_bytes(rt, "other area", case, ran.objects.other_area.bytes(), b"");
}

/// All that is printed.
fn reported(alloc: Global, wanted: Wanted) -> Result<String, Fail> {
    let mut text = String::new(alloc);
    if wanted.status <= 1 {
        text.push_str(wanted.rows.unwrap_or(""))?;
    }
    text.push_str(wanted.printed)?;
    Ok(text)
}

/// What was sent over the last link of each wire.
fn check_sent<X: AllocGlobal + Abort>(
    rt: &X,
    case: &str,
    ran: &Ran,
    wanted: Sent,
) -> Result<(), Fail> {
    if let Sent::Open = wanted {
        return Ok(());
    }
    check_payloads(rt, case, &ran.payloads(rt.alloc())?, wanted)
}

/// How many events there are, and each of them, as far as it is said.
fn check_payloads<X: AllocGlobal + Abort>(
    rt: &X,
    case: &str,
    payloads: &[Text],
    wanted: Sent,
) -> Result<(), Fail> {
    let count = payloads.len() as u64;
    check_number(rt, "events", case, count, count_of(wanted).unwrap_or(count));
    match wanted {
        Sent::Lines(lines) => check_lines(rt, case, payloads, lines),
        Sent::Messages(messages) => check_messages(rt, payloads, messages),
        Sent::Payloads(texts) => {
            check_texts(rt, case, payloads, texts);
            Ok(())
        }
        Sent::Open | Sent::Events(_) => Ok(()),
    }
}

/// How many events are sent, if that is said.
fn count_of(wanted: Sent) -> Option<u64> {
    match wanted {
        Sent::Open => None,
        Sent::Events(count) => Some(count as u64),
        Sent::Messages(messages) => Some(messages.len() as u64),
        Sent::Lines(lines) => Some(lines.len() as u64),
        Sent::Payloads(texts) => Some(texts.len() as u64),
    }
}

/// The payloads are those of these lines of `/w/a.log`.
fn check_lines<X: AllocGlobal + Abort>(
    rt: &X,
    case: &str,
    payloads: &[Text],
    lines: &[(u64, &str)],
) -> Result<(), Fail> {
    for (payload, (place, message)) in payloads.iter().zip(lines) {
        let wanted = payload_of(rt.alloc(), *place, message)?;
        check_text(rt, "sent", case, payload.as_str(), wanted.as_str());
    }
    Ok(())
}

/// How many of the payloads end with this.
fn count_ending(payloads: &[Text], end: &str) -> u64 {
    let mut count = 0_u64;
    for payload in payloads {
        if payload.as_str().ends_with(end) {
            count = count.saturating_add(1);
        }
    }
    count
}

/// Each of the messages is that of one payload.
fn check_messages<X: AllocGlobal + Abort>(
    rt: &X,
    payloads: &[Text],
    messages: &[&str],
) -> Result<(), Fail> {
    for message in messages {
        let end = format!(in rt.alloc(); "\"message\":\"{message}\"}}")?;
        let times = count_ending(payloads, end.as_str());
        check_number(rt, "times sent", message, times, 1);
    }
    Ok(())
}

/// The payloads are these.
fn check_texts(rt: &impl Abort, case: &str, payloads: &[Text], texts: &[&str]) {
    for (payload, text) in payloads.iter().zip(texts) {
        check_text(rt, "sent", case, payload.as_str(), text);
    }
}

fn payload_of(alloc: Global, place: u64, message: &str) -> Result<String, Fail> {
    let payload = format!(in alloc;
        "{{\"@timestamp\":\"1970-01-01T00:00:00.000Z\",\"input\":{{\"type\":\"filestream\"}},\"log\":{{\"file\":{{\"path\":\"/w/a.log\"}},\"offset\":{place}}},\"message\":\"{message}\"}}"
    )?;
    Ok(payload)
}

impl Ran {
    /// The exit status.
    pub fn code(&self) -> u64 {
        self.status.code() as u64
    }

    /// All that was printed.
    pub fn printed(&self, alloc: Global) -> Result<Text, Fail> {
        Ok(Text::from_bytes(alloc, self.objects.printed.bytes())?)
    }

    /// The rows that are stored, as a report has them.
    pub fn stored(&mut self, alloc: Global) -> Result<String, Fail> {
        let store = Store::open(alloc, &mut self.objects.area, &mut self.objects.other_area)?;
        let mut text = String::new(alloc);
        for place in 0..store.rows().len() {
            let row = store.rows().at(place);
            let (key, path) = (row.key.as_str(), row.path.as_str());
            let (epoch, offset) = (row.epoch.0, row.offset);
            writeln!(&mut text, "file \"{key}\" {epoch} {offset} \"{path}\"")?;
        }
        Ok(text)
    }

    /// What was sent over the last link of each wire. It has to be whole windows.
    pub fn payloads(&self, alloc: Global) -> Result<Vec<Text>, Fail> {
        let mut payloads = Vec::new(alloc);
        for wire in &self.objects.wires {
            let sent = bytes_out(alloc, wire.last_talk())?;
            if !read_windows(alloc, &sent, &mut payloads)? {
                return Err(Fail::new("no whole windows"));
            }
        }
        Ok(payloads)
    }
}

fn bytes_out(alloc: Global, talk: &[Piece]) -> Result<Vec<u8>, NoMemory> {
    let mut bytes = Vec::new(alloc);
    for piece in talk {
        if let Piece::Out(blob) = piece {
            bytes.extend_from_slice(blob.bytes())?;
        }
    }
    Ok(bytes)
}

/// Adds the payloads of windows; `false` if the bytes are not whole windows.
fn read_windows(alloc: Global, bytes: &[u8], payloads: &mut Vec<Text>) -> Result<bool, Fail> {
    let mut rest = bytes;
    let mut window = 0;
    let mut came = 0;
    for _place in 0..bytes.len() {
        let FrameRead::Whole { frame, used } = read_frame(rest) else {
            break;
        };
        match frame {
            FrameView::Window(count) if came == window && count > 0 => {
                window = count;
                came = 0;
            }
            FrameView::Json { sequence, payload }
                if came < window && came.checked_add(1) == Some(sequence) => {
                payloads.push(Text::from_bytes(alloc, payload)?)?;
                came = sequence;
            }
            _ => break,
        }
        rest = &rest[used..];
    }
    Ok(rest.is_empty() && came == window)
}

//! The receiver over peers, sinks and bells in memory.
use crate::frames::{show, window};
use anyhow::{Result, bail};
use lumber_server::{
    Accept, MemPort, MemVisit, Port, Served, SinkPlaces, SinkStatus, is_command, receive, serve,
    sink_places,
};
use outside_mem::{MemBell, MemSink};
use script_words::{bytes, number};
use std::alloc::Global;
use std::mem;
use std::sync::Wait;
use wire_base::{Blob, Piece, Text};

#[derive(Drop)]
pub struct Receiving {
    /// What the next peer sends.
    sends: Vec<u8>,
    visits: Vec<MemVisit>,
    failing_accept: Option<u64>,
    failing_writes: Vec<u64>,
    /// How often the bell is asked before it rings.
    quiet: u64,
}

/// All that was sent over a talk.
fn show_sent(rt: &HostRuntime, talk: &[Piece]) -> Result<()> {
    let mut sent = Vec::new(rt.alloc());
    for piece in talk {
        if let Piece::Out(bytes) = piece {
            sent.extend_from_slice(bytes.bytes())?;
        }
    }
    show(rt, &sent)
}

fn show_served(rt: &HostRuntime, served: Served) -> Result<()> {
    match served {
        Served::Ended => println!(rt; "    ended")?,
        Served::SendFault => println!(rt; "    send fault")?,
        Served::OutFault => println!(rt; "    out fault")?,
        Served::Bad { at } => println!(rt; "    bad at {at}")?,
        Served::Stopped => println!(rt; "    stopped")?,
        Served::NoMemory => bail!("out of memory"),
    }
    Ok(())
}

fn texts(alloc: Global, words: &[&str]) -> Result<Vec<Text>> {
    let mut texts = Vec::new(alloc);
    for word in words {
        texts.push(Text::from_bytes(alloc, word.as_bytes())?)?;
    }
    Ok(texts)
}

/// Whether the arguments of a run are the command's, and what they name.
fn show_places(rt: &HostRuntime, words: &[&str]) -> Result<()> {
    let words = texts(rt.alloc(), words)?;
    let answer = if is_command(&words) {
        "taken"
    } else {
        "refused"
    };
    let SinkPlaces { host, file } = sink_places(rt.alloc(), &words)?;
    let (name, port) = (host.name.as_str(), host.port);
    println!(rt; "    {answer} {name} {port} {}", file.as_str())?;
    Ok(())
}

impl Receiving {
    pub fn new(alloc: Global) -> Receiving {
        Receiving {
            sends: Vec::new(alloc),
            visits: Vec::new(alloc),
            failing_accept: None,
            failing_writes: Vec::new(alloc),
            quiet: 1_000_000,
        }
    }

    pub fn step<R: Wait>(&mut self, rt: &HostRuntime, hand: &R, words: &[&str]) -> Result<()> {
        let alloc = rt.alloc();
        match *words {
            ["window", ref payloads @ ..] => self.lay(alloc, payloads),
            ["window-of", times, word] => self.lay_times(alloc, word, number(times)?),
            ["bytes", word] => Ok(self.sends.extend_from_slice(&bytes(alloc, word)?)?),
            ["peer", size] => self.peer(alloc, number(size)?, None),
            ["failing-peer", size] => self.peer(alloc, number(size)?, Some(0)),
            ["failing-accept", accept] => {
                self.failing_accept = Some(number(accept)?);
                Ok(())
            }
            ["failing-write", write] => Ok(self.failing_writes.push(number(write)?)?),
            ["quiet", questions] => {
                self.quiet = number(questions)?;
                Ok(())
            }
            ["serve"] => self.serve(rt, hand, true),
            ["serve-long"] => self.serve(rt, hand, false),
            ["places", ref rest @ ..] => show_places(rt, rest),
            ["run", ref rest @ ..] => self.run(rt, hand, rest),
            _ => bail!("no such call"),
        }
    }

    /// The next peer sends a window with these payloads.
    fn lay(&mut self, alloc: Global, words: &[&str]) -> Result<()> {
        let mut payloads = Vec::new(alloc);
        for word in words {
            payloads.push(bytes(alloc, word)?)?;
        }
        self.sends.extend_from_slice(&window(alloc, &payloads)?)?;
        Ok(())
    }

    fn lay_times(&mut self, alloc: Global, word: &str, times: u64) -> Result<()> {
        let mut payloads = Vec::new(alloc);
        for _ in 0..times {
            payloads.push(bytes(alloc, word)?)?;
        }
        self.sends.extend_from_slice(&window(alloc, &payloads)?)?;
        Ok(())
    }

    /// The next peer sends in pieces of this size, and closes.
    fn peer(&mut self, alloc: Global, size: u64, failing_send: Option<u64>) -> Result<()> {
        let mut pieces = Vec::new(alloc);
        for piece in self.sends.chunks(usize::try_from(size)?.max(1)) {
            pieces.push(Blob::from_bytes(alloc, piece)?)?;
        }
        self.sends = Vec::new(alloc);
        self.visits.push(MemVisit {
            pieces,
            closes: true,
            failing_send,
        })?;
        Ok(())
    }

    fn port(&mut self, alloc: Global) -> Result<MemPort> {
        let visits = mem::replace(&mut self.visits, Vec::new(alloc));
        Ok(MemPort::new(alloc, visits, self.failing_accept)?)
    }

    /// Serves one peer to its end; prints how it ended, the lines or how many bytes they have, and what was sent.
    fn serve<R: Wait>(&mut self, rt: &HostRuntime, hand: &R, prints: bool) -> Result<()> {
        let alloc = rt.alloc();
        let mut port = self.port(alloc)?;
        let mut out = MemSink::new(alloc)?;
        let mut bell = MemBell::new(alloc, self.quiet)?;
        let Accept::Got(mut link) = port.accept() else {
            bail!("no link")
        };
        let served = serve(hand, alloc, &mut link, &mut out, &mut bell);
        port.finish(link);
        show_served(rt, served)?;
        if prints {
            show(rt, out.bytes())?;
        } else {
            println!(rt; "    {} bytes", out.bytes().len())?;
        }
        show_sent(rt, port.last_talk())
    }

    /// A run over the peers; prints its status, and the bytes of the sink.
    fn run<R: Wait>(&mut self, rt: &HostRuntime, hand: &R, words: &[&str]) -> Result<()> {
        let alloc = rt.alloc();
        let words = texts(alloc, words)?;
        let mut port = self.port(alloc)?;
        let mut out = MemSink::new(alloc)?;
        out.fail_at(&self.failing_writes)?;
        let mut bell = MemBell::new(alloc, self.quiet)?;
        let status = receive(hand, alloc, &words, &mut port, &mut out, &mut bell);
        let name = match status {
            SinkStatus::Done => "done",
            SinkStatus::Stopped => "stopped",
            SinkStatus::Usage => "usage",
            SinkStatus::OutFault => "out fault",
            SinkStatus::PortFault => "port fault",
            SinkStatus::NoMemory => "out of memory",
        };
        println!(rt; "    {name} {}", status.code())?;
        show(rt, out.bytes())
    }
}

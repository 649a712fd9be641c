//! What talks acknowledge.
use crate::frames::{show, window};
use anyhow::{Result, bail};
use lumber_frame::{ack_frame, acknowledged};
use script_words::{bytes, number, small};
use std::alloc::Global;
use wire_base::{Blob, Piece};

#[derive(Drop)]
pub struct Talk {
    /// What was not sent yet.
    rest: Vec<u8>,
    pieces: Vec<Piece>,
}

impl Talk {
    pub fn new(alloc: Global) -> Talk {
        Talk {
            rest: Vec::new(alloc),
            pieces: Vec::new(alloc),
        }
    }

    pub fn step(&mut self, rt: &HostRuntime, words: &[&str]) -> Result<()> {
        let alloc = rt.alloc();
        match *words {
            ["window", ref payloads @ ..] => self.lay(alloc, payloads),
            ["out", count] => self.send(alloc, number(count)?),
            ["ack", sequence] => self.receive(alloc, &ack_frame(small(sequence)?)),
            ["in", word] => self.receive(alloc, &bytes(alloc, word)?),
            ["acknowledged"] => self.show(rt),
            _ => bail!("no such call"),
        }
    }

    /// A window with these payloads is to be sent.
    fn lay(&mut self, alloc: Global, words: &[&str]) -> Result<()> {
        let mut payloads = Vec::new(alloc);
        for word in words {
            payloads.push(bytes(alloc, word)?)?;
        }
        self.rest.extend_from_slice(&window(alloc, &payloads)?)?;
        Ok(())
    }

    /// So many more bytes are sent.
    fn send(&mut self, alloc: Global, count: u64) -> Result<()> {
        let count = usize::try_from(count)?.min(self.rest.len());
        let (front, back) = self.rest.split_at(count);
        self.pieces
            .push(Piece::Out(Blob::from_bytes(alloc, front)?))?;
        let back = back.to_vec(alloc)?;
        self.rest = back;
        Ok(())
    }

    fn receive(&mut self, alloc: Global, bytes: &[u8]) -> Result<()> {
        self.pieces
            .push(Piece::In(Blob::from_bytes(alloc, bytes)?))?;
        Ok(())
    }

    /// The payloads that are acknowledged, one after another.
    fn show(&self, rt: &HostRuntime) -> Result<()> {
        let mut joined = Vec::new(rt.alloc());
        for payload in &acknowledged(rt.alloc(), &self.pieces)? {
            joined.extend_from_slice(payload.bytes())?;
        }
        show(rt, &joined)
    }
}

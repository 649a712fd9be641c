//! Windows of parcels against what a peer answers.
use crate::frames::show;
use anyhow::{Context, Result, bail, ensure};
use lumber_client::{Heard, Window};
use script_words::{bytes, small};
use std::alloc::Global;
use wire_base::{Blob, Epoch, MAX_PAYLOAD, Parcel, Slot, Span};

/// No script settles more parcels at once.
const MOST_SETTLED: usize = 8;

#[derive(Drop)]
pub struct Windows {
    window: Window,
}

fn show_heard(rt: &HostRuntime, heard: Heard) -> Result<()> {
    match heard {
        Heard::More => {}
        Heard::Alive => println!(rt; "    alive")?,
        Heard::Acked { from, to } => println!(rt; "    acked from {from} to {to}")?,
        Heard::PeerFault { at } => println!(rt; "    peer fault at {at}")?,
    }
    Ok(())
}

impl Windows {
    pub fn new(alloc: Global) -> Result<Windows> {
        Ok(Windows {
            window: Window::new(alloc, 1, 1)?,
        })
    }

    pub fn step(&mut self, rt: &HostRuntime, words: &[&str]) -> Result<()> {
        let alloc = rt.alloc();
        match *words {
            ["window", most, depth] => self.open(alloc, small(most)?, small(depth)?),
            ["offer", word] => self.offer(alloc, &bytes(alloc, word)?),
            ["offers", word, times] => self.offer_times(alloc, &bytes(alloc, word)?, small(times)?),
            ["begin"] => self.begin(),
            ["piece"] => self.send(rt, false),
            ["length"] => self.send(rt, true),
            ["got", word] => self.give(rt, &bytes(alloc, word)?),
            ["settled"] => self.settle(rt),
            ["again"] => {
                self.window.again();
                Ok(())
            }
            ["asked"] => self.show(rt),
            _ => bail!("no such call"),
        }
    }

    fn open(&mut self, alloc: Global, most: u32, depth: u32) -> Result<()> {
        ensure!(0 < most && 0 < depth, "no window");
        self.window = Window::new(alloc, most, depth)?;
        Ok(())
    }

    fn offer(&mut self, alloc: Global, payload: &[u8]) -> Result<()> {
        ensure!(
            self.window.can_offer() && payload.len() <= MAX_PAYLOAD,
            "no room"
        );
        let parcel = Parcel {
            slot: Slot(0),
            epoch: Epoch(0),
            span: Span::new(0, 1).context("no span")?,
            payload: Blob::from_bytes(alloc, payload)?,
        };
        self.window.offer(parcel);
        Ok(())
    }

    fn offer_times(&mut self, alloc: Global, payload: &[u8], times: u32) -> Result<()> {
        for _ in 0..times {
            self.offer(alloc, payload)?;
        }
        Ok(())
    }

    fn begin(&mut self) -> Result<()> {
        ensure!(self.window.can_begin(), "nothing waits");
        self.window.begin();
        Ok(())
    }

    /// Sends the next piece, and prints it or its length.
    fn send(&mut self, rt: &HostRuntime, is_long: bool) -> Result<()> {
        let piece = self.window.out();
        let length = piece.len();
        if is_long {
            println!(rt; "    {length} bytes")?;
        } else {
            show(rt, piece)?;
        }
        self.window.sent(length);
        Ok(())
    }

    /// Gives the bytes up to the first fault.
    fn give(&mut self, rt: &HostRuntime, bytes: &[u8]) -> Result<()> {
        for byte in bytes {
            if self.window.has_failed() || !self.window.out().is_empty() {
                break;
            }
            show_heard(rt, self.window.got(*byte))?;
        }
        Ok(())
    }

    /// The payloads of the parcels that are handed out, one after another.
    fn settle(&mut self, rt: &HostRuntime) -> Result<()> {
        let mut payloads = Vec::new(rt.alloc());
        for _ in 0..MOST_SETTLED {
            if let Some(parcel) = self.window.settled() {
                payloads.extend_from_slice(parcel.payload.bytes())?;
            }
        }
        show(rt, &payloads)
    }

    fn show(&self, rt: &HostRuntime) -> Result<()> {
        let (offer, begin) = (self.window.can_offer(), self.window.can_begin());
        let (is_full, windows) = (self.window.is_full(), self.window.windows_in_flight());
        let (settled, failed) = (self.window.has_settled(), self.window.has_failed());
        println!(rt;
            "    can offer {offer}, can begin {begin}, full {is_full}, windows {windows}"
        )?;
        println!(rt; "    has settled {settled}, has failed {failed}")?;
        Ok(())
    }
}

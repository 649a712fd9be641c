//! What `bench/` times; no part of the product.
//!
//! The arguments name a call and say over what and how often it is made. A count is printed, by which `bench/` sees that
//! all was done.
//!
//! - `worker PORT DEPTH EVENTS`: one worker carries EVENTS parcels of 240 bytes to a peer at that port of 127.0.0.1, in
//!   windows of 2,048 of which DEPTH may be in flight; how many were acknowledged.
//! - `commits ROWS TURNS`: TURNS commits of ROWS rows to the areas `bench.a` and `bench.b` in the folder where it runs; how
//!   many rows that is.
//! - `spans STRIDE SPANS`: a tracker notes SPANS spans of ten bytes of one file, each hundred thousand of them by strides of
//!   STRIDE; the place up to which all is settled.
//! - `harvester BYTES LINES`: a harvester over a file of LINES lines of BYTES bytes; how many events it reported.
//! - `payloads BYTES EVENTS`: the payloads of EVENTS such messages, without a harvester; how many there were.
#![tactic(auto)]

mod lines;
mod rows;
mod worker;

use crate::lines::{harvested, payloads};
use crate::rows::{commits, settled};
use crate::worker::{Carrier, carry};
use outside_real::{FileDisk, SystemClock, TcpWire};
use std::alloc::Global;
use std::env;
use std::fs::File;
use std::net::{Net, TcpStream};
use std::process::ExitCode;
use std::rt::Files;
use std::sync::Wait;
use wire_base::{Text, read_decimal};

fn carried<R: Wait + Net<Stream = TcpStream> + std::time::Clock + Files<File = File>>(
    rt: &R,
    alloc: Global,
    port: u64,
    depth: u64,
    events: u64,
) -> anyhow::Result<u64> {
    let mut wire = TcpWire::new(rt);
    let mut clock = SystemClock::new(rt);
    let depth = u32::try_from(depth)?.max(1);
    let mut carrier = Carrier::new(alloc, u16::try_from(port)?, depth)?;
    let settled = carry(rt, alloc, &mut carrier, &mut wire, &mut clock, events);
    carrier.end(&mut wire);
    Ok(settled)
}

fn committed(rt: &HostRuntime, rows: u64, turns: u64) -> anyhow::Result<u64> {
    let alloc = rt.alloc();
    let mut a = FileDisk::new(rt, Text::from_bytes(alloc, b"bench.a")?);
    let mut b = FileDisk::new(rt, Text::from_bytes(alloc, b"bench.b")?);
    Ok(commits(alloc, &mut a, &mut b, rows, turns)?)
}

/// The number that an argument gives; one that is absent or gives none is 0.
fn number(word: Option<&String>) -> u64 {
    match word {
        Some(word) => read_decimal(word.as_bytes()).unwrap_or(0),
        None => 0,
    }
}

fn main(rt: HostRuntime) -> anyhow::Result<ExitCode> {
    let alloc = rt.alloc();
    let words: Vec<String> = env::args(&rt)?.collect(alloc)?;
    let call = words.get(1).map_or("", |word| word.as_str());
    let (first, second) = (number(words.get(2)), number(words.get(3)));
    let figure = match call {
        "worker" => carried(&rt, alloc, first, second, number(words.get(4)))?,
        "commits" => committed(&rt, first, second)?,
        "spans" => settled(alloc, first, second)?,
        "harvester" => harvested(alloc, usize::try_from(first)?, second)?,
        "payloads" => payloads(alloc, usize::try_from(first)?, second)?,
        _ => {
            println!(rt; "usage: bench_calls CALL NUMBER ..")?;
            return Ok(ExitCode::from(2));
        }
    };
    println!(rt; "{figure}")?;
    Ok(ExitCode::SUCCESS)
}

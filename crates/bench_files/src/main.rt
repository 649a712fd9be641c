//! Scans of known files, which `bench/` times; no part of the product.
//!
//! The arguments name a call and say over how many files and how often it is made. A count is printed, by which `bench/` sees
//! that all was done.
//!
//! - `grown FILES SCANS`: SCANS scans of FILES known files, each of which grew before each of them; how many changes there
//!   were.
//! - `gone FILES TURNS`: FILES files that come with one scan and go with the next, TURNS times; how many went.
#![tactic(auto)]

mod files;

use crate::files::{gone, grown};
use std::env;
use std::process::ExitCode;
use wire_base::read_decimal;

/// The number that a word says; a word that is absent or says none is 0.
fn number(word: Option<&String>) -> u64 {
    match word {
        Some(word) => read_decimal(word.as_bytes()).unwrap_or(0),
        None => 0,
    }
}

fn main(rt: HostRuntime) -> anyhow::Result<ExitCode> {
    let alloc = rt.alloc();
    let words: Vec<String> = env::args(&rt)?.collect(alloc)?;
    let call = words.get(1).map_or("", |word| word.as_str());
    let (files, turns) = (number(words.get(2)), number(words.get(3)));
    let count = match call {
        "grown" => grown(alloc, files, turns)?,
        "gone" => gone(alloc, files, turns)?,
        _ => {
            println!(rt; "usage: bench_files CALL FILES TURNS")?;
            return Ok(ExitCode::from(2));
        }
    };
    println!(rt; "{count}")?;
    Ok(ExitCode::SUCCESS)
}

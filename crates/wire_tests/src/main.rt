//! Scripts over frames, what talks of them acknowledge, windows of parcels against what a peer answers, and the receiver over
//! peers, sinks and bells in memory; no part of the product.
//!
//! Standard input has scripts, each ended by a line `===`. The first line of a script has the word of what it is played on
//! and the script's name, and each other line is one call. The program prints the name, and below it each call with what
//! it answers.
#![tactic(auto)]

mod frames;
mod receiving;
mod talks;
mod windows;

use crate::receiving::Receiving;
use crate::talks::Talk;
use crate::windows::Windows;
use anyhow::{Result, bail};
use std::sync::Wait;

/// What a script is played on.
#[derive(Drop)]
enum Stage {
    Frames,
    Talk(Talk),
    Windows(Windows),
    Receiver(Receiving),
}

impl Stage {
    fn named(rt: &HostRuntime, word: &str) -> Result<Stage> {
        let alloc = rt.alloc();
        Ok(match word {
            "frames" => Stage::Frames,
            "talk" => Stage::Talk(Talk::new(alloc)),
            "windows" => Stage::Windows(Windows::new(alloc)?),
            "receiver" => Stage::Receiver(Receiving::new(alloc)),
            _ => bail!("no stage of this word"),
        })
    }

    /// One call. `hand` is the handle by which the receiver waits.
    fn step<R: Wait>(&mut self, rt: &HostRuntime, hand: &R, line: &str) -> Result<()> {
        let words: Vec<&str> = line.split(' ').collect(rt.alloc())?;
        match self {
            Stage::Frames => frames::step(rt, &words),
            Stage::Talk(talk) => talk.step(rt, &words),
            Stage::Windows(windows) => windows.step(rt, &words),
            Stage::Receiver(receiving) => receiving.step(rt, hand, &words),
        }
    }
}

/// Plays a script.
fn play<R: Wait>(rt: &HostRuntime, hand: &R, script: &[String]) -> Result<()> {
    let Some((first, steps)) = script.split_first() else {
        bail!("an empty script")
    };
    println!(rt; "{first}")?;
    let word = first.split(' ').next().unwrap_or("");
    let mut stage = Stage::named(rt, word)?;
    for step in steps {
        println!(rt; "  {step}")?;
        stage.step(rt, hand, step.as_str())?;
    }
    Ok(())
}

fn main(rt: HostRuntime) -> Result<()> {
    let alloc = rt.alloc();
    let mut script = Vec::new(alloc);
    for line in rt.lines(alloc) {
        let line = line?;
        if line.as_str() == "===" {
            play(&rt, &rt, &script)?;
            script = Vec::new(alloc);
        } else {
            script.push(line)?;
        }
    }
    Ok(())
}

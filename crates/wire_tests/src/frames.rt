//! Frames as bytes.
use anyhow::{Result, bail};
use lumber_frame::{FrameRead, FrameView, ack_frame, json_head, read_frame, window_head};
use script_words::{bytes, small, spelled};
use std::alloc::Global;

pub fn show(rt: &HostRuntime, bytes: &[u8]) -> Result<()> {
    println!(rt; "    {}", spelled(rt.alloc(), bytes)?)?;
    Ok(())
}

fn show_frame(rt: &HostRuntime, frame: FrameView<'_>, used: usize) -> Result<()> {
    match frame {
        FrameView::Window(count) => println!(rt; "    window {count} of {used} bytes")?,
        FrameView::Ack(sequence) => println!(rt; "    ack {sequence} of {used} bytes")?,
        FrameView::Json { sequence, payload } => {
            println!(rt; "    json {sequence} of {used} bytes")?;
            show(rt, payload)?;
        }
    }
    Ok(())
}

fn read(rt: &HostRuntime, word: &str) -> Result<()> {
    match read_frame(&bytes(rt.alloc(), word)?) {
        FrameRead::Whole { frame, used } => show_frame(rt, frame, used)?,
        FrameRead::Bad { at } => println!(rt; "    bad at {at}")?,
        FrameRead::Short => println!(rt; "    short")?,
    }
    Ok(())
}

pub fn step(rt: &HostRuntime, words: &[&str]) -> Result<()> {
    match *words {
        ["read", word] => read(rt, word),
        ["window", count] => show(rt, &window_head(small(count)?)),
        ["json", sequence, length] => show(rt, &json_head(small(sequence)?, small(length)?)),
        ["ack", sequence] => show(rt, &ack_frame(small(sequence)?)),
        _ => bail!("no such call"),
    }
}

/// The frames of one window with these payloads.
pub fn window(alloc: Global, payloads: &[Vec<u8>]) -> Result<Vec<u8>> {
    let mut bytes = Vec::new(alloc);
    bytes.extend_from_slice(&window_head(u32::try_from(payloads.len())?))?;
    let mut sequence = 0u32;
    for payload in payloads {
        sequence = sequence.saturating_add(1);
        bytes.extend_from_slice(&json_head(sequence, u32::try_from(payload.len())?))?;
        bytes.extend_from_slice(payload)?;
    }
    Ok(bytes)
}

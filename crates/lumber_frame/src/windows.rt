ghost use Rattle.std.specs.Prelude.{◌≡◌, ◌≢◌, ℕ, ◌++◌, ◌<◌, ◌^◌, List, map, IfOk, MatchOption};
ghost use Rattle.lumber_frame.specs.declared.frame.Frame.TheVariants.{Window, Json};
ghost use Rattle.lumber_frame.specs.Frame.{IsFrame, frame_bytes};
ghost use Rattle.lumber_frame.specs.Window.{IsNumbered, BeginsWithWindow, AreWindows};

use crate::frame::{FrameRead, FrameView};
use crate::read::read_frame;
use std::alloc::Global;
use wire_base::{Blob, NoMemory};

/// The whole windows that the bytes begin with.
pub fn windows_of(alloc: Global, bytes: &[u8]) -> Result<Vec<Vec<Blob>>, NoMemory>
    ensures { IfOk result (λ windows. AreWindows bytes.now
        (map (λ window. window.items) windows.items)) }
{
    let mut windows = Vec::new(alloc);
    let mut rest = bytes;
    while let Some((window, after)) = window_at(alloc, rest)? {
        windows.push(window)?;
        rest = after;
    }
    Ok(windows)
}

/// The window that the bytes begin with, and what follows it.
fn window_at<'a>(alloc: Global, bytes: &'a [u8]) -> Result<Option<(Vec<Blob>, &'a [u8])>, NoMemory>
    ensures { IfOk result (λ found. MatchOption found
        ((payloads : List (List ℕ)) (rest : List ℕ) → BeginsWithWindow bytes.now payloads rest → ⊥)
        (λ window. BeginsWithWindow bytes.now window.0.items window.1.now)) }
{
    let Some((count, rest)) = window_frame_at(bytes) else {
        return Ok(None);
    };
    if count == 0 {
        return Ok(None);
    }
    numbered_at(alloc, count, rest)
}

/// The payloads of JSON frames that are numbered from 1 to the count, and what follows them.
fn numbered_at<'a>(
    alloc: Global,
    count: u32,
    bytes: &'a [u8],
) -> Result<Option<(Vec<Blob>, &'a [u8])>, NoMemory>
    ensures { IfOk result (λ found. MatchOption found
        ((payloads : List (List ℕ)) (rest : List ℕ) → IsNumbered 1 count bytes.now payloads rest →
        ⊥)
        (λ numbered. IsNumbered 1 count bytes.now numbered.0.items numbered.1.now)) }
{
    let mut payloads = Vec::new(alloc);
    let mut rest = bytes;
    for before in 0..count {
        let Some((payload, after)) = json_at(before + 1, rest) else {
            return Ok(None);
        };
        payloads.push(Blob::from_bytes(alloc, payload)?)?;
        rest = after;
    }
    Ok(Some((payloads, rest)))
}

/// The count of the window frame that the bytes begin with, and what follows it.
fn window_frame_at<'a>(bytes: &'a [u8]) -> Option<(u32, &'a [u8])>
    ensures { MatchOption result
        ((count : ℕ) (rest : List ℕ) → count < 2 ^ 32 →
        bytes.now ≢ frame_bytes (Window count) ++ rest)
        (λ found. bytes.now ≡ frame_bytes (Window found.0) ++ found.1.now) }
{
    match read_frame(bytes) {
        FrameRead::Whole {
            frame: FrameView::Window(count),
            used,
        } => Some((count, &bytes[used..])),
        _ => None,
    }
}

/// The payload of the JSON frame of this sequence that the bytes begin with, and what follows it.
fn json_at<'a>(sequence: u32, bytes: &'a [u8]) -> Option<(&'a [u8], &'a [u8])>
    ensures { MatchOption result
        ((payload rest : List ℕ) → IsFrame (Json sequence payload) →
        bytes.now ≢ frame_bytes (Json sequence payload) ++ rest)
        (λ found. IsFrame (Json sequence found.0.now) ×
        (bytes.now ≡ frame_bytes (Json sequence found.0.now) ++ found.1.now)) }
{
    match read_frame(bytes) {
        FrameRead::Whole {
            frame: FrameView::Json {
                sequence: found,
                payload,
            },
            used,
        } if found == sequence => { Some((payload, &bytes[used..])) }
        _ => None,
    }
}

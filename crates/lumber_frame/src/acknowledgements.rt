ghost use Rattle.std.specs.Prelude.{◌≡◌, ℕ, ◌+◌, ◌-◌, List, [], ◌++◌, ◌∷◌, ◌<◌, ◌≤◌, ◌^◌, length, map, take, drop, slice_index, vec_len, IfOk, OnOk, MatchOption};
ghost use Rattle.std.specs.Option.{SomeIff};
ghost use Rattle.lumber_frame.specs.Talk.{out_bytes};
ghost use Rattle.lumber_frame.specs.Window.{window_bytes};
ghost use Rattle.lumber_frame.specs.Acknowledged.{Acknowledges, Answer, acknowledgements, answers, count_at, greatest, oldest_open, whole_within};

use crate::frame::{FrameRead, FrameView};
use crate::read::read_frame;
use crate::talk::{in_of, out_before, out_of};
use crate::windows::windows_of;
use std::alloc::Global;
use wire_base::{Blob, NoMemory, Piece};

/// The payloads that a talk acknowledges, by windows and places. Slow and plain: what quicker code
/// is compared with.
pub fn acknowledged(alloc: Global, talk: &[Piece]) -> Result<Vec<Blob>, NoMemory>
    ensures { IfOk result (λ payloads. Acknowledges talk.now payloads.items) }
{
    let out = out_of(alloc, talk)?;
    let received = in_of(alloc, talk)?;
    let windows = windows_of(alloc, &out)?;
    let mosts = greatest_numbers(alloc, &windows, talk, &received)?;
    let mut payloads = Vec::new(alloc);
    for (before, window) in windows.iter().enumerate() {
        append_front(alloc, &mut payloads, window, mosts[before + 1] as usize)?;
    }
    Ok(payloads)
}

/// The greatest number that was given for each window, by its number from 1 on; 0 stands for none.
fn greatest_numbers(
    alloc: Global,
    windows: &[Vec<Blob>],
    talk: &[Piece],
    received: &[u8],
) -> Result<Vec<u32>, NoMemory>
    requires { length (out_bytes talk.now) < 2 ^ 64 }
    ensures each { IfOk result (λ mosts. vec_len mosts ≡ length windows.now + 1) }
    ensures greatest { IfOk result (λ mosts. (window : ℕ) → window ≤ length windows.now →
        slice_index mosts.items window ≡ greatest window
        (answers (map (λ w. w.items) windows.now) talk.now [] 0 (acknowledgements received.now))) }
{
    let mut mosts = vec![in alloc; 0; windows.len() + 1]?;
    let mut place = 0;
    while let Some(number) = acknowledgement_at(&received[place..]) {
        let whole = whole_within(windows, out_before(talk, place));
        let asked = oldest_open(windows, &mosts, whole);
        if number as usize > count_at(windows, asked) {
            return Ok(mosts);
        }
        mosts[asked] = mosts[asked].max(number);
        place += 6;
    }
    Ok(mosts)
}

/// Of this many windows, the number of the first that was not acknowledged in full, or of the last.
fn oldest_open(windows: &[Vec<Blob>], mosts: &[u32], whole: usize) -> usize
    requires whole { whole ≤ length windows.now }
    requires each { length mosts.now ≡ length windows.now + 1 }
    ensures most { result ≤ whole }
    ensures oldest { (given : List Answer) → ((window : ℕ) → window ≤ length windows.now →
        slice_index mosts.now window ≡ greatest window given) →
        result ≡ oldest_open given 0 (take whole (map (λ w. w.items) windows.now)) }
{
    for before in 0..whole {
        if (mosts[before + 1] as usize) < windows[before].len() {
            return before + 1;
        }
    }
    whole
}

/// The number of the acknowledgement that the bytes begin with.
fn acknowledgement_at(bytes: &[u8]) -> Option<u32>
    ensures { MatchOption result
        (acknowledgements bytes.now ≡ [])
        (λ number. (6 ≤ length bytes.now) ×
        (acknowledgements bytes.now ≡ number ∷ acknowledgements (drop 6 bytes.now))) }
{
    match read_frame(bytes) {
        FrameRead::Whole {
            frame: FrameView::Ack(number),
            ..
        } => Some(number),
        _ => None,
    }
}

/// How many windows end within the first `out` bytes.
fn whole_within(windows: &[Vec<Blob>], out: usize) -> usize
    ensures most { result ≤ length windows.now }
    ensures whole { result ≡ whole_within (map (λ w. w.items) windows.now) out }
{
    let mut whole = 0;
    let mut left = out;
    for window in windows {
        let Some(after) = after_window(window, left) else {
            return whole;
        };
        left = after;
        whole += 1;
    }
    whole
}

/// How many bytes are left after the window's, if this many are there.
fn after_window(window: &[Blob], out: usize) -> Option<usize>
    ensures { SomeIff result (length (window_bytes window.now) ≤ out)
        (out - length (window_bytes window.now)) }
{
    if out < 6 {
        return None;
    }
    let mut left = out - 6;
    for payload in window {
        let size = payload.bytes().len();
        if left < 10 || left - 10 < size {
            return None;
        }
        left -= 10 + size;
    }
    Some(left)
}

/// The count of the window of this number, from 1 on; 0 if there is none.
fn count_at(windows: &[Vec<Blob>], number: usize) -> usize
    ensures { result ≡ count_at (map (λ w. w.items) windows.now) number }
{
    if number == 0 || windows.len() < number {
        return 0;
    }
    windows[number - 1].len()
}

fn append_front(
    alloc: Global,
    payloads: &mut Vec<Blob>,
    window: &[Blob],
    most: usize,
) -> Result<(), NoMemory>
    ensures { OnOk result (payloads.new.items ≡ payloads.old.items ++ take most window.now) }
{
    let front = &window[..most.min(window.len())];
    for payload in front {
        payloads.push(payload.copy(alloc)?)?;
    }
    Ok(())
}

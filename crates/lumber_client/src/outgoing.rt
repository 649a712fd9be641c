ghost use Rattle.std.specs.Prelude.{◌≡◌, ℕ, ◌+◌, ◌<◌, ◌≤◌, ◌++◌, [], All, length, IfOk, MatchBool, None, ◌^◌, vec_len, vec_capacity};
ghost use Rattle.std.specs.VecDeque.{deque_len};
ghost use Rattle.wire_base.specs.declared.parcel.TheConstants.{MAX_PAYLOAD};
ghost use Rattle.wire_base.specs.Ranges.{IsParcel};
ghost use Rattle.lumber_client.specs.Exchange.{payloads_of};
ghost use Rattle.lumber_client.specs.Laying.{IsCounted, LaysFrame, LaysHead, LaysNext, LaysNoMore, Lends, Refills, last_laid, nothing_laid, passed_by, piece_of, with_window};

use lumber_frame::{json_head, window_head};
use std::alloc::Global;
use std::collections::VecDeque;
use std::marker::Model;
use wire_base::{NoMemory, Parcel};

/// How many bytes of frames are laid one after another, so that one sending carries many.
const LAID_BYTES: usize = 131_072;

/// How many bytes come before a payload.
const JSON_HEAD_BYTES: usize = 10;

/// How many bytes a window's frame has.
const WINDOW_HEAD_BYTES: usize = 6;

/// What goes out next. The parcels are the window's: those in front, `begun` of them, were begun.
#[derive(Drop)]
pub(crate) struct Outgoing {
    /// Frames, of which `start` bytes went out.
    buffer: Vec<u8>,
    start: usize,
    /// How many bytes went out of the payload that follows them as it is.
    lent: Option<usize>,
    /// Of the window that is laid, how many frames are, and how many are left.
    laid: u32,
    left: u32,
    /// The counts of the windows after it.
    unlaid: VecDeque<u32>,
    /// How many frames are left in all of them.
    to_lay: usize,
}

impl Model for Outgoing {
    ghost use Rattle.std.specs.VecDeque.{deque_capacity};
    ghost use Rattle.lumber_client.specs.Laying.{Laying};

    ghost Value = { Laying };

    ghost use Rattle.lumber_client.specs.Room.{IsRoomy};

    ghost view = { λ o. record {
      depth = deque_capacity o.unlaid;
      buffer = o.buffer.items;
      start = o.start;
      lent = o.lent;
      laid = o.laid;
      left = o.left;
      unlaid = o.unlaid.items;
      to_lay = o.to_lay;
    } };

    ghost invariant = { λ o. IsRoomy o };
}

impl Outgoing {
    pub(crate) fn new(alloc: Global, depth: usize) -> Result<Outgoing, NoMemory>
        ensures { IfOk result (λ outgoing. outgoing ≡ nothing_laid depth) }
    {
        Ok(Outgoing {
            buffer: Vec::with_capacity(alloc, LAID_BYTES)?,
            start: 0,
            lent: None,
            laid: 0,
            left: 0,
            unlaid: VecDeque::with_capacity(alloc, depth)?,
            to_lay: 0,
        })
    }

    /// Forgets all that was to go out.
    pub(crate) fn clear(&mut self)
        ensures { self.new ≡ nothing_laid self.old.depth }
    {
        self.buffer.clear();
        self.start = 0;
        self.lent = None;
        self.laid = 0;
        self.left = 0;
        self.unlaid.clear();
        self.to_lay = 0;
    }

    /// The next piece.
    pub(crate) fn piece<'a>(&'a self, parcels: &'a VecDeque<Parcel>, begun: usize) -> &'a [u8]
        requires begun { begun ≤ deque_len parcels.now }
        requires lent { Lends self.now (payloads_of parcels.now.items) begun begun }
        ensures { result.now ≡ piece_of self.now (payloads_of parcels.now.items) begun }
    {
        if self.start < self.buffer.len() {
            return &self.buffer[self.start..];
        }
        match self.lent {
            Some(sent) => &parcels[begun - self.to_lay - 1].payload.bytes()[sent..],
            None => &[],
        }
    }

    /// This many bytes of the next piece went out.
    pub(crate) fn pass(&mut self, n: usize, parcels: &VecDeque<Parcel>, begun: usize)
        requires begun { begun ≤ deque_len parcels.now }
        requires range { All IsParcel parcels.now.items }
        requires lent { Lends self.old (payloads_of parcels.now.items) begun begun }
        requires within { n ≤ length (piece_of self.old (payloads_of parcels.now.items) begun) }
        ensures { self.new ≡
            passed_by self.old n (last_laid self.old (payloads_of parcels.now.items) begun) }
    {
        if self.start < self.buffer.len() {
            self.start += n;
            return;
        }
        let Some(before) = self.lent else { return };
        let sent = before + n;
        let size = parcels[begun - self.to_lay - 1].payload.bytes().len();
        self.lent = (sent < size).then_some(sent);
    }

    /// Puts a window of this many parcels after what is to go out.
    pub(crate) fn add(&mut self, count: u32)
        requires room { length self.old.unlaid < self.old.depth }
        requires few { self.old.to_lay + count < 2 ^ 64 }
        ensures { self.new ≡ with_window self.old count }
    {
        self.unlaid.push_back_reserved(count);
        self.to_lay += count as usize;
    }

    /// Lays frames if nothing is left of those that were laid.
    pub(crate) fn refill(&mut self, parcels: &VecDeque<Parcel>, begun: usize)
        requires begun { begun ≤ deque_len parcels.now }
        requires to_lay { self.old.to_lay ≤ begun }
        requires range { All IsParcel parcels.now.items }
        requires counted { IsCounted self.old }
        requires lent { Lends self.old (payloads_of parcels.now.items) begun begun }
        ensures { Refills self.old (payloads_of parcels.now.items) begun self.new }
    {
        if self.start == self.buffer.len() && self.lent.is_none() {
            self.lay(parcels, begun);
        }
    }

    /// Lays frames until one does not fit.
    fn lay(&mut self, parcels: &VecDeque<Parcel>, begun: usize)
        requires begun { begun ≤ deque_len parcels.now }
        requires to_lay { self.old.to_lay ≤ begun }
        requires range { All IsParcel parcels.now.items }
        requires counted { IsCounted self.old }
        requires out { self.old.start ≡ length self.old.buffer }
        requires none_lent { self.old.lent ≡ None }
        ensures { Refills self.old (payloads_of parcels.now.items) begun self.new }
    {
        self.empty();
        while self.lay_next(parcels, begun) {}
    }

    /// The buffer is free again.
    fn empty(&mut self)
        ensures { self.new ≡ record self.old { buffer = []; start = 0 } }
    {
        self.buffer.clear();
        self.start = 0;
    }

    /// Lays one more frame. False if none is left, if it has no room, and after a payload
    /// that is lent.
    fn lay_next(&mut self, parcels: &VecDeque<Parcel>, begun: usize) -> bool
        requires begun { begun ≤ deque_len parcels.now }
        requires to_lay { self.old.to_lay ≤ begun }
        requires counted { IsCounted self.old }
        requires range { All IsParcel parcels.now.items }
        ensures lays { MatchBool result
            (LaysNext self.old (payloads_of parcels.now.items) begun self.new)
            ((self.new ≡ self.old) × LaysNoMore self.old) }
    {
        if self.lent.is_some() {
            return false;
        }
        if self.left == 0 {
            return self.lay_head();
        }
        let payload = &parcels[begun - self.to_lay].payload;
        self.lay_frame(payload.bytes())
    }

    /// Lays the frame of the next window.
    fn lay_head(&mut self) -> bool
        requires left { self.old.left ≡ 0 }
        requires counted { IsCounted self.old }
        ensures { MatchBool result (LaysHead self.old self.new)
            ((self.new ≡ self.old) × (self.old.buffer ≡ [] → self.old.unlaid ≡ [])) }
    {
        if LAID_BYTES - self.buffer.len() < WINDOW_HEAD_BYTES {
            return false;
        }
        match self.unlaid.pop_front() {
            Some(count) => {
                append(&mut self.buffer, &window_head(count));
                self.laid = 0;
                self.left = count;
                true
            }
            None => false,
        }
    }

    /// Lays the next frame of the window, or only its head if the payload is larger than the
    /// buffer.
    fn lay_frame(&mut self, payload: &[u8]) -> bool
        requires left { 0 < self.old.left }
        requires counted { IsCounted self.old }
        requires range { length payload.now ≤ MAX_PAYLOAD }
        requires none_lent { self.old.lent ≡ None }
        ensures { MatchBool result (LaysFrame self.old payload.now self.new)
            ((self.new ≡ self.old) × (0 < length self.old.buffer)) }
    {
        let size = JSON_HEAD_BYTES + payload.len();
        let room = LAID_BYTES - self.buffer.len();
        if room < size && (size <= LAID_BYTES || room < JSON_HEAD_BYTES) {
            return false;
        }
        append(
            &mut self.buffer,
            &json_head(self.laid + 1, payload.len() as u32),
        );
        if size <= room {
            append(&mut self.buffer, payload);
        } else {
            self.lent = Some(0);
        }
        self.laid += 1;
        self.left -= 1;
        self.to_lay -= 1;
        true
    }
}

/// There is room for the bytes.
fn append(buffer: &mut Vec<u8>, bytes: &[u8])
    requires { vec_len buffer.old + length bytes.now ≤ vec_capacity buffer.old }
    ensures items { buffer.new.items ≡ buffer.old.items ++ bytes.now }
    ensures capacity { vec_capacity buffer.old ≤ vec_capacity buffer.new }
{
    let Ok(()) = buffer.extend_from_slice(bytes) else {
        unreachable!()
    };
}

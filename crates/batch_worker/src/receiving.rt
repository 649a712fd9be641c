ghost use Rattle.std.specs.Prelude.{◌≡◌, ◌<◌, [], length, if◌then◌else◌};
ghost use Rattle.std.specs.VecDeque.{deque_capacity};
ghost use Rattle.batch_worker.specs.Receiving.{Hears, Receives, outs_kept};

use crate::feed::feed;
use crate::worker::Worker;
use outside::{Link, Recv};
use std::collections::VecDeque;
use wire_base::Moment;

/// How many bytes are received at once; an acknowledgement has six.
const RECEIVED: usize = 192;

/// What one receiving came to.
#[derive(Clone, Copy)]
pub(crate) enum Received {
    Bytes,
    /// The byte at this place makes a fault of the peer.
    Fault(u64),
    Nothing,
    Closed,
    Failed,
}

impl<L: Link> Worker<L> {
    /// Receives once, and gives the window what came, up to the first fault.
    pub(crate) fn receive(&mut self, now: Moment) -> Received
        requires all_is_out { self.old.window.out ≡ [] }
        requires in_flight { 0 < length self.old.window.flights }
        ensures { Receives L.told L.faults L.idles now self.old self.new result }
    {
        let mut bytes = [0; RECEIVED];
        let Some(link) = &mut self.link else {
            unreachable!()
        };
        match link.recv(&mut bytes) {
            Recv::Got(count) => match self.hear(&bytes[..count], now) {
                Some(at) => Received::Fault(at),
                None => Received::Bytes,
            },
            Recv::NotYet => Received::Nothing,
            Recv::Closed => Received::Closed,
            Recv::Failed => Received::Failed,
        }
    }

    /// Gives the window these bytes. After a fault it is made again, since nothing counts there.
    fn hear(&mut self, bytes: &[u8], now: Moment) -> Option<u64>
        requires all_is_out { self.old.window.out ≡ [] }
        ensures { Hears now self.old self.new bytes.now result }
    {
        self.heard = now;
        let fault = feed(&mut self.window, bytes);
        self.failures = failures_since(self.window.has_settled(), self.failures);
        match fault {
            Some(at) => {
                self.window.again();
                self.outs.clear();
                Some(at)
            }
            None => {
                forget_oldest(&mut self.outs, self.window.windows_in_flight());
                None
            }
        }
    }
}

/// Keeps this many of the last moments.
fn forget_oldest(outs: &mut VecDeque<Moment>, kept: usize)
    ensures kept { outs.new.items ≡ outs_kept outs.old.items kept }
    ensures capacity { deque_capacity outs.new ≡ deque_capacity outs.old }
{
    while kept < outs.len() {
        let _ = outs.pop_front();
    }
}

/// The failures in a row so far; none if something was acknowledged.
fn failures_since(acknowledged: bool, failures: u32) -> u32
    ensures { result ≡ (if acknowledged then 0 else failures) }
{
    if acknowledged { 0 } else { failures }
}

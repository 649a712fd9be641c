ghost use Rattle.std.specs.Prelude.{◌≡◌, ◌-◌, ◌<◌, ◌≤◌, [], length, take, drop, vec_len, IfOk, OnErr, OnOk};
ghost use Rattle.outside.specs.Counts.{Rose};
ghost use Rattle.outside.specs.Talks.{Ended, IsNotYet, IsWithin, TellsReceiving};
ghost use Rattle.lumber_server.specs.Receiving.{IsHeard};

use outside::{Link, Recv};
use std::alloc::Global;
use std::marker::Model;
use wire_base::NoMemory;

/// How many bytes are received at once, as long as no frame is longer.
const RECEIVED_BYTES: usize = 65_536;

/// Bytes that were received and are not read yet.
#[derive(Drop)]
pub(crate) struct Incoming {
    buffer: Vec<u8>,
    /// How many bytes in the front of the buffer were received.
    filled: usize,
}

impl Model for Incoming {
    ghost use Rattle.std.specs.Prelude.{List, ℕ, ◌≤◌, take, vec_len};

    ghost Value = { List ℕ };

    ghost view = { λ i. take i.filled i.buffer.items };

    ghost invariant = { λ i. i.filled ≤ vec_len i.buffer };
}

impl Incoming {
    pub(crate) fn new(alloc: Global) -> Result<Incoming, NoMemory>
        ensures { IfOk result (λ incoming. incoming ≡ []) }
    {
        Ok(Incoming {
            buffer: vec![in alloc; 0; RECEIVED_BYTES]?,
            filled: 0,
        })
    }

    pub(crate) fn bytes(&self) -> &[u8]
        ensures { result.now ≡ self.now }
    {
        &self.buffer[..self.filled]
    }

    /// Receives once, after the bytes that are there.
    pub(crate) fn receive<L: Link>(&mut self, link: &mut L) -> Result<Recv, NoMemory>
        ensures heard { IfOk result (λ heard. IsHeard (L.told link.old) self.old heard self.new (L.told link.new)) }
        ensures none_heard { OnErr result (L.told link.new ≡ L.told link.old) }
        ensures kept { OnErr result (self.new ≡ self.old) }
        ensures faults_never_fall { L.faults link.old ≤ L.faults link.new }
        ensures idles_never_fall { L.idles link.old ≤ L.idles link.new }
        ensures no_failed_send { L.failed_sends link.new ≡ L.failed_sends link.old }
        ensures ended_only_where_faults_rose { IfOk result (λ heard. Ended heard →
            Rose (L.faults link.old) (L.faults link.new)) }
        ensures not_yet_only_where_idles_rose { IfOk result (λ heard. IsNotYet heard →
            Rose (L.idles link.old) (L.idles link.new)) }
    {
        make_room(&mut self.buffer, self.filled)?;
        let heard = receive_behind(&mut self.buffer, self.filled, link);
        if let Recv::Got(count) = heard {
            self.filled += count;
        }
        Ok(heard)
    }

    /// Forgets this many first bytes.
    pub(crate) fn forget(&mut self, count: usize)
        requires { count ≤ length self.old }
        ensures { self.new ≡ drop count self.old }
    {
        self.buffer.copy_within(count..self.filled, 0);
        self.filled -= count;
    }
}

/// Makes room for at least one byte after these. A buffer that is full doubles.
fn make_room(buffer: &mut Vec<u8>, filled: usize) -> Result<(), NoMemory>
    requires { filled ≤ vec_len buffer.old }
    ensures room { OnOk result (filled < vec_len buffer.new) }
    ensures kept { take filled buffer.new.items ≡ take filled buffer.old.items }
    ensures no_shorter { vec_len buffer.old ≤ vec_len buffer.new }
{
    if filled < buffer.len() {
        return Ok(());
    }
    let room = buffer.len().saturating_mul(2).max(RECEIVED_BYTES);
    if room <= filled {
        return Err(NoMemory);
    }
    buffer.resize(room, 0)?;
    Ok(())
}

/// Receives after this many bytes of the buffer.
fn receive_behind<L: Link>(buffer: &mut [u8], filled: usize, link: &mut L) -> Recv
    requires { filled < length buffer.old }
    ensures within { IsWithin (length buffer.old - filled) result }
    ensures front { take filled buffer.new ≡ take filled buffer.old }
    ensures heard { TellsReceiving (L.told link.old) (drop filled buffer.new) result (L.told link.new) }
    ensures faults_never_fall { L.faults link.old ≤ L.faults link.new }
    ensures idles_never_fall { L.idles link.old ≤ L.idles link.new }
    ensures no_failed_send { L.failed_sends link.new ≡ L.failed_sends link.old }
    ensures ended_only_where_faults_rose { Ended result → Rose (L.faults link.old) (L.faults link.new) }
    ensures not_yet_only_where_idles_rose { IsNotYet result → Rose (L.idles link.old) (L.idles link.new) }
{
    link.recv(&mut buffer[filled..])
}

ghost use Rattle.std.specs.Prelude.{◌≡◌, ◌∷◌, ◌++◌, ◌==◌, ◌↔◌, [], false, true, if◌then◌else◌, IsTrue};
ghost use Rattle.lumber_client.specs.Hearing.{IsTakenAs, heard_as, nothing_heard};
ghost use Rattle.lumber_client.specs.Held.{with_hearing};
ghost use Rattle.lumber_client.specs.Step.{now_failed};

use std::marker::Model;

/// How many bytes of an acknowledgement are kept until its last one comes.
const KEPT: usize = 5;

/// What one more byte makes of the frame.
#[derive(Clone, Copy)]
pub(crate) enum Taken {
    /// The front of an acknowledgement.
    Front,
    /// A whole acknowledgement of this number.
    Number(u32),
    /// No acknowledgement begins so.
    Fault,
}

/// The bytes of the peer's present frame.
#[derive(Drop)]
pub(crate) struct Incoming {
    frame: [u8; KEPT],
    filled: usize,
    /// Whether the frame asks of the oldest window in flight, and not of the last one before it.
    asks_oldest: bool,
    given: u64,
    failed: bool,
}

impl Model for Incoming {
    ghost use Rattle.std.specs.Prelude.{◌≤◌, take};
    ghost use Rattle.lumber_client.specs.Hearing.{Hearing, BeginsAcknowledgement};

    ghost Value = { Hearing };

    ghost view = { λ i. record {
      frame = take i.filled i.frame;
      asks_oldest = i.asks_oldest;
      given = i.given;
      failed = i.failed;
    } };

    ghost invariant = { λ i. (i.filled ≤ 5) × BeginsAcknowledgement (take i.filled i.frame) };
}

impl Incoming {
    pub(crate) fn new() -> Incoming
        ensures { result ≡ nothing_heard }
    {
        Incoming {
            frame: [0; KEPT],
            filled: 0,
            asks_oldest: false,
            given: 0,
            failed: false,
        }
    }

    /// Takes one more byte. `oldest` says whether a window is in flight.
    pub(crate) fn take(&mut self, byte: u8, oldest: bool) -> Taken
        requires { self.old.failed ≡ false }
        ensures taken { IsTakenAs (self.old.frame ++ byte ∷ []) result }
        ensures heard { self.new ≡ heard_as self.old byte oldest result }
    {
        self.asks_oldest = asked(self.filled, self.asks_oldest, oldest);
        self.given = self.given.saturating_add(1);
        if !may_stand(self.filled, byte) {
            self.failed = true;
            return Taken::Fault;
        }
        if self.filled < KEPT {
            self.frame[self.filled] = byte;
            self.filled += 1;
            return Taken::Front;
        }
        self.filled = 0;
        let number = [self.frame[2], self.frame[3], self.frame[4], byte];
        Taken::Number(u32::from_be_bytes(number))
    }

    pub(crate) fn asks_oldest(&self) -> bool
        ensures { result ≡ self.now.asks_oldest }
    {
        self.asks_oldest
    }

    /// How many bytes were given.
    pub(crate) fn given(&self) -> u64
        ensures { result ≡ self.now.given }
    {
        self.given
    }

    pub(crate) fn failed(&self) -> bool
        ensures { result ≡ self.now.failed }
    {
        self.failed
    }

    pub(crate) fn fail(&mut self)
        ensures { self.new ≡ now_failed self.old }
    {
        self.failed = true;
    }
}

/// Which window a frame asks of is settled as its first byte comes.
fn asked(filled: usize, kept: bool, now: bool) -> bool
    ensures { result ≡ (if filled == 0 then now else kept) }
{
    if filled == 0 { now } else { kept }
}

/// Whether the byte may follow this many bytes of an acknowledgement.
fn may_stand(filled: usize, byte: u8) -> bool
    ensures { IsTrue result ↔ ((filled ≡ 0 → byte ≡ 0x32) × (filled ≡ 1 → byte ≡ 0x41)) }
{
    match filled {
        0 => byte == b'2',
        1 => byte == b'A',
        _ => true,
    }
}

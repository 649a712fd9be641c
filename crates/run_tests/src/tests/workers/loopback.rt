ghost use Rattle.std.specs.Prelude.{◌≡◌, ◌≤◌};
ghost use Rattle.std.specs.Thread.{IsSync};
ghost use Rattle.wire_base.specs.declared.numbers.TheConstants.{MAX_MOMENT};
ghost use Rattle.wire_base.specs.declared.parcel.TheConstants.{MAX_PAYLOAD};

use crate::tests::workers::rig::{Rig, Sizes};
use batch_worker::{Failure, WorkerTurn};
use outside::Wire;
use outside_real::TcpWire;
use std::alloc::Global;
use std::io;
use std::io::{ErrorKind, Read, Write};
use std::net::{Net, TcpListener, TcpStream};
use std::sync::Wait;
use std::test::Fail;
use std::thread::{Threads, join};
use std::time::Clock;
use wire_base::Moment;

const SINGLE: Sizes = Sizes {
    most: 1,
    depth: 1,
    places: 8,
};

/// More bytes than the system takes over loopback while nobody reads.
const UNREAD: usize = 16_777_216;

/// The window of the parcel a.
const WINDOW_OF_A: &[u8] = b"2W\0\0\0\x012J\0\0\0\x01\0\0\0\x01a";

/// What the workers answered of a living peer and of a dead one, and how long the round took, in milliseconds.
#[derive(Clone, Copy)]
struct Answers {
    living: WorkerTurn,
    dead: WorkerTurn,
    took: u64,
}

fn milliseconds(rt: &impl Clock) -> u64 {
    rt.monotonic()
        .map_or(0, |now| u64::try_from(now.as_millis()).unwrap_or(0))
}

/// Two workers for peers at these ports. The wire is that of the first.
fn two<W: Wire>(
    alloc: Global,
    ports: (u16, u16),
    wire: &mut W,
) -> Result<(Rig<W::Link>, Rig<W::Link>), Fail> {
    let first = Rig::new(alloc, SINGLE, ports.0)?;
    match Rig::new(alloc, SINGLE, ports.1) {
        Ok(other) => Ok((first, other)),
        Err(fail) => {
            first.end(wire);
            Err(fail)
        }
    }
}

/// Turns two workers at once, each until it does no work. The round takes as long as the slower one.
fn round<R: Threads + Wait + Sync + Clock, W: Wire + Send>(
    rt: &R,
    living: (&mut Rig<W::Link>, &mut W),
    dead: (&mut Rig<W::Link>, &mut W),
    now: u64,
) -> Answers
where
    W::Link: Send,
    requires { now ≤ MAX_MOMENT }
{
    let began = milliseconds(rt);
    let (living, living_wire) = living;
    let (dead, dead_wire) = dead;
    let (living, dead) = join(
        rt,
        ||
            requires { IsSync R.row × (now ≤ MAX_MOMENT) }
        { living.until(rt, living_wire, now) },
        ||
            requires { IsSync R.row × (now ≤ MAX_MOMENT) }
        { dead.until(rt, dead_wire, now) },
    );
    Answers {
        living,
        dead,
        took: milliseconds(rt).saturating_sub(began),
    }
}

/// Reads the window of a worker that has connected and sent it, and acknowledges it. The connection stays open.
fn serve(listener: &TcpListener) -> io::Result<TcpStream> {
    let (mut peer, _) = listener.accept()?;
    let mut bytes = [0; 17];
    peer.read_exact(&mut bytes)?;
    if bytes.as_slice() != WINDOW_OF_A {
        return Err(io::Error::from(ErrorKind::InvalidData));
    }
    peer.write_all(b"2A\0\0\0\x01")?;
    Ok(peer)
}

/// What came of a round in which both workers send, and of one after the acknowledgement of the living peer.
struct Rounds {
    sent: Answers,
    answered: Answers,
    /// The living peer was served, and its worker has posted that.
    posted: bool,
}

/// Two workers, of which the second sends so many bytes to a peer that nobody accepts.
fn meet_dead_peer<R, W: Wire + Send>(
    rt: &R,
    alloc: Global,
    wires: (&mut W, &mut W),
    length: usize,
) -> Result<Rounds, Fail>
where
    R: Threads + Wait + Sync + Clock + Net<Listener = TcpListener, Stream = TcpStream>,
    W::Link: Send,
    requires { length ≤ MAX_PAYLOAD }
{
    let (wire, dead_wire) = wires;
    let living = TcpListener::bind(rt, "127.0.0.1:0")?;
    let dead = TcpListener::bind(rt, "127.0.0.1:0")?;
    let ports = (living.local_addr()?.port(), dead.local_addr()?.port());
    let (mut first, mut other) = two(alloc, ports, wire)?;
    let loaded = first.load(rt, alloc, b"a", 1) && other.load(rt, alloc, b"a", length);
    let sent = round(
        rt,
        (&mut first, &mut *wire),
        (&mut other, &mut *dead_wire),
        0,
    );
    let peer = serve(&living);
    let answered = round(
        rt,
        (&mut first, &mut *wire),
        (&mut other, &mut *dead_wire),
        1,
    );
    let posted = first.has_posted(rt, b"a");
    first.end(wire);
    other.end(dead_wire);
    let _peer = peer?;
    Ok(Rounds {
        sent,
        answered,
        posted: loaded && posted,
    })
}

/// A peer that nobody accepts: how many bytes are sent to it, what its worker answers as it sends and in the next round, and the
/// least milliseconds of both rounds.
type Dead = (usize, WorkerTurn, WorkerTurn, u64, u64);

const DEAD: [Dead; 2] = [
    // The peer stays silent. A receive after one that found nothing waits 10 milliseconds.
    (1, WorkerTurn::NotYet, WorkerTurn::NotYet, 0, 10),
    // Nobody reads what is sent. A sending gives up 5 seconds after the system last took a byte.
    (
        UNREAD,
        WorkerTurn::Failed(Failure::Send),
        WorkerTurn::Resting {
            until: Moment(1_000),
        },
        5_000,
        0,
    ),
];

#[test]
fn dead_peer_holds_a_round_for_a_while(rt: HostRuntime) -> Result<(), Fail> {
    for (length, as_sent, as_answered, sending, answering) in &DEAD {
        assert!(rt; *length <= UNREAD);
        let (mut wire, mut dead_wire) = (TcpWire::new(&rt), TcpWire::new(&rt));
        let Rounds {
            sent,
            answered,
            posted,
        } = meet_dead_peer(&rt, rt.alloc(), (&mut wire, &mut dead_wire), *length)?;
        assert!(rt; posted);
        assert!(rt; sent.living == WorkerTurn::NotYet && sent.dead == *as_sent);
        assert!(rt; answered.living == WorkerTurn::Idle && answered.dead == *as_answered);
        assert!(rt;
            *sending <= sent.took && sent.took < 60_000,
            "{} milliseconds",
            sent.took
        );
        assert!(rt;
            *answering <= answered.took && answered.took < 30_000,
            "{} milliseconds",
            answered.took
        );
    }
    Ok(())
}

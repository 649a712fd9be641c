use crate::tests::memory::peers::{WINDOW_OF_ONE, peer};
use crate::tests::moved;
use outside::{Failed, Link, Recv, Wire};
use outside_mem::{MeetLink, MemDisk, MemFolder, MemLink, MemTail, MemTalk, MemWire};
use std::alloc::Global;
use std::test::Fail;
use std::thread::join;
use wire_base::Host;

/// Objects that threads use may be moved to another one.
fn objects_move_between_threads(
    peers: (&MemWire, &MemLink, &MeetLink),
    files: (&MemFolder, &MemTail, &MemDisk),
) {
    moved(peers.0);
    moved(peers.1);
    moved(peers.2);
    moved(files.0);
    moved(files.1);
    moved(files.2);
}

/// A wire whose first link is to meet another.
fn wire_of(alloc: Global, talk: MeetLink) -> Result<MemWire, Fail> {
    let mut talks = Vec::new(alloc);
    talks.push(MemTalk::Meet(talk))?;
    Ok(MemWire::new(alloc, talks)?)
}

/// Connects, sends a window and asks for its acknowledgement until something else is answered than
/// that nothing has come yet; gives the answer, and how often nothing had come.
fn asked(wire: &mut MemWire, host: &Host) -> Result<(Recv, u32), Failed> {
    let mut link = wire.connect(host)?;
    let _ = link.send(WINDOW_OF_ONE);
    for waited in 0..99 {
        let answer = link.recv(&mut [0; 6]);
        if answer != Recv::NotYet {
            wire.finish(link);
            return Ok((answer, waited));
        }
    }
    wire.finish(link);
    Err(Failed)
}

#[test]
fn peers_meet_in_two_threads(rt: HostRuntime) -> Result<(), Fail> {
    let alloc = rt.alloc();
    let host = peer(alloc)?;
    let (one, other) = MeetLink::pair(alloc)?;
    let mut first = wire_of(alloc, one)?;
    let mut second = wire_of(alloc, other)?;
    let (one, other) = join(
        &rt,
        || asked(&mut first, &host),
        || asked(&mut second, &host),
    );
    assert_eq!(rt; (one?.0, other?.0), (Recv::Got(6), Recv::Got(6)));
    Ok(())
}

#[test]
fn one_thread_never_meets(rt: HostRuntime) -> Result<(), Fail> {
    let alloc = rt.alloc();
    let (one, _other) = MeetLink::pair(alloc)?;
    let mut wire = wire_of(alloc, one)?;
    let asked = asked(&mut wire, &peer(alloc)?)?;
    assert_eq!(rt; asked, (Recv::Failed, 10));
    Ok(())
}

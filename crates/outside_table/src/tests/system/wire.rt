ghost use Rattle.std.specs.Prelude.{◌<◌, length};

use outside::{Link, Recv, Wire};
use outside_real::{TcpLink, TcpWire};
use std::io;
use std::io::{Read, Write};
use std::net::TcpListener;
use std::test::Fail;
use wire_base::{Host, Text};

/// What comes next, as soon as it has come.
fn next(link: &mut TcpLink, into: &mut [u8]) -> Recv
    requires { 0 < length into.old }
{
    for _ in 0..1_000 {
        match link.recv(into) {
            Recv::NotYet => {}
            answer => return answer,
        }
    }
    Recv::NotYet
}

/// Sends two bytes back to who connected, and closes the connection.
fn echo(listener: &TcpListener) -> io::Result<()> {
    let (mut peer, _) = listener.accept()?;
    let mut bytes = [0; 2];
    peer.read_exact(&mut bytes)?;
    peer.write_all(&bytes)
}

#[test]
fn wire_talks_over_loopback_until_the_peer_closes(rt: HostRuntime) -> Result<(), Fail> {
    let listener = TcpListener::bind(&rt, "127.0.0.1:0")?;
    let host = Host {
        name: Text::from_bytes(rt.alloc(), b"127.0.0.1")?,
        port: listener.local_addr()?.port(),
    };
    let mut wire = TcpWire::new(&rt);
    let mut link = wire.connect(&host)?;
    let mut into = [0; 4];
    let nothing_yet = link.recv(&mut into);
    let sent = link.send(b"ab")?;
    echo(&listener)?;
    let answered = next(&mut link, &mut into);
    let closed = next(&mut link, &mut [0]);
    wire.finish(link);
    drop(listener);
    let refused = wire.connect(&host);
    assert_eq!(rt;
        [nothing_yet, answered, closed],
        [Recv::NotYet, Recv::Got(2), Recv::Closed]
    );
    assert_eq!(rt; (sent, into), (2, *b"ab\0\0"));
    assert!(rt; refused.is_err());
    Ok(())
}

use crate::tests::workers::rig::Sizes;
use crate::tests::workers::rows::{Row, Turns, follow};
use crate::tests::workers::scripts::{Script, scripted};
use batch_worker::{Failure, WorkerTurn};
use std::alloc::Global;
use std::process::Abort;
use std::sync::Wait;
use std::test::Fail;

/// What a peer sends once the windows of ab, of cd and of e are out, before it closes; the place of its fault, and what is
/// posted at once and over the next link.
type Peer = (&'static [u8], Option<u64>, &'static [u8], &'static [u8]);

const PEERS: &[Peer] = &[
    (b"\0", Some(0), b"", b"abcde"),
    (b"2C", Some(1), b"", b"abcde"),
    (b"2W\0\0\0\x02", Some(1), b"", b"abcde"),
    (b"", None, b"", b"abcde"),
    (b"2", None, b"", b"abcde"),
    (b"2A", None, b"", b"abcde"),
    (b"2A\0", None, b"", b"abcde"),
    (b"2A\0\0", None, b"", b"abcde"),
    (b"2A\0\0\0", None, b"", b"abcde"),
    (b"2A\0\0\0\0", None, b"", b"abcde"),
    // too high, by itself and after a part
    (b"2A\0\0\0\x03", Some(5), b"", b"abcde"),
    (b"2A\0\0\0\x012A\0\0\0\x03", Some(11), b"a", b"bcde"),
    (b"2A\0\0\0\x01\xff", Some(6), b"a", b"bcde"),
    // twice
    (b"2A\0\0\0\x012A\0\0\0\x01", None, b"a", b"bcde"),
    // the last window alone, as the peer counts: it is the oldest that is asked
    (b"2A\0\0\0\x01", None, b"a", b"bcde"),
    (b"2A\0\0\0\x022A\0\0\0\x02", None, b"abcd", b"e"),
];

const THREE_WINDOWS: Sizes = Sizes {
    most: 2,
    depth: 3,
    places: 8,
};

fn check_peer<R: Wait + Abort>(rt: &R, alloc: Global, peer: &Peer) -> Result<(), Fail> {
    let (sends, fault, posted, left) = *peer;
    let pieces = [(3, sends)];
    let mut wire = scripted(
        alloc,
        &[Script {
            pieces: &pieces,
            closes: true,
        }],
    )?;
    let failure = match fault {
        Some(at) => Failure::Peer { at },
        None => Failure::Closed,
    };
    let rows: [Row<'_>; 2] = [
        (
            0,
            b"abcde",
            Turns::All,
            WorkerTurn::Failed(failure),
            posted,
            1,
        ),
        (1_000, b"", Turns::All, WorkerTurn::Idle, left, 0),
    ];
    follow(rt, alloc, &mut wire, THREE_WINDOWS, &rows)
}

#[test]
fn peers_of_three_windows(rt: HostRuntime) -> Result<(), Fail> {
    for peer in PEERS {
        check_peer(&rt, rt.alloc(), peer)?;
    }
    Ok(())
}

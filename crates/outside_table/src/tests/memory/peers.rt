use outside::{Failed, Link, Recv, Wire};
use outside_mem::{MemPiece, MemTalk, MemWire};
use std::alloc::Global;
use std::test::Fail;
use wire_base::{Blob, Host, NoMemory, Piece, Text, TextError};

/// A window of one empty payload.
pub const WINDOW_OF_ONE: &[u8] = b"2W\0\0\0\x012J\0\0\0\x01\0\0\0\0";

pub fn peer(alloc: Global) -> Result<Host, TextError> {
    let name = Text::from_bytes(alloc, b"peer")?;
    Ok(Host { name, port: 5044 })
}

#[test]
fn all_windows_are_acknowledged(rt: HostRuntime) -> Result<(), Fail> {
    let alloc = rt.alloc();
    let mut wire = MemWire::new(alloc, Vec::new(alloc))?;
    let mut link = wire.connect(&peer(alloc)?)?;
    let mut into = [0; 9];
    let early = link.recv(&mut into);
    let sent = link.send(WINDOW_OF_ONE);
    let due = link.recv(&mut into);
    wire.finish(link);
    assert_eq!(rt; (early, sent), (Recv::NotYet, Ok(WINDOW_OF_ONE.len())));
    assert_eq!(rt; due, Recv::Got(6));
    assert_eq!(rt; into, *b"2A\0\0\0\x01\0\0\0");
    assert_eq!(rt; wire.last_talk().len(), 2);
    assert_eq!(rt; wire.starved(), 0);
    Ok(())
}

fn one_piece(alloc: Global, windows: u64, closes: bool) -> Result<Vec<MemTalk>, NoMemory> {
    let bytes = Blob::from_bytes(alloc, b"abcde")?;
    let mut pieces = Vec::new(alloc);
    pieces.push(MemPiece { windows, bytes })?;
    let mut talks = Vec::new(alloc);
    talks.push(MemTalk::Pieces { pieces, closes })?;
    Ok(talks)
}

#[test]
fn pieces_come_after_their_windows(rt: HostRuntime) -> Result<(), Fail> {
    let alloc = rt.alloc();
    let host = peer(alloc)?;
    for (closes, last) in [(true, Recv::Closed), (false, Recv::NotYet)] {
        let mut wire = MemWire::new(alloc, one_piece(alloc, 1, closes)?)?;
        wire.fail_link_at(0, &[0], &[1])?;
        let mut link = wire.connect(&host)?;
        let mut into = [0; 3];
        let early = link.recv(&mut into);
        let sent = [link.send(WINDOW_OF_ONE), link.send(WINDOW_OF_ONE)];
        let answers = [
            link.recv(&mut into),
            link.recv(&mut into),
            link.recv(&mut into),
            link.recv(&mut into),
        ];
        wire.finish(link);
        assert_eq!(rt; early, Recv::NotYet);
        assert_eq!(rt; sent, [Err(Failed), Ok(WINDOW_OF_ONE.len())]);
        assert_eq!(rt; answers, [Recv::Failed, Recv::Got(3), Recv::Got(2), last]);
        assert_eq!(rt; into, *b"dec");
    }
    Ok(())
}

#[test]
fn connecting_fails_where_a_list_names_it(rt: HostRuntime) -> Result<(), Fail> {
    let alloc = rt.alloc();
    let host = peer(alloc)?;
    let mut wire = MemWire::new(alloc, Vec::new(alloc))?;
    wire.fail_at(&[0])?;
    for refuses in [true, false] {
        match wire.connect(&host) {
            Ok(link) => {
                wire.finish(link);
                assert!(rt; !refuses);
            }
            Err(Failed) => assert!(rt; refuses),
        }
    }
    Ok(())
}

/// What a peer in memory answers at the next two receives, if these bytes are sent to it.
fn answers_to(alloc: Global, bytes: &[u8]) -> Result<Vec<u8>, Fail> {
    let mut wire = MemWire::new(alloc, Vec::new(alloc))?;
    let mut link = wire.connect(&peer(alloc)?)?;
    let sent = link.send(bytes);
    let _first = link.recv(&mut [0; 6]);
    let _second = link.recv(&mut [0; 6]);
    wire.finish(link);
    sent?;
    let mut answers = Vec::new(alloc);
    for piece in wire.last_talk() {
        if let Piece::In(answer) = piece {
            answers.extend_from_slice(answer.bytes())?;
        }
    }
    Ok(answers)
}

/// The acknowledgement of a window of one payload.
const OF_ONE: &[u8] = b"2A\0\0\0\x01";

#[test]
fn whole_windows_are_counted(rt: HostRuntime) -> Result<(), Fail> {
    let alloc = rt.alloc();
    let cases: [(&[u8], &[u8]); 9] = [
        (WINDOW_OF_ONE, OF_ONE),
        (b"2W\0\0\0\x012J\0\0\0\x01\0\0\0\x01{2W", OF_ONE),
        (b"2W\0\0\0\02W\0\0\0\x012J\0\0\0\x01\0\0\0\0", b""),
        (b"2W\0\0\0\x012J\0\0\0\x01\0\0\0\x01", b""),
        (b"2W\0\0\0\x012J\0\0\0\x02\0\0\0\0", b""),
        (b"2W\0\0\0\x012W\0\0\0\0", b""),
        (b"2J\0\0\0\x01\0\0\0\0", b""),
        (b"2J\0\0\0\x01\x10\0\0\x01", b""),
        (b"2A\0\0\0\02W\0\0\0\x012J\0\0\0\x01\0\0\0\0", b""),
    ];
    for (bytes, answers) in cases {
        assert_eq!(rt;
            answers_to(alloc, bytes)?.as_slice(),
            answers,
            "of {bytes:?}"
        );
    }
    Ok(())
}

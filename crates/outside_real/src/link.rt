ghost use Rattle.std.specs.Prelude.{◌≡◌, ◌<◌, ◌≤◌, length, None, IfOk};

use crate::steady::{read_some, write_some};
use outside::{Failed, Link, Recv};
use std::io::ErrorKind;
use std::net::{Shutdown, TcpStream};
use std::time::Duration;
use std::{io, mem};

/// How long a receiving that waits does so until something comes, in milliseconds.
const PATIENCE: u64 = 10;

/// How long a sending waits at once until the system takes some of the piece, in milliseconds.
const SENDING: u64 = 250;

/// After this many such waits, which are 5 seconds, a sending gives up.
const SENDING_WAITS: u32 = 20;

/// A connection over TCP. A sending waits until the system takes some of the piece, and gives up 5 seconds
/// after it last took a byte. A receiving right after one that found nothing waits a hundredth of a second at most;
/// any other asks once and does not wait.
#[derive(Drop)]
pub struct TcpLink {
    stream: TcpStream,
    /// Whether the last receiving found nothing, and nothing was sent since.
    found_nothing: bool,
    pub(crate) faults: u64,
    pub(crate) idles: u64,
    pub(crate) failed_sends: u64,
}

impl TcpLink {
    /// The link over a connection that is made. What is sent goes out at once, in pieces as they are given.
    pub fn new(stream: TcpStream) -> io::Result<TcpLink>
        ensures tells_nothing { IfOk result (λ link. ⟦<TcpLink as Link>⟧.told link ≡ None) }
        ensures no_fault { IfOk result (λ link. ⟦<TcpLink as Link>⟧.faults link ≡ 0) }
        ensures no_idle { IfOk result (λ link. ⟦<TcpLink as Link>⟧.idles link ≡ 0) }
        ensures no_failed_send { IfOk result (λ link. ⟦<TcpLink as Link>⟧.failed_sends link ≡ 0) }
    {
        stream.set_nodelay(true)?;
        stream.set_read_timeout(Some(Duration::from_millis(PATIENCE)))?;
        stream.set_write_timeout(Some(Duration::from_millis(SENDING)))?;
        Ok(TcpLink {
            stream,
            found_nothing: false,
            faults: 0,
            idles: 0,
            failed_sends: 0,
        })
    }

    /// Ends the connection; a peer that has ended it already is no failure.
    pub fn shut(self) {
        let _ = self.stream.shutdown(Shutdown::Both);
    }
}

/// Sends a front of the piece. A call of the system that took some of it comes back within one wait, so all
/// waits without a byte are counted here.
fn send_some(stream: &mut TcpStream, piece: &[u8]) -> io::Result<usize>
    ensures within { IfOk result (λ count. count ≤ length piece.now) }
    ensures some { IfOk result (λ count. 0 < length piece.now → 0 < count) }
{
    for _ in 0..SENDING_WAITS {
        match write_some(stream, piece) {
            Err(error) if error.kind() == ErrorKind::WouldBlock => {}
            answer => return answer,
        }
    }
    Err(io::Error::from(ErrorKind::TimedOut))
}

/// Receives what is there; if nothing is, it waits for some or answers at once.
fn receive_some(stream: &mut TcpStream, waits: bool, into: &mut [u8]) -> io::Result<usize>
    ensures { IfOk result (λ count. count ≤ length into.old) }
{
    if waits {
        return read_some(stream, into);
    }
    stream.set_nonblocking(true)?;
    let answer = read_some(stream, into);
    stream.set_nonblocking(false)?;
    answer
}

impl Link for TcpLink {
    ghost told = { λ _. None };

    ghost faults = { λ l. l.faults };

    ghost idles = { λ l. l.idles };

    ghost failed_sends = { λ l. l.failed_sends };

    fn send(&mut self, piece: &[u8]) -> Result<usize, Failed> {
        self.found_nothing = false;
        match send_some(&mut self.stream, piece) {
            Ok(count) => Ok(count),
            Err(_) => {
                self.faults = self.faults.saturating_add(1);
                self.failed_sends = self.failed_sends.saturating_add(1);
                Err(Failed)
            }
        }
    }

    fn recv(&mut self, into: &mut [u8]) -> Recv {
        let waits = mem::replace(&mut self.found_nothing, false);
        match receive_some(&mut self.stream, waits, into) {
            Ok(0) => {
                self.faults = self.faults.saturating_add(1);
                Recv::Closed
            }
            Ok(count) => Recv::Got(count),
            Err(error) if error.kind() == ErrorKind::WouldBlock => {
                self.idles = self.idles.saturating_add(1);
                self.found_nothing = true;
                Recv::NotYet
            }
            Err(_) => {
                self.faults = self.faults.saturating_add(1);
                Recv::Failed
            }
        }
    }
}

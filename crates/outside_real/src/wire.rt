ghost use Rattle.std.specs.Prelude.{◌≡◌, None, IfOk};

use crate::TcpLink;
use crate::counted::counted;
use crate::reserve::Reserve;
use outside::{Failed, Wire};
use std::fs::File;
use std::io;
use std::io::ErrorKind;
use std::net::{Net, TcpStream, ToSocketAddrs};
use std::rt::Files;
use std::time::{Clock, Duration};
use wire_base::Host;

/// After this many seconds a connecting gives up.
const CONNECTING: u64 = 5;

/// The way to peers over TCP. A connecting gives up 5 seconds after it began. It has the system look up a
/// name, for as long as that takes, and tries the addresses in turn; each has an equal part of the time that
/// is left.
///
/// While it has no link it keeps a descriptor in reserve, so that a connecting finds one also if files have
/// taken all others.
#[derive(Drop)]
pub struct TcpWire<R> {
    rt: R,
    reserve: Reserve,
    open_links: u64,
    faults: u64,
    idles: u64,
}

impl<R: Net<Stream = TcpStream> + Clock + Files<File = File>> TcpWire<R> {
    /// Takes the descriptor in reserve, if the system has one left.
    pub fn new(rt: R) -> TcpWire<R>
        ensures tells_nothing { ⟦<TcpWire<R> as Wire>⟧.outcomes result ≡ None }
        ensures no_open_link { ⟦<TcpWire<R> as Wire>⟧.open_links result ≡ 0 }
        ensures no_fault { ⟦<TcpWire<R> as Wire>⟧.faults result ≡ 0 }
        ensures no_idle { ⟦<TcpWire<R> as Wire>⟧.idles result ≡ 0 }
    {
        let mut reserve = Reserve::none();
        reserve.keep(&rt);
        TcpWire {
            rt,
            reserve,
            open_links: 0,
            faults: 0,
            idles: 0,
        }
    }
}

fn stream_to(rt: &(impl Net<Stream = TcpStream> + Clock), host: &Host) -> io::Result<TcpStream> {
    let end = rt
        .monotonic()?
        .saturating_add(Duration::from_secs(CONNECTING));
    let addresses = (host.name.as_str(), host.port).to_socket_addrs(rt)?;
    let mut untried = u32::try_from(addresses.len()).unwrap_or(u32::MAX);
    let mut last = io::Error::from(ErrorKind::TimedOut);
    for address in addresses {
        let left = end.saturating_sub(rt.monotonic()?);
        let part = left.checked_div(untried).unwrap_or(left);
        if part.is_zero() {
            break;
        }
        match TcpStream::connect_timeout(rt, &address, part) {
            Ok(stream) => return Ok(stream),
            Err(error) => last = error,
        }
        untried = untried.saturating_sub(1);
    }
    Err(last)
}

fn link_to(rt: &(impl Net<Stream = TcpStream> + Clock), host: &Host) -> io::Result<TcpLink>
    ensures no_fault { IfOk result (λ link. link.faults ≡ 0) }
    ensures no_idle { IfOk result (λ link. link.idles ≡ 0) }
    ensures no_failed_send { IfOk result (λ link. link.failed_sends ≡ 0) }
{
    TcpLink::new(stream_to(rt, host)?)
}

impl<R: Net<Stream = TcpStream> + Clock + Files<File = File>> Wire for TcpWire<R> {
    type Link = TcpLink;

    ghost outcomes = { λ _. None };

    ghost open_links = { λ w. w.open_links };

    ghost faults = { λ w. w.faults };

    ghost idles = { λ w. w.idles };

    fn connect(&mut self, host: &Host) -> Result<TcpLink, Failed> {
        self.reserve.release();
        let answer = link_to(&self.rt, host);
        match counted(&mut self.faults, answer) {
            Ok(link) => {
                self.open_links = self.open_links.saturating_add(1);
                Ok(link)
            }
            Err(failed) => {
                self.reserve.keep(&self.rt);
                Err(failed)
            }
        }
    }

    fn finish(&mut self, link: TcpLink) {
        self.open_links = self.open_links.saturating_sub(1);
        self.faults = self.faults.saturating_add(link.faults);
        self.idles = self.idles.saturating_add(link.idles);
        link.shut();
        self.reserve.keep(&self.rt);
    }
}

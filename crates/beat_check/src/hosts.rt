ghost use Rattle.std.specs.Prelude.{None};

use crate::system::words_of;
use findings::Hosts;
use std::alloc::Global;
use std::io;
use std::io::ErrorKind;
use std::net::{Net, TcpStream, ToSocketAddrs};
use std::time::{Clock, Duration};
use wire_base::{Host, NoMemory, Text};

/// After so many seconds a connecting gives up, as a run does.
const CONNECTING: u64 = 5;

/// Hosts over TCP. A connecting tries the addresses of a name in turn; each has an equal part of the time that is left. A
/// connection that is made is closed at once, and no byte goes over it.
#[derive(Drop)]
pub struct TcpHosts<R> {
    rt: R,
}

impl<R: Net<Stream = TcpStream> + Clock> TcpHosts<R> {
    /// Asks the system nothing yet.
    pub fn new(rt: R) -> TcpHosts<R> {
        TcpHosts { rt }
    }
}

fn connect(rt: &(impl Net<Stream = TcpStream> + Clock), host: &Host) -> io::Result<()> {
    let end = rt
        .monotonic()?
        .saturating_add(Duration::from_secs(CONNECTING));
    let addresses = (host.name.as_str(), host.port).to_socket_addrs(rt)?;
    let mut untried = u32::try_from(addresses.len()).unwrap_or(u32::MAX);
    let mut last = io::Error::from(ErrorKind::TimedOut);
    for address in addresses {
        let left = end.saturating_sub(rt.monotonic()?);
        let part = left.checked_div(untried).unwrap_or(left);
        if part.is_zero() {
            break;
        }
        match TcpStream::connect_timeout(rt, &address, part) {
            Ok(_) => return Ok(()),
            Err(error) => last = error,
        }
        untried = untried.saturating_sub(1);
    }
    Err(last)
}

impl<R: Net<Stream = TcpStream> + Clock> Hosts for TcpHosts<R> {
    ghost tried = { λ _. None };

    fn try_host(&mut self, alloc: Global, host: &Host) -> Result<Option<Text>, NoMemory> {
        match connect(&self.rt, host) {
            Ok(()) => Ok(None),
            Err(error) => Ok(Some(words_of(alloc, &error)?)),
        }
    }
}

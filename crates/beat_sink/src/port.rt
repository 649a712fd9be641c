ghost use Rattle.std.specs.Prelude.{◌≡◌, None, IfOk};

use lumber_server::{Accept, Port};
use outside::Link;
use outside_real::TcpLink;
use std::io::ErrorKind;
use std::net::{Net, TcpListener, TcpStream};
use std::time::{Clock, Duration};
use std::{io, thread};
use wire_base::Host;

/// How long an accept that found nobody waits, in milliseconds.
const PATIENCE: u64 = 10;

/// A port over TCP. An accept listens first if nothing does yet; one that finds nobody waits a hundredth of a second.
#[derive(Drop)]
pub struct TcpPort<R> {
    rt: R,
    host: Host,
    pub(crate) listener: Option<TcpListener>,
    faults: u64,
    idles: u64,
}

impl<R: Net<Listener = TcpListener, Stream = TcpStream> + Clock> TcpPort<R> {
    /// Asks the system nothing yet.
    pub fn new(rt: R, host: Host) -> TcpPort<R>
        ensures tells_nothing { ⟦<TcpPort<R> as Port>⟧.finished result ≡ None }
        ensures no_fault { ⟦<TcpPort<R> as Port>⟧.faults result ≡ 0 }
        ensures no_idle { ⟦<TcpPort<R> as Port>⟧.idles result ≡ 0 }
    {
        TcpPort {
            rt,
            host,
            listener: None,
            faults: 0,
            idles: 0,
        }
    }
}

impl<R: Net<Listener = TcpListener, Stream = TcpStream>> TcpPort<R> {
    /// Listens from now on.
    pub fn listen(&mut self) -> io::Result<()> {
        self.listener = Some(listener_at(&self.rt, &self.host)?);
        Ok(())
    }
}

/// A listener whose accept does not wait.
fn listener_at(
    rt: &impl Net<Listener = TcpListener, Stream = TcpStream>,
    host: &Host,
) -> io::Result<TcpListener> {
    let listener = TcpListener::bind(rt, (host.name.as_str(), host.port))?;
    listener.set_nonblocking(true)?;
    Ok(listener)
}

/// Accepts a connection, if one is there; listens first if nothing does yet.
fn link_from(
    rt: &impl Net<Listener = TcpListener, Stream = TcpStream>,
    host: &Host,
    opened: &mut Option<TcpListener>,
) -> io::Result<TcpLink>
    ensures tells_nothing { IfOk result (λ link. ⟦<TcpLink as Link>⟧.told link ≡ None) }
    ensures no_fault { IfOk result (λ link. ⟦<TcpLink as Link>⟧.faults link ≡ 0) }
    ensures no_idle { IfOk result (λ link. ⟦<TcpLink as Link>⟧.idles link ≡ 0) }
    ensures no_failed_send { IfOk result (λ link. ⟦<TcpLink as Link>⟧.failed_sends link ≡ 0) }
{
    let listener = match opened.take() {
        Some(listener) => listener,
        None => listener_at(rt, host)?,
    };
    let answer = listener.accept();
    *opened = Some(listener);
    let (stream, _) = answer?;
    TcpLink::new(stream)
}

impl<R: Net<Listener = TcpListener, Stream = TcpStream> + Clock> Port for TcpPort<R> {
    type Link = TcpLink;

    ghost finished = { λ _. None };

    ghost faults = { λ p. p.faults };

    ghost idles = { λ p. p.idles };

    fn accept(&mut self) -> Accept<TcpLink> {
        match link_from(&self.rt, &self.host, &mut self.listener) {
            Ok(link) => Accept::Got(link),
            Err(error)
                if error.kind() == ErrorKind::WouldBlock
                    || error.kind() == ErrorKind::ConnectionAborted => {
                self.idles = self.idles.saturating_add(1);
                thread::sleep(&self.rt, Duration::from_millis(PATIENCE));
                Accept::NotYet
            }
            Err(_) => {
                self.faults = self.faults.saturating_add(1);
                Accept::Failed
            }
        }
    }

    fn finish(&mut self, link: TcpLink) {
        link.shut();
    }
}

ghost use Rattle.std.specs.Prelude.{◌≡◌, ◌≢◌, ◌≤◌, Some, IfOk};
ghost use Rattle.outside.specs.Counts.{Rose};
ghost use Rattle.lumber_answers.specs.HandingOn.{telling};
ghost use Rattle.lumber_server.specs.Standing.{state_at_first};
ghost use Rattle.lumber_server.specs.Turning.{IsHandedOver, IsSettled, IsTurned, session_state};

use crate::incoming::Incoming;
use crate::served::Served;
use crate::transfer::{Taken, Transfer};
use lumber_answers::Fault;
use outside::{Link, Recv, Sink};
use std::alloc::Global;
use wire_base::NoMemory;

/// The serving of one link.
#[derive(Drop)]
pub(crate) struct Session {
    incoming: Incoming,
    transfer: Transfer,
}

impl Session {
    pub(crate) fn new(alloc: Global) -> Result<Session, NoMemory>
        ensures { IfOk result (λ session. session_state session ≡ state_at_first) }
    {
        Ok(Session {
            incoming: Incoming::new(alloc)?,
            transfer: Transfer::new(alloc)?,
        })
    }

    /// Receives once, and hands on what came. How the serving ended, if it did.
    pub(crate) fn turn<L: Link, S: Sink>(&mut self, link: &mut L, out: &mut S) -> Option<Served>
        requires { IsSettled (session_state self.old) }
        ensures turned { IsTurned (telling (L.told link.old) (S.written out.old))
            (telling (L.told link.new) (S.written out.new)) (L.idles link.old) (L.idles link.new)
            self.old self.new result }
        ensures link_faults_never_fall { L.faults link.old ≤ L.faults link.new }
        ensures idles_never_fall { L.idles link.old ≤ L.idles link.new }
        ensures failed_sends_never_fall { L.failed_sends link.old ≤ L.failed_sends link.new }
        ensures faults_never_fall { S.faults out.old ≤ S.faults out.new }
        ensures ended_only_where_faults_rose { result ≡ Some Served.Ended →
            Rose (L.faults link.old) (L.faults link.new) }
        ensures send_fault_only_where_failed_sends_rose { result ≡ Some Served.SendFault →
            Rose (L.failed_sends link.old) (L.failed_sends link.new) }
        ensures out_fault_only_where_faults_rose { result ≡ Some Served.OutFault →
            Rose (S.faults out.old) (S.faults out.new) }
        ensures not_stopped { result ≢ Some Served.Stopped }
    {
        let Ok(heard) = self.incoming.receive(link) else {
            return Some(Served::NoMemory);
        };
        match heard {
            Recv::Got(_) => self.hand_over(link, out),
            Recv::NotYet => None,
            Recv::Closed => Some(Served::Ended),
            Recv::Failed => Some(Served::Ended),
        }
    }

    /// Takes the whole frames that were received, and hands them on.
    fn hand_over<L: Link, S: Sink>(&mut self, link: &mut L, out: &mut S) -> Option<Served>
        ensures handed { IsHandedOver (telling (L.told link.old) (S.written out.old))
            (telling (L.told link.new) (S.written out.new)) self.old self.new result }
        ensures link_faults_never_fall { L.faults link.old ≤ L.faults link.new }
        ensures idles_never_fall { L.idles link.old ≤ L.idles link.new }
        ensures failed_sends_never_fall { L.failed_sends link.old ≤ L.failed_sends link.new }
        ensures faults_never_fall { S.faults out.old ≤ S.faults out.new }
        ensures not_ended { result ≢ Some Served.Ended }
        ensures not_stopped { result ≢ Some Served.Stopped }
        ensures send_fault_only_where_failed_sends_rose { result ≡ Some Served.SendFault →
            Rose (L.failed_sends link.old) (L.failed_sends link.new) }
        ensures out_fault_only_where_faults_rose { result ≡ Some Served.OutFault →
            Rose (S.faults out.old) (S.faults out.new) }
    {
        let bytes = self.incoming.bytes();
        match self.transfer.take_in(bytes, link, out) {
            Ok(Taken::Left(left)) => {
                let used = bytes.len() - left;
                self.incoming.forget(used);
                None
            }
            Ok(Taken::Stop(at)) => Some(Served::Bad { at }),
            Err(Fault::Out) => Some(Served::OutFault),
            Err(Fault::Send) => Some(Served::SendFault),
            Err(Fault::NoMemory) => Some(Served::NoMemory),
        }
    }
}

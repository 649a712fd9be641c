ghost use Rattle.std.specs.Prelude.{◌≡◌, ◌↔◌, ◌+◌, ◌-◌, ◌≤◌, None, Some, IfOk, IsErrOf};
ghost use Rattle.outside.specs.Counts.{IsAtEnd, Rose};
ghost use Rattle.outside.specs.Wires.{IsUnused};
ghost use Rattle.lumber_server.specs.Run.{Receives};
ghost use Rattle.lumber_server.specs.Visits.{IsNextServed, LinkBegins};
ghost use Rattle.lumber_server.specs.Words.{IsAskedOf};

use crate::port::{Accept, Port};
use crate::served::Served;
use crate::serving::serve;
use crate::status::SinkStatus;
use crate::words::asked;
use outside::{Bell, Failed, Sink};
use std::alloc::Global;
use std::sync::Wait;
use wire_base::Text;

/// Why no link came.
#[derive(Clone, Copy)]
enum Waited {
    /// The bell rang.
    Rang,
    /// The port failed.
    Failed,
}

/// Serves as many links as the arguments `-l HOST:PORT -o FILE --links N` say, one after the other. The sink is written
/// to once with no bytes before the first link, so that one that cannot be written is known at once.
pub fn receive<X: Wait, P: Port, S: Sink, B: Bell>(
    rt: &X,
    alloc: Global,
    words: &[Text],
    port: &mut P,
    out: &mut S,
    bell: &mut B,
) -> SinkStatus
    ensures receives { Receives (record {
      finished_before = P.finished port.old;
      finished_after = P.finished port.new;
      written_before = S.written out.old;
      written_after = S.written out.new;
      questions_before = B.questions bell.old;
      questions_after = B.questions bell.new;
      idles_before = P.idles port.old;
      idles_after = P.idles port.new;
    }) words.now result }
    ensures usage_exactly { (result ≡ SinkStatus.Usage) ↔ IsAskedOf words.now None }
    ensures usage_asks_no_port { result ≡ SinkStatus.Usage → port.new ≡ port.old }
    ensures usage_writes_nothing { result ≡ SinkStatus.Usage → out.new ≡ out.old }
    ensures out_fault_only_where_sink_faults_rose { result ≡ SinkStatus.OutFault →
        Rose (S.faults out.old) (S.faults out.new) }
    ensures port_fault_only_where_port_faults_rose { result ≡ SinkStatus.PortFault →
        Rose (P.faults port.old) (P.faults port.new) }
    ensures stopped_only_where_it_rang { result ≡ SinkStatus.Stopped →
        Rose (B.rings bell.old) (B.rings bell.new) }
{
    let Some(asked) = asked(words) else {
        return SinkStatus::Usage;
    };
    if let Err(Failed) = out.write(&[]) {
        return SinkStatus::OutFault;
    }
    for _before in 0..asked.links {
        if let Some(status) = serve_next(rt, alloc, port, out, bell) {
            return status;
        }
    }
    SinkStatus::Done
}

/// Waits for the next link, serves it and finishes it. How the run ends, if it does.
fn serve_next<X: Wait, P: Port, S: Sink, B: Bell>(
    rt: &X,
    alloc: Global,
    port: &mut P,
    out: &mut S,
    bell: &mut B,
) -> Option<SinkStatus>
    ensures next { IsNextServed (record {
      finished_before = P.finished port.old;
      finished_after = P.finished port.new;
      written_before = S.written out.old;
      written_after = S.written out.new;
      questions_before = B.questions bell.old;
      questions_after = B.questions bell.new;
      idles_before = P.idles port.old;
      idles_after = P.idles port.new;
    }) result }
    ensures idles_never_fall { P.idles port.old ≤ P.idles port.new }
    ensures port_faults_never_fall { P.faults port.old ≤ P.faults port.new }
    ensures sink_faults_never_fall { S.faults out.old ≤ S.faults out.new }
    ensures rings_never_fall { B.rings bell.old ≤ B.rings bell.new }
    ensures out_fault_only_where_sink_faults_rose { result ≡ Some SinkStatus.OutFault →
        Rose (S.faults out.old) (S.faults out.new) }
    ensures port_fault_only_where_port_faults_rose { result ≡ Some SinkStatus.PortFault →
        Rose (P.faults port.old) (P.faults port.new) }
    ensures stopped_only_where_it_rang { result ≡ Some SinkStatus.Stopped →
        Rose (B.rings bell.old) (B.rings bell.new) }
{
    let mut link = match accept_next(rt, port, bell) {
        Ok(link) => link,
        Err(Waited::Rang) => return Some(SinkStatus::Stopped),
        Err(Waited::Failed) => return Some(SinkStatus::PortFault),
    };
    let served = serve(rt, alloc, &mut link, out, bell);
    port.finish(link);
    match served {
        Served::Ended => None,
        Served::SendFault => None,
        Served::Bad { .. } => None,
        Served::OutFault => Some(SinkStatus::OutFault),
        Served::Stopped => Some(SinkStatus::Stopped),
        Served::NoMemory => Some(SinkStatus::NoMemory),
    }
}

/// Waits for the next link; the bell is asked before each accept.
fn accept_next<X: Wait, P: Port, B: Bell>(
    rt: &X,
    port: &mut P,
    bell: &mut B,
) -> Result<P::Link, Waited>
    ensures begins { IfOk result (λ link. LinkBegins (P.finished port.old) (P.Link.told link)) }
    ensures unused { IfOk result (IsUnused P.Link.faults P.Link.idles P.Link.failed_sends) }
    ensures finished_kept { P.finished port.new ≡ P.finished port.old }
    ensures questions { ¬ (IsAtEnd (P.idles port.new)) →
        B.questions bell.new ≤ B.questions bell.old + ((P.idles port.new - P.idles port.old) + 1) }
    ensures idles_never_fall { P.idles port.old ≤ P.idles port.new }
    ensures faults_never_fall { P.faults port.old ≤ P.faults port.new }
    ensures rings_never_fall { B.rings bell.old ≤ B.rings bell.new }
    ensures failed_only_where_faults_rose { IsErrOf result Waited.Failed →
        Rose (P.faults port.old) (P.faults port.new) }
    ensures rang_only_where_it_rang { IsErrOf result Waited.Rang →
        Rose (B.rings bell.old) (B.rings bell.new) }
{
    for _ in rt.forever() {
        if bell.asked() {
            return Err(Waited::Rang);
        }
        match port.accept() {
            Accept::Got(link) => return Ok(link),
            Accept::NotYet => {}
            Accept::Failed => return Err(Waited::Failed),
        }
    }
    unreachable!()
}

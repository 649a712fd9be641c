ghost use Rattle.std.specs.Prelude.{◌≡◌, ◌≤◌};
ghost use Rattle.outside.specs.Counts.{Rose};
ghost use Rattle.lumber_server.specs.Serving.{Serves};

use crate::served::Served;
use crate::session::Session;
use outside::{Bell, Link, Sink};
use std::alloc::Global;
use std::sync::Wait;

/// Receives the frames of one link, writes each payload as one line, and acknowledges what was written, until the peer
/// ends, sends what is not owed, or the bell rings, which is asked before each receive.
///
/// A payload's line feeds become spaces, and a line feed ends the line (this project's profile). A frame is acknowledged
/// if its number is a multiple of 64 or the count of its window (Lumberjack v2), once its line and all lines before it
/// are in the sink.
///
/// Memory: the longest frame that is received, at most 10 bytes and `wire_base::MAX_PAYLOAD`, in a buffer that begins with
/// 64 KiB and doubles, and 70 KiB for lines and acknowledgements.
pub fn serve<X: Wait, L: Link, S: Sink, B: Bell>(
    rt: &X,
    alloc: Global,
    link: &mut L,
    out: &mut S,
    bell: &mut B,
) -> Served
    ensures serves { Serves (record {
      talk_before = L.told link.old;
      talk_after = L.told link.new;
      written_before = S.written out.old;
      written_after = S.written out.new;
      questions_before = B.questions bell.old;
      questions_after = B.questions bell.new;
      idles_before = L.idles link.old;
      idles_after = L.idles link.new;
    }) result }
    ensures ended_only_where_link_faults_rose { result ≡ Served.Ended →
        Rose (L.faults link.old) (L.faults link.new) }
    ensures send_fault_only_where_failed_sends_rose { result ≡ Served.SendFault →
        Rose (L.failed_sends link.old) (L.failed_sends link.new) }
    ensures out_fault_only_where_sink_faults_rose { result ≡ Served.OutFault →
        Rose (S.faults out.old) (S.faults out.new) }
    ensures stopped_only_where_it_rang { result ≡ Served.Stopped →
        Rose (B.rings bell.old) (B.rings bell.new) }
    ensures link_faults_never_fall { L.faults link.old ≤ L.faults link.new }
    ensures idles_never_fall { L.idles link.old ≤ L.idles link.new }
    ensures failed_sends_never_fall { L.failed_sends link.old ≤ L.failed_sends link.new }
    ensures sink_faults_never_fall { S.faults out.old ≤ S.faults out.new }
    ensures rings_never_fall { B.rings bell.old ≤ B.rings bell.new }
{
    let Ok(mut session) = Session::new(alloc) else {
        return Served::NoMemory;
    };
    for _ in rt.forever() {
        if bell.asked() {
            return Served::Stopped;
        }
        if let Some(served) = session.turn(link, out) {
            return served;
        }
    }
    unreachable!()
}

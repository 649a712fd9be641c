ghost use Rattle.std.specs.Prelude.{◌≡◌, ℕ, ◌≤◌, take, OnErr, OnOk};
ghost use Rattle.outside.specs.Counts.{Rose};
ghost use Rattle.lumber_answers.specs.Changes.{Sends, SinkTakes};

use outside::{Failed, Link, Sink};

/// Writes all of the bytes, or a front of them if the sink fails. Takes no memory.
pub(crate) fn write_all<S: Sink>(out: &mut S, bytes: &[u8]) -> Result<(), Failed>
    ensures written { OnOk result (SinkTakes (S.written out.old) bytes.now (S.written out.new)) }
    ensures front { OnErr result ((count : ℕ) ×
        SinkTakes (S.written out.old) (take count bytes.now) (S.written out.new)) }
    ensures faults_never_fall { S.faults out.old ≤ S.faults out.new }
    ensures failed_only_where_faults_rose { OnErr result (Rose (S.faults out.old) (S.faults out.new)) }
{
    let mut left = bytes;
    while !left.is_empty() {
        let count = out.write(left)?;
        left = &left[count..];
    }
    Ok(())
}

/// Sends all of the bytes, or a front of them if a send fails. Takes no memory.
pub(crate) fn send_all<L: Link>(link: &mut L, bytes: &[u8]) -> Result<(), Failed>
    ensures sent { OnOk result (Sends (L.told link.old) bytes.now (L.told link.new)) }
    ensures front { OnErr result ((count : ℕ) ×
        Sends (L.told link.old) (take count bytes.now) (L.told link.new)) }
    ensures faults_never_fall { L.faults link.old ≤ L.faults link.new }
    ensures idles_never_fall { L.idles link.old ≤ L.idles link.new }
    ensures failed_sends_never_fall { L.failed_sends link.old ≤ L.failed_sends link.new }
    ensures failed_only_where_failed_sends_rose { OnErr result
        (Rose (L.failed_sends link.old) (L.failed_sends link.new)) }
    ensures no_failed_send { OnOk result (L.failed_sends link.new ≡ L.failed_sends link.old) }
{
    let mut left = bytes;
    while !left.is_empty() {
        let count = link.send(left)?;
        left = &left[count..];
    }
    Ok(())
}

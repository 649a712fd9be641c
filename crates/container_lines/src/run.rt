ghost use Rattle.std.specs.Prelude.{◌≡◌, ◌≤◌, ◌↔◌, ℕ, [], List, Option, Some, None, IfOk, IfErr, IfSome, IsErrOf, OnOk, OnErr};
ghost use Rattle.container_lines.specs.Asked.{asked_of};
ghost use Rattle.container_lines.specs.Bad.{bad_found};
ghost use Rattle.container_lines.specs.Conversion.{Aim, ConvertsAll, text_of};
ghost use Rattle.container_lines.specs.Ending.{IsAtEnd, IsByLines, IsCaused, IsCausedStatus, Writes};
ghost use Rattle.container_lines.specs.Joined.{log_lines, plain};
ghost use Rattle.container_lines.specs.Output.{HasAll, HasFront};

use crate::conversion::Conversion;
use crate::fault::Fault;
use crate::status::{BadLines, ContainerStatus};
use crate::words::{Asked, read_words};
use line_cutter::lines_stay;
use outside::{Sink, Source};
use std::alloc::Global;
use std::sync::Wait;
use wire_base::Text;

/// So many bytes are read at once at most.
const PIECE: usize = 65_536;

/// Reads a container log to its end, and writes the container's own lines, each ended by LF; partial lines are joined,
/// stream by stream.
///
/// It holds of each stream at most one joined line that is not whole, and besides at most a line of the log, a message
/// and 192 KiB.
pub fn container_run<X: Wait, R: Source, S: Sink>(
    rt: &X,
    alloc: Global,
    words: &[Text],
    source: &mut R,
    out: &mut S,
) -> ContainerStatus
    ensures usage_exactly_for_other_words { (result ≡ ContainerStatus.Usage) ↔ (asked_of words.now ≡ None) }
    ensures writes_the_plain_lines { IfSome (asked_of words.now) (λ asked. IfSome (R.left source.old)
        (λ bytes. Writes result (S.written out.old) (plain asked.format asked.keep bytes)
        (S.written out.new))) }
    ensures by_the_lines { IfSome (asked_of words.now) (λ asked. IfSome (R.left source.old)
        (λ bytes. IsByLines (bad_found asked.format (log_lines bytes)) result)) }
    ensures read_to_the_end { IfSome (R.left source.old) (λ _. IsAtEnd result → R.left source.new ≡ Some []) }
    ensures reads_nothing_at_usage { result ≡ ContainerStatus.Usage → R.left source.new ≡ R.left source.old }
    ensures writes_nothing_at_usage { result ≡ ContainerStatus.Usage → S.written out.new ≡ S.written out.old }
    ensures source_faults_never_fall { R.faults source.old ≤ R.faults source.new }
    ensures sink_faults_never_fall { S.faults out.old ≤ S.faults out.new }
    ensures fault_only_where_its_count_rose { IsCausedStatus (record {
      source_before = R.faults source.old;
      source_now = R.faults source.new;
      sink_before = S.faults out.old;
      sink_now = S.faults out.new;
    }) result }
{
    let Some(asked) = read_words(words) else {
        return ContainerStatus::Usage;
    };
    match convert(rt, alloc, asked, source, out) {
        Ok(None) => ContainerStatus::Done,
        Ok(Some(bad)) => ContainerStatus::BadLines {
            first: bad.first,
            count: bad.count,
        },
        Err(fault) => fault.status(),
    }
}

/// The lines of no format of a log that was read to its end.
fn convert<X: Wait, R: Source, S: Sink>(
    rt: &X,
    alloc: Global,
    asked: Asked,
    source: &mut R,
    out: &mut S,
) -> Result<Option<BadLines>, Fault>
    ensures read { IfOk result (λ bad. IfSome (R.left source.old)
        (λ bytes. bad ≡ bad_found asked.format (log_lines bytes))) }
    ensures written { OnOk result (IfSome (R.left source.old) (λ bytes.
        HasAll (S.written out.old) (plain asked.format asked.keep bytes) (S.written out.new))) }
    ensures none_left { OnOk result (IfSome (R.left source.old) (λ _. R.left source.new ≡ Some [])) }
    ensures front { OnErr result (IfSome (R.left source.old) (λ bytes.
        HasFront (S.written out.old) (plain asked.format asked.keep bytes) (S.written out.new))) }
    ensures source_faults_never_fall { R.faults source.old ≤ R.faults source.new }
    ensures sink_faults_never_fall { S.faults out.old ≤ S.faults out.new }
    ensures cause { IfErr result (IsCaused (record {
      source_before = R.faults source.old;
      source_now = R.faults source.new;
      sink_before = S.faults out.old;
      sink_now = S.faults out.new;
    })) }
{
    let mut log = Conversion::new(alloc, asked)?;
    read_to_end(rt, &mut log, source, out)?;
    log.flush(out)?;
    Ok(log.bad)
}

/// Takes all bytes that the source gives.
fn read_to_end<X: Wait, R: Source, S: Sink>(
    rt: &X,
    log: &mut Conversion,
    source: &mut R,
    out: &mut S,
) -> Result<(), Fault>
    ensures converted { OnOk result ((aim : Aim) → ConvertsAll aim [] (S.written out.old) log.old →
        IfSome (R.left source.old) (λ bytes. ConvertsAll aim bytes (S.written out.new) log.new)) }
    ensures none_left { OnOk result (IfSome (R.left source.old) (λ _. R.left source.new ≡ Some [])) }
    ensures front { OnErr result ((aim : Aim) → ConvertsAll aim [] (S.written out.old) log.old →
        IfSome (R.left source.old)
        (λ bytes. HasFront aim.before (text_of aim (log_lines bytes)) (S.written out.new))) }
    ensures source_faults_never_fall { R.faults source.old ≤ R.faults source.new }
    ensures sink_faults_never_fall { S.faults out.old ≤ S.faults out.new }
    ensures cause { IfErr result (IsCaused (record {
      source_before = R.faults source.old;
      source_now = R.faults source.new;
      sink_before = S.faults out.old;
      sink_now = S.faults out.new;
    })) }
{
    // What was read so far stays the front of what the log has.
    lines_stay();
    let mut piece = [0u8; PIECE];
    for _ in rt.forever() {
        match source.read(&mut piece) {
            Ok(0) => return Ok(()),
            Ok(count) => log.piece(&piece[..count], out)?,
            Err(_) => return Err(Fault::Source),
        }
    }
    unreachable!()
}

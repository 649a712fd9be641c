ghost use Rattle.std.specs.Prelude.{◌≡◌, ◌≢◌, ◌≤◌, ◌↔◌, ◌-◌, ℕ, List, Some};
ghost use Rattle.outside.specs.Counts.{Rose};
ghost use Rattle.outside.specs.DiskImages.{LeavesOnly, Only};
ghost use Rattle.spool_queue.specs.Cited.{AreAcknowledged, HoldsList, IsBad, IsClosed, IsCommand, IsLeftOf, IsLost, IsOnlyRead, IsPut, IsPutBehind, IsPutStatus, IsReadAs, IsRefusedAt, IsSaid, IsSend, IsSendStatus, IsUntroubled, IsUntroubledEnd, LeavesTheDisk, PeerFails, PeerIsSilent, Puts, RunsOn, Sends, link_counts, others_of, put_call, reserved, run_call, send_call, sent_text, signs_of, spooled_text, status_after};

use crate::printing::{print_sent, print_spooled};
use crate::putting::put_lines;
use crate::sending::send;
use crate::stop::{Stop, status_of};
use crate::words::{Asked, asked_of};
use crate::{Spool, SpoolStatus};
use outside::{Clock, Disk, Sink, Source, Wire};
use std::alloc::Global;
use std::sync::Wait;
use wire_base::Text;

/// Puts the lines of the source into the spool on the disk, or sends what is outstanding there to a host, as the arguments
/// ask, and prints what was done.
pub fn spool_run<X: Wait, R: Source, W: Wire, D: Disk, K: Clock, S: Sink>(
    rt: &X,
    alloc: Global,
    words: &[Text],
    source: &mut R,
    wire: &mut W,
    disk: &mut D,
    clock: &mut K,
    out: &mut S,
) -> SpoolStatus
    ensures usage_exactly_for_other_words { (result ≡ SpoolStatus.Usage) ↔
        ¬ (IsCommand words.now) }
    ensures usage_touches_no_disk { result ≡ SpoolStatus.Usage → disk.new ≡ disk.old }
    ensures usage_calls_no_other_object { result ≡ SpoolStatus.Usage →
        others_of source.new wire.new clock.new out.new
        ≡ others_of source.old wire.old clock.old out.old }

    // A run that puts, over a known disk that is read.
    ensures puts { IsPut words.now → (bytes : List ℕ) (list : List (List ℕ)) →
        D.contents disk.old ≡ Some bytes → IsReadAs bytes list →
        RunsOn (others_of source.old wire.old clock.old out.old)
        (others_of source.new wire.new clock.new out.new) result bytes list (λ room. Puts
        (put_call (R.left source.old) (D.contents disk.new) (S.written out.old) (S.written out.new))
        list room result) }

    // If nothing was pending, a crash at any moment of it leaves the payloads and the first lines after them.
    ensures put_at_each_moment { IsPut words.now → Only (D.contents disk.old) (D.images disk.old) →
        (bytes : List ℕ) (list : List (List ℕ)) → D.contents disk.old ≡ Some bytes →
        IsReadAs bytes list →
        LeavesOnly D.moment D.images_since disk.old disk.new
        (IsPutBehind (R.left source.old) list) }

    ensures put_is_never_unreachable { IsPut words.now → result ≢ SpoolStatus.Unreachable }

    // A run that sends, over a known disk that is read: what its one talk acknowledges is settled, and nothing else.
    ensures sends { IsSend words.now → (bytes : List ℕ) (list : List (List ℕ)) →
        D.contents disk.old ≡ Some bytes → IsReadAs bytes list →
        RunsOn (others_of source.old wire.old clock.old out.old)
        (others_of source.new wire.new clock.new out.new) result bytes list (λ room.
        (acknowledged : List (List ℕ)) ×
        AreAcknowledged (W.outcomes wire.old) (W.outcomes wire.new) acknowledged ×
        Sends (send_call (D.contents disk.new) (S.written out.old) (S.written out.new))
        list acknowledged result) }

    // If nothing was pending, a crash at any moment of it leaves the payloads without a front that is acknowledged.
    ensures sent_at_each_moment { IsSend words.now →
        Only (D.contents disk.old) (D.images disk.old) →
        (bytes : List ℕ) (list : List (List ℕ)) → D.contents disk.old ≡ Some bytes →
        IsReadAs bytes list → (acknowledged : List (List ℕ)) ×
        AreAcknowledged (W.outcomes wire.old) (W.outcomes wire.new) acknowledged ×
        LeavesOnly D.moment D.images_since disk.old disk.new (IsLeftOf list acknowledged) }

    ensures send_ends { IsSend words.now → IsSendStatus result }

    ensures says_bad_only_where_it_is { (bytes : List ℕ) (at : ℕ) →
        D.contents disk.old ≡ Some bytes → result ≡ SpoolStatus.SpoolBad at →
        IsBad bytes at × IsOnlyRead D.contents D.images D.moment D.images_since D.faults
        disk.old disk.new × (others_of source.new wire.new clock.new out.new
        ≡ others_of source.old wire.old clock.old out.old) }
    ensures bad_spools_are_refused { IsCommand words.now → (bytes : List ℕ) (at : ℕ) →
        D.contents disk.old ≡ Some bytes → IsBad bytes at → IsRefusedAt at result }
    ensures source_fault_only_where_faults_rose { result ≡ SpoolStatus.SourceFault →
        Rose (R.faults source.old) (R.faults source.new) }
    ensures disk_fault_only_where_faults_rose { result ≡ SpoolStatus.DiskFault →
        Rose (D.faults disk.old) (D.faults disk.new) }
    ensures out_fault_only_where_faults_rose { result ≡ SpoolStatus.OutFault →
        Rose (S.faults out.old) (S.faults out.new) }
    // The peer was not reached, its link failed, its talk has a fault of the peer, or the peer was
    // silent for 30 seconds.
    ensures unreachable_only_where_it_is_lost { result ≡ SpoolStatus.Unreachable →
        IsLost (link_counts (W.faults wire.old) (W.faults wire.new) (W.idles wire.old)
        (W.idles wire.new)) (PeerFails (W.outcomes wire.old) (W.outcomes wire.new))
        (PeerIsSilent (W.outcomes wire.old) (W.outcomes wire.new)
        (K.moments clock.old) (K.moments clock.new)) }

    // When it has to be done.
    ensures what_an_untroubled_run_ends_with { let before =
        others_of source.old wire.old clock.old out.old in
        let after = others_of source.new wire.new clock.new out.new in
        IsUntroubled (run_call words.now (R.left source.old) (D.contents disk.old))
        (signs_of R.Source W.Wire D.Disk K.Clock S.Sink before disk.old)
        (signs_of R.Source W.Wire D.Disk K.Clock S.Sink after disk.new) →
        IsUntroubledEnd result }
{
    let Some(asked) = asked_of(alloc, words) else {
        return SpoolStatus::Usage;
    };
    let mut spool = match Spool::open(disk) {
        Ok(spool) => spool,
        Err(error) => return Stop::Spool(error).status(0),
    };
    match asked {
        Asked::Put => run_put(rt, alloc, source, &mut spool, disk, out),
        Asked::Send(target) => {
            let before = spool.outstanding();
            let answer = send(rt, target, &mut spool, wire, disk, clock);
            say_sent(out, before, spool.outstanding(), answer)
        }
    }
}

/// Puts the lines of the source, and prints how many.
fn run_put<X: Wait, R: Source, D: Disk, S: Sink>(
    rt: &X,
    alloc: Global,
    source: &mut R,
    spool: &mut Spool,
    disk: &mut D,
    out: &mut S,
) -> SpoolStatus
    requires open { ¬ (IsClosed spool.old) }
    ensures puts { (list : List (List ℕ)) → HoldsList spool.old list (D.contents disk.old) →
        Puts
        (put_call (R.left source.old) (D.contents disk.new) (S.written out.old) (S.written out.new))
        list (reserved spool.old) result }
    ensures each_moment { Only (D.contents disk.old) (D.images disk.old) →
        (list : List (List ℕ)) → HoldsList spool.old list (D.contents disk.old) →
        LeavesOnly D.moment D.images_since disk.old disk.new
        (IsPutBehind (R.left source.old) list) }
    ensures durable { LeavesTheDisk result → Only (D.contents disk.old) (D.images disk.old) →
        Only (D.contents disk.new) (D.images disk.new) }
    ensures status { IsPutStatus result }
    ensures source_fault_only_where_faults_rose { result ≡ SpoolStatus.SourceFault →
        Rose (R.faults source.old) (R.faults source.new) }
    ensures disk_fault_only_where_faults_rose { result ≡ SpoolStatus.DiskFault →
        Rose (D.faults disk.old) (D.faults disk.new) }
    ensures out_fault_only_where_faults_rose { result ≡ SpoolStatus.OutFault →
        Rose (S.faults out.old) (S.faults out.new) }
{
    let before = spool.outstanding();
    let answer = put_lines(rt, alloc, source, spool, disk);
    say_spooled(out, spool.outstanding() - before, answer)
}

/// The status of a run that put so many lines, which it prints.
fn say_spooled<S: Sink>(out: &mut S, lines: u64, answer: Result<(), Stop>) -> SpoolStatus
    ensures said { IsSaid (S.written out.old) (spooled_text lines) (S.written out.new)
        (status_after answer lines) result }
    ensures out_fault_only_where_faults_rose { result ≡ SpoolStatus.OutFault →
        Rose (S.faults out.old) (S.faults out.new) }
{
    match print_spooled(out, lines) {
        Ok(()) => status_of(answer, lines),
        Err(_) => SpoolStatus::OutFault,
    }
}

/// The status of a run before and after which this many payloads were outstanding. It prints how many it settled, and
/// how many are left.
fn say_sent<S: Sink>(out: &mut S, before: u64, left: u64, answer: Result<(), Stop>) -> SpoolStatus
    requires fewer { left ≤ before }
    ensures said { IsSaid (S.written out.old) (sent_text (before - left) left) (S.written out.new)
        (status_after answer 0) result }
    ensures out_fault_only_where_faults_rose { result ≡ SpoolStatus.OutFault →
        Rose (S.faults out.old) (S.faults out.new) }
{
    match print_sent(out, before - left, left) {
        Ok(()) => status_of(answer, 0),
        Err(_) => SpoolStatus::OutFault,
    }
}

ghost use Rattle.std.specs.Prelude.{◌≡◌, ◌≢◌, ◌⊎◌, ◌<◌, ◌≤◌, ◌+◌, [], ℕ, List, Option, Some, Err, IfErr, OnErr, OnOk, drop, length, false};
ghost use Rattle.std.specs.Bool.{OnTrue};
ghost use Rattle.lumber_client.specs.Exchange.{Exchange, with_begun};
ghost use Rattle.lumber_client.specs.Newly.{KeepsParcels};
ghost use Rattle.lumber_client.specs.Standing.{StandsFor};
ghost use Rattle.outside.specs.Counts.{Rose};
ghost use Rattle.outside.specs.Talks.{Talk};
ghost use Rattle.settled_parcels.specs.Handing.{settled_in, with_all_handed};
ghost use Rattle.spool_queue.specs.Cited.{ClockGoesOn, GoesOut, HasPieces, HasTalkFault, Hears, IsAwaited, IsClosed, IsFilledWith, IsIdle, IsLost, IsOnlyRead, IsReadStop, IsSendingStop, IsSettlingStop, IsSilentOver, IsSpoolOf, IsWalkOf, HoldsList, KeepsPlaces, Log, PeerFails, PeerIsSilent, SendsAll, SendsOver, Settles, SettlesSome, SettlesWindow, Talks, count_of, link_counts};
ghost use Rattle.wire_base.specs.Ranges.{IsParcel};

use crate::stop::Stop;
use crate::walk::Walk;
use crate::words::Target;
use crate::{Spool, SpoolError, TIMEOUT_MS};
use lumber_client::{Heard, Window};
use outside::{Clock, Disk, Link, Recv, Wire};
use settled_parcels::hand_out_settled;
use std::alloc::Global;
use std::sync::Wait;
use wire_base::{Blob, Epoch, Moment, Parcel, Slot, Span};

/// The most payloads of a window.
const WINDOW_PAYLOADS: u32 = 2048;

/// How long the clock pauses if nothing has come.
const PAUSE_MS: u64 = 10;

/// So many bytes are received at once at most.
const RECEIVED_BYTES: usize = 4096;

/// Sends what is outstanding over one link, settles what is acknowledged, and tidies a spool of which nothing is left.
pub(crate) fn send<X: Wait, W: Wire, D: Disk, K: Clock>(
    rt: &X,
    target: Target<'_>,
    spool: &mut Spool,
    wire: &mut W,
    disk: &mut D,
    clock: &mut K,
) -> Result<(), Stop>
    requires open { ¬ (IsClosed spool.old) }
    ensures sends { SendsAll D.Disk disk.old disk.new spool.old spool.new (W.outcomes wire.old)
        (W.outcomes wire.new) result }
    ensures done { OnOk result (count_of spool.new ≡ 0) }
    ensures stops { IfErr result (IsSendingStop (D.faults disk.old) (D.faults disk.new)) }
    ensures never_bad { (list : List (List ℕ)) → HoldsList spool.old list (D.contents disk.old) →
        (at : ℕ) → result ≢ Err (Stop.Spool (SpoolError.Bad at)) }
    ensures unreachable { result ≡ Err Stop.Unreachable →
        IsLost (link_counts (W.faults wire.old) (W.faults wire.new) (W.idles wire.old)
        (W.idles wire.new)) (PeerFails (W.outcomes wire.old) (W.outcomes wire.new))
        (PeerIsSilent (W.outcomes wire.old) (W.outcomes wire.new)
        (K.moments clock.old) (K.moments clock.new)) }
{
    if spool.outstanding() == 0 {
        spool.tidy(disk)?;
        return Ok(());
    }
    send_linked(rt, target, spool, wire, disk, clock)?;
    spool.tidy(disk)?;
    Ok(())
}

/// Makes a link, sends over it, and finishes it.
fn send_linked<X: Wait, W: Wire, D: Disk, K: Clock>(
    rt: &X,
    target: Target<'_>,
    spool: &mut Spool,
    wire: &mut W,
    disk: &mut D,
    clock: &mut K,
) -> Result<(), Stop>
    requires open { ¬ (IsClosed spool.old) }
    ensures sends { SendsAll D.Disk disk.old disk.new spool.old spool.new (W.outcomes wire.old)
        (W.outcomes wire.new) result }
    ensures done { OnOk result (count_of spool.new ≡ 0) }
    ensures still_open { OnOk result (¬ (IsClosed spool.new)) }
    ensures stops { IfErr result (IsSendingStop (D.faults disk.old) (D.faults disk.new)) }
    ensures never_bad { (list : List (List ℕ)) → HoldsList spool.old list (D.contents disk.old) →
        (at : ℕ) → result ≢ Err (Stop.Spool (SpoolError.Bad at)) }
    ensures unreachable { result ≡ Err Stop.Unreachable →
        IsLost (link_counts (W.faults wire.old) (W.faults wire.new) (W.idles wire.old)
        (W.idles wire.new)) (PeerFails (W.outcomes wire.old) (W.outcomes wire.new))
        (PeerIsSilent (W.outcomes wire.old) (W.outcomes wire.new)
        (K.moments clock.old) (K.moments clock.new)) }
{
    let host = target.host()?;
    let Ok(mut link) = wire.connect(&host) else {
        return Err(Stop::Unreachable);
    };
    let answer = send_over(rt, target.alloc, spool, disk, &mut link, clock);
    wire.finish(link);
    answer
}

/// Sends window after window over a link until nothing is outstanding.
fn send_over<X: Wait, L: Link, D: Disk, K: Clock>(
    rt: &X,
    alloc: Global,
    spool: &mut Spool,
    disk: &mut D,
    link: &mut L,
    clock: &mut K,
) -> Result<(), Stop>
    requires open { ¬ (IsClosed spool.old) }
    requires fresh { HasPieces (L.told link.old) (L.told link.old) [] }
    ensures sends { SendsOver D.Disk disk.old disk.new spool.old spool.new (L.told link.old)
        (L.told link.new) result }
    ensures done { OnOk result (count_of spool.new ≡ 0) }
    ensures still_open { OnOk result (¬ (IsClosed spool.new)) }
    ensures stops { IfErr result (IsSendingStop (D.faults disk.old) (D.faults disk.new)) }
    ensures never_bad { (list : List (List ℕ)) → HoldsList spool.old list (D.contents disk.old) →
        (at : ℕ) → result ≢ Err (Stop.Spool (SpoolError.Bad at)) }
    ensures unreachable { result ≡ Err Stop.Unreachable →
        IsLost (link_counts (L.faults link.old) (L.faults link.new) (L.idles link.old)
        (L.idles link.new)) (HasTalkFault (L.told link.old) (L.told link.new))
        (IsSilentOver (L.told link.old) (L.told link.new)
        (K.moments clock.old) (K.moments clock.new)) }
{
    let mut window = Window::new(alloc, WINDOW_PAYLOADS, 1)?;
    let mut walk = Walk::start();
    for _ in rt.forever() {
        if spool.outstanding() == 0 {
            return Ok(());
        }
        fill(alloc, spool, disk, &mut walk, &mut window)?;
        send_out(link, &mut window)?;
        settle_window(rt, spool, disk, link, clock, &mut window)?;
    }
    unreachable!()
}

/// Begins a window of the first payloads that are outstanding.
fn fill<D: Disk>(
    alloc: Global,
    spool: &Spool,
    disk: &mut D,
    walk: &mut Walk,
    window: &mut Window,
) -> Result<(), Stop>
    requires idle { IsIdle window.old }
    requires some { 0 < count_of spool.now }
    ensures begun { OnOk result (IsAwaited window.new (count_of spool.now)) }
    ensures talks { OnOk result ((began told : Option Talk) (e : Exchange) →
        Talks window.old began told e →
        Talks window.new began told (with_begun e window.new.parcels)) }
    ensures first { OnOk result ((bytes : List ℕ) (list : List (List ℕ)) (log : Log) →
        D.contents disk.old ≡ Some bytes → IsSpoolOf spool.now bytes list →
        IsWalkOf bytes walk.old log → IsFilledWith bytes list window.new walk.new) }
    ensures never_bad { (bytes : List ℕ) (list : List (List ℕ)) (log : Log) →
        D.contents disk.old ≡ Some bytes → IsSpoolOf spool.now bytes list →
        IsWalkOf bytes walk.old log → (at : ℕ) → result ≢ Err (Stop.Spool (SpoolError.Bad at)) }
    ensures only_read { IsOnlyRead D.contents D.images D.moment D.images_since D.faults
        disk.old disk.new }
    ensures errors { IfErr result (IsReadStop (D.faults disk.old) (D.faults disk.new)) }
{
    let count = spool.outstanding().min(WINDOW_PAYLOADS as u64);
    'payloads: for i in 0..count {
        let payload = spool.read_on(alloc, disk, walk, i)?;
        window.offer(parcel(payload));
    }
    window.begin();
    Ok(())
}

/// A parcel with this payload; a spool knows nothing else of it.
fn parcel(payload: Blob) -> Parcel
    requires { length payload ≤ 16_777_216 }
    ensures payload { result.payload ≡ payload }
    ensures range { IsParcel result }
{
    let Some(span) = Span::new(0, 1) else {
        unreachable!()
    };
    Parcel {
        slot: Slot(0),
        epoch: Epoch(0),
        span,
        payload,
    }
}

/// Sends all of the window that was begun.
fn send_out<L: Link>(link: &mut L, window: &mut Window) -> Result<(), Stop>
    ensures all_is_out { OnOk result (window.new.out ≡ []) }
    ensures goes_out { (began : Option Talk) (e : Exchange) →
        Talks window.old began (L.told link.old) e → GoesOut window.new began (L.told link.new) e }
    ensures unreachable { IfErr result (λ stop. (stop ≡ Stop.Unreachable) ×
        Rose (L.faults link.old) (L.faults link.new)) }
    ensures parcels { window.new.parcels ≡ window.old.parcels }
    ensures acknowledged { window.new.acknowledged ≡ window.old.acknowledged }
    ensures in_flight { window.new.in_flight ≡ window.old.in_flight }
    ensures most { window.new.most ≡ window.old.most }
    ensures depth { window.new.depth ≡ window.old.depth }
    ensures hearing { window.new.hearing ≡ window.old.hearing }
    ensures link_faults_never_fall { L.faults link.old ≤ L.faults link.new }
    ensures link_idles_never_fall { L.idles link.old ≤ L.idles link.new }
{
    'pieces: while !window.out().is_empty() {
        match link.send(window.out()) {
            Ok(count) => window.sent(count),
            Err(_) => return Err(Stop::Unreachable),
        }
    }
    Ok(())
}

/// Receives, and settles what is acknowledged, until all of the window is.
fn settle_window<X: Wait, L: Link, D: Disk, K: Clock>(
    rt: &X,
    spool: &mut Spool,
    disk: &mut D,
    link: &mut L,
    clock: &mut K,
    window: &mut Window,
) -> Result<(), Stop>
    requires open { ¬ (IsClosed spool.old) }
    requires awaited { IsAwaited window.old (count_of spool.old) }
    requires all_is_out { window.old.out ≡ [] }
    ensures settles { SettlesWindow D.Disk disk.old disk.new spool.old spool.new window.old
        window.new (L.told link.old) (L.told link.new) result }
    ensures idle { OnOk result (IsIdle window.new) }
    ensures stops { IfErr result (IsSettlingStop (D.faults disk.old) (D.faults disk.new)) }
    ensures unreachable { result ≡ Err Stop.Unreachable → (began : Option Talk) (e : Exchange) →
        Talks window.old began (L.told link.old) e →
        IsLost (link_counts (L.faults link.old) (L.faults link.new) (L.idles link.old)
        (L.idles link.new)) (HasTalkFault began (L.told link.new))
        (IsSilentOver began (L.told link.new) (K.moments clock.old) (K.moments clock.new)) }
    ensures clock_goes_on { ClockGoesOn (K.moments clock.old) (K.moments clock.new) }
    ensures link_faults_never_fall { L.faults link.old ≤ L.faults link.new }
    ensures link_idles_never_fall { L.idles link.old ≤ L.idles link.new }
{
    let mut heard = clock.now();
    let mut piece = [0u8; RECEIVED_BYTES];
    for _ in rt.forever() {
        if window.windows_in_flight() == 0 {
            return Ok(());
        }
        match link.recv(&mut piece) {
            Recv::Got(count) => {
                settle_heard(spool, disk, window, &piece[..count])?;
                heard = clock.now();
            }
            Recv::NotYet => {
                if is_over(heard, clock.now()) {
                    return Err(Stop::Unreachable);
                }
                clock.pause(PAUSE_MS);
            }
            Recv::Closed => return Err(Stop::Unreachable),
            Recv::Failed => return Err(Stop::Unreachable),
        }
    }
    unreachable!()
}

/// Settles what the bytes that the peer gave acknowledge, up to its first fault.
fn settle_heard<D: Disk>(
    spool: &mut Spool,
    disk: &mut D,
    window: &mut Window,
    bytes: &[u8],
) -> Result<(), Stop>
    requires open { ¬ (IsClosed spool.old) }
    requires awaited { IsAwaited window.old (count_of spool.old) }
    requires all_is_out { window.old.out ≡ [] }
    requires some { 0 < length bytes.now }
    ensures settles { SettlesSome D.Disk disk.old disk.new spool.old spool.new window.old
        window.new bytes.now result }
    ensures awaited { OnOk result (IsAwaited window.new (count_of spool.new)) }
    ensures all_is_out { window.new.out ≡ [] }
    ensures stops { IfErr result (IsSettlingStop (D.faults disk.old) (D.faults disk.new)) }
{
    let fine = hear(window, bytes);
    settle(spool, disk, window)?;
    if fine { Ok(()) } else { Err(Stop::Unreachable) }
}

/// Takes the bytes that the peer gave, up to its first fault; whether there is none.
fn hear(window: &mut Window, bytes: &[u8]) -> bool
    requires all_is_out { window.old.out ≡ [] }
    requires no_fault { window.old.hearing.failed ≡ false }
    ensures kept { KeepsParcels window.old window.new }
    ensures no_fewer { window.old.acknowledged ≤ window.new.acknowledged }
    ensures no_fault { OnTrue result (window.new.hearing.failed ≡ false) }
    ensures hears { (e : Exchange) → StandsFor window.old e → Hears window.new e bytes.now result }
{
    for byte in bytes {
        if let Heard::PeerFault { .. } = window.got(*byte) {
            return false;
        }
    }
    true
}

/// Settles exactly the payloads that are acknowledged.
fn settle<D: Disk>(spool: &mut Spool, disk: &mut D, window: &mut Window) -> Result<(), Stop>
    requires open { ¬ (IsClosed spool.old) }
    requires held { length window.old.parcels ≤ count_of spool.old }
    requires acknowledged { window.old.acknowledged ≤ length window.old.parcels }
    ensures settles { OnOk result (Settles D.Disk disk.old disk.new spool.old spool.new
        window.old.acknowledged window.old.acknowledged) }
    ensures places { OnOk result (KeepsPlaces spool.old (D.contents disk.old) (D.contents
        disk.new)) }
    ensures fails { IfErr result (λ stop. (stop ≡ Stop.Spool SpoolError.DiskFault) ×
        Rose (D.faults disk.old) (D.faults disk.new) ×
        Settles D.Disk disk.old disk.new spool.old spool.new 0 window.old.acknowledged ×
        (0 < window.old.acknowledged)) }
    ensures handed { (e : Exchange) → StandsFor window.old e →
        StandsFor window.new (with_all_handed e (settled_in window.old)) }
    ensures parcels { window.new.parcels ≡ drop window.old.acknowledged window.old.parcels }
    ensures handed_out { window.new.acknowledged ≡ 0 }
    ensures in_flight { window.new.in_flight ≡ window.old.in_flight }
    ensures out { window.new.out ≡ window.old.out }
    ensures hearing { window.new.hearing ≡ window.old.hearing }
    ensures most { window.new.most ≡ window.old.most }
    ensures depth { window.new.depth ≡ window.old.depth }
{
    let count = hand_out_settled(window);
    if count > 0 {
        spool.settle(disk, count)?;
    }
    Ok(())
}

/// The peer was silent for too long.
fn is_over(heard: Moment, now: Moment) -> bool
    ensures over { OnTrue result (heard.0 + TIMEOUT_MS ≤ now.0) }
{
    heard.0 <= now.0 && TIMEOUT_MS <= now.0 - heard.0
}

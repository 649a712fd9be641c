ghost use Rattle.std.specs.Prelude.{◌≡◌, ◌≤◌, ◌++◌, ℕ, List, [], IfOk, IsErrOf, OnErr, OnOk};
ghost use Rattle.outside.specs.Counts.{Rose};
ghost use Rattle.lumber_frame.specs.Frame.{frame_of};
ghost use Rattle.lumber_answers.specs.HandingOn.{telling};
ghost use Rattle.lumber_answers.specs.Laying.{WritesFront};
ghost use Rattle.lumber_server.specs.Received.{IsOwed};
ghost use Rattle.lumber_server.specs.Standing.{Fails, GoesOn, state_at_first, state_of};
ghost use Rattle.lumber_server.specs.Taking.{IsTakenIn, IsTakenNext, TakesFrame, TakesFrames};
ghost use Rattle.lumber_server.specs.Written.{lines_of_frame};

use crate::reading::{Next, Reading};
use lumber_answers::{Fault, Outgoing, WriteFault};
use lumber_frame::FrameView;
use outside::{Link, Sink};
use std::alloc::Global;
use wire_base::NoMemory;

/// What came of bytes that were received.
#[derive(Clone, Copy)]
pub(crate) enum Taken {
    /// All whole first frames were taken, and this many bytes are left.
    Left(usize),
    /// Reading stopped at this place of all that was received.
    Stop(u64),
}

/// Frames on their way from a link to a sink, and their acknowledgements on the way back.
#[derive(Drop)]
pub(crate) struct Transfer {
    reading: Reading,
    outgoing: Outgoing,
    /// How many bytes were read; the count saturates.
    passed: u64,
}

impl Transfer {
    pub(crate) fn new(alloc: Global) -> Result<Transfer, NoMemory>
        ensures { IfOk result (λ transfer. state_of transfer [] ≡ state_at_first) }
    {
        Ok(Transfer {
            reading: Reading::new(),
            outgoing: Outgoing::new(alloc)?,
            passed: 0,
        })
    }

    /// Takes the whole frames that the bytes begin with, and hands on all that was laid.
    pub(crate) fn take_in<L: Link, S: Sink>(
        &mut self,
        bytes: &[u8],
        link: &mut L,
        out: &mut S,
    ) -> Result<Taken, Fault>
        ensures taken { IfOk result (λ found. IsTakenIn
            (telling (L.told link.old) (S.written out.old))
            (telling (L.told link.new) (S.written out.new)) self.old self.new bytes.now found) }
        ensures fails { OnErr result (Fails (telling (L.told link.old) (S.written out.old))
            (telling (L.told link.new) (S.written out.new)) (state_of self.old bytes.now)) }
        ensures link_faults_never_fall { L.faults link.old ≤ L.faults link.new }
        ensures idles_never_fall { L.idles link.old ≤ L.idles link.new }
        ensures failed_sends_never_fall { L.failed_sends link.old ≤ L.failed_sends link.new }
        ensures no_failed_send { OnOk result (L.failed_sends link.new ≡ L.failed_sends link.old) }
        ensures faults_never_fall { S.faults out.old ≤ S.faults out.new }
        ensures out_only_where_faults_rose { IsErrOf result Fault.Out →
            Rose (S.faults out.old) (S.faults out.new) }
        ensures send_only_where_failed_sends_rose { IsErrOf result Fault.Send →
            Rose (L.failed_sends link.old) (L.failed_sends link.new) }
    {
        let left = self.take_frames(bytes, link, out)?;
        self.outgoing.hand_on(link, out)?;
        let rest = &bytes[bytes.len() - left..];
        Ok(match self.reading.next_in(rest) {
            Next::Stop { at } => Taken::Stop(self.passed.saturating_add(at as u64)),
            Next::Short => Taken::Left(left),
            Next::Owed { .. } => unreachable!(),
        })
    }

    /// Takes the whole frames that the bytes begin with, and says how many bytes are left.
    fn take_frames<L: Link, S: Sink>(
        &mut self,
        bytes: &[u8],
        link: &mut L,
        out: &mut S,
    ) -> Result<usize, Fault>
        ensures taken { IfOk result (λ found. TakesFrames
            (telling (L.told link.old) (S.written out.old))
            (telling (L.told link.new) (S.written out.new)) self.old self.new bytes.now found) }
        ensures fails { OnErr result (Fails (telling (L.told link.old) (S.written out.old))
            (telling (L.told link.new) (S.written out.new)) (state_of self.old bytes.now)) }
        ensures link_faults_never_fall { L.faults link.old ≤ L.faults link.new }
        ensures idles_never_fall { L.idles link.old ≤ L.idles link.new }
        ensures failed_sends_never_fall { L.failed_sends link.old ≤ L.failed_sends link.new }
        ensures no_failed_send { OnOk result (L.failed_sends link.new ≡ L.failed_sends link.old) }
        ensures faults_never_fall { S.faults out.old ≤ S.faults out.new }
        ensures out_only_where_faults_rose { IsErrOf result Fault.Out →
            Rose (S.faults out.old) (S.faults out.new) }
        ensures send_only_where_failed_sends_rose { IsErrOf result Fault.Send →
            Rose (L.failed_sends link.old) (L.failed_sends link.new) }
    {
        let mut left = bytes;
        while let Some(used) = self.take_next(left, link, out)? {
            left = &left[used..];
        }
        Ok(left.len())
    }

    /// Takes the frame that the bytes begin with, if it is the one owed, and says how long it is.
    fn take_next<L: Link, S: Sink>(
        &mut self,
        bytes: &[u8],
        link: &mut L,
        out: &mut S,
    ) -> Result<Option<usize>, Fault>
        ensures taken { IfOk result (λ found. IsTakenNext
            (telling (L.told link.old) (S.written out.old))
            (telling (L.told link.new) (S.written out.new)) self.old self.new bytes.now found) }
        ensures fails { OnErr result (Fails (telling (L.told link.old) (S.written out.old))
            (telling (L.told link.new) (S.written out.new)) (state_of self.old bytes.now)) }
        ensures link_faults_never_fall { L.faults link.old ≤ L.faults link.new }
        ensures idles_never_fall { L.idles link.old ≤ L.idles link.new }
        ensures failed_sends_never_fall { L.failed_sends link.old ≤ L.failed_sends link.new }
        ensures no_failed_send { OnOk result (L.failed_sends link.new ≡ L.failed_sends link.old) }
        ensures faults_never_fall { S.faults out.old ≤ S.faults out.new }
        ensures out_only_where_faults_rose { IsErrOf result Fault.Out →
            Rose (S.faults out.old) (S.faults out.new) }
        ensures send_only_where_failed_sends_rose { IsErrOf result Fault.Send →
            Rose (L.failed_sends link.old) (L.failed_sends link.new) }
    {
        match self.reading.next_in(bytes) {
            Next::Owed { frame, used } => {
                self.make_room(link, out)?;
                self.take_frame(&frame, used, out)?;
                Ok(Some(used))
            }
            Next::Stop { .. } => Ok(None),
            Next::Short => Ok(None),
        }
    }

    /// Hands on what is laid, if no further acknowledgement has room.
    fn make_room<L: Link, S: Sink>(&mut self, link: &mut L, out: &mut S) -> Result<(), Fault>
        ensures goes_on { OnOk result ((bytes : List ℕ) → GoesOn
            (telling (L.told link.old) (S.written out.old))
            (telling (L.told link.new) (S.written out.new)) (state_of self.old bytes) (state_of self.new bytes)) }
        ensures same_reading { self.new.reading ≡ self.old.reading }
        ensures fails { OnErr result ((bytes : List ℕ) → Fails (telling (L.told link.old) (S.written out.old))
            (telling (L.told link.new) (S.written out.new)) (state_of self.old bytes)) }
        ensures link_faults_never_fall { L.faults link.old ≤ L.faults link.new }
        ensures idles_never_fall { L.idles link.old ≤ L.idles link.new }
        ensures failed_sends_never_fall { L.failed_sends link.old ≤ L.failed_sends link.new }
        ensures no_failed_send { OnOk result (L.failed_sends link.new ≡ L.failed_sends link.old) }
        ensures faults_never_fall { S.faults out.old ≤ S.faults out.new }
        ensures out_only_where_faults_rose { IsErrOf result Fault.Out →
            Rose (S.faults out.old) (S.faults out.new) }
        ensures send_only_where_failed_sends_rose { IsErrOf result Fault.Send →
            Rose (L.failed_sends link.old) (L.failed_sends link.new) }
    {
        if self.outgoing.is_full() {
            self.outgoing.hand_on(link, out)?;
        }
        Ok(())
    }

    /// Lays the line of a frame, and its acknowledgement.
    fn take_frame<S: Sink>(
        &mut self,
        frame: &FrameView<'_>,
        used: usize,
        out: &mut S,
    ) -> Result<(), WriteFault>
        requires { IsOwed self.old.reading (frame_of frame.now) }
        ensures taken { OnOk result (TakesFrame (frame_of frame.now) used self.old self.new
            (S.written out.old) (S.written out.new)) }
        ensures front { OnErr result (WritesFront (S.written out.old)
            (self.old.outgoing.lines.items ++ lines_of_frame (frame_of frame.now)) (S.written out.new)) }
        ensures faults_never_fall { S.faults out.old ≤ S.faults out.new }
        ensures out_only_where_faults_rose { IsErrOf result WriteFault.Out →
            Rose (S.faults out.old) (S.faults out.new) }
    {
        self.reading.pass(frame);
        if let FrameView::Json { sequence, payload } = *frame {
            self.outgoing.lay_line(out, payload)?;
            if self.reading.is_answered() {
                self.outgoing.lay_answer(sequence)?;
            }
        }
        self.passed = self.passed.saturating_add(used as u64);
        Ok(())
    }
}

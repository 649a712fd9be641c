ghost use Rattle.std.specs.Prelude.{◌≡◌, ◌⊎◌, ◌↔◌, ℕ, All, Contains, ◌≤◌, ◌<◌, ◌^◌, List, [], ◌∷◌, ◌++◌, flat_map, length};
ghost use Rattle.lumber_frame.specs.declared.frame.Frame.{Frame};
ghost use Rattle.lumber_frame.specs.declared.frame.Frame.TheVariants.{Ack};
ghost use Rattle.lumber_frame.specs.declared.frame.FrameRead.{FrameRead};
ghost use Rattle.lumber_frame.specs.Frame.{IsFrame, BeginsWithFrame, frame_bytes};
ghost use Rattle.lumber_frame.specs.Fault.{IsBadAt};
ghost use Rattle.wire_base.specs.declared.talk.Piece.{Piece};
ghost use Rattle.lumber_frame.specs.Talk.{in_bytes, out_bytes};
ghost use Rattle.lumber_frame.specs.Window.{IsWindow, window_bytes};
ghost use Rattle.lumber_frame.specs.Acknowledged.{Acknowledges, Answer, asked, count_at, greatest, whole_within};
ghost use Rattle.lumber_frame.specs.InFlight.{HasOneInFlight};
ghost use Rattle.lumber_frame.specs.LastAsked.{AcknowledgesByLast, HasFaultByLast};
ghost use Rattle.lumber_frame.specs.Reading.{Reads, IsWholeOf};
ghost use Rattle.lumber_frame.specs.Settled.{IsSettled, ack_bytes};
ghost use Rattle.lumber_frame.specs.PeerFault.{BeginsNoAcknowledgement, HasPeerFault};

/// A frame has one form, and no frame's bytes begin another's. A law; it computes nothing.
pub fn one_form()
    ensures { (f g : Frame) (x y : List ℕ) → IsFrame f → IsFrame g →
        frame_bytes f ++ x ≡ frame_bytes g ++ y → (f ≡ g) × (x ≡ y) }
{}

/// A frame that is written is read again, whatever follows it. A law; it computes nothing.
pub fn written_is_read()
    ensures { (frame : Frame) (rest : List ℕ) (read : FrameRead) → IsFrame frame →
        Reads (frame_bytes frame ++ rest) read → IsWholeOf read frame (length (frame_bytes frame)) }
{}

/// A whole frame and a fault stay what they are, whatever follows them. A law; it computes nothing.
pub fn answers_stay()
    ensures whole { (bytes more : List ℕ) (frame : Frame) (used : ℕ) →
        BeginsWithFrame bytes frame used → BeginsWithFrame (bytes ++ more) frame used }
    ensures bad { (bytes more : List ℕ) (at : ℕ) → IsBadAt bytes at → IsBadAt (bytes ++ more) at }
{}

/// A talk acknowledges one list of payloads. A law; it computes nothing.
pub fn one_reading()
    ensures { (talk : List Piece) (p q : List (List ℕ)) → Acknowledges talk p →
        Acknowledges talk q → p ≡ q }
{}

/// An acknowledgement asks of the oldest window that was wholly out and that was not acknowledged in full, or of the last
/// that was out if each was. A law; it computes nothing.
pub fn the_oldest_is_asked()
    ensures within { (windows : List (List (List ℕ))) (given : List Answer) (out : ℕ) →
        asked windows given out ≤ whole_within windows out }
    ensures earlier_are_in_full { (windows : List (List (List ℕ))) (given : List Answer)
        (out window : ℕ) →
        window < asked windows given out → count_at windows window ≤ greatest window given }
    ensures not_in_full_or_last { (windows : List (List (List ℕ))) (given : List Answer) (out : ℕ) →
        (asked windows given out ≡ whole_within windows out) ⊎
        (greatest (asked windows given out) given < count_at windows (asked windows given out)) }
{}

/// In a talk with one window in flight an acknowledgement asks of the last window that was wholly out: the talk
/// acknowledges the same, and has the same faults, as if each asked of that one. A law; it computes nothing.
pub fn one_in_flight_asks_the_last()
    ensures acknowledged { (talk : List Piece) (payloads : List (List ℕ)) → HasOneInFlight talk →
        (Acknowledges talk payloads ↔ AcknowledgesByLast talk payloads) }
    ensures faults { (talk : List Piece) → HasOneInFlight talk →
        (HasPeerFault talk ↔ HasFaultByLast talk) }
{}

/// One window is in flight in a talk of nothing, and if one more window is sent and any bytes are received after a
/// settled talk that had one in flight. A law; it computes nothing.
pub fn one_window_at_a_time()
    ensures nothing { HasOneInFlight [] }
    ensures one_more { (talk sent heard : List Piece) (windows : List (List (List ℕ)))
        (payloads : List (List ℕ)) →
        HasOneInFlight talk → IsSettled talk windows → IsWindow payloads →
        out_bytes sent ≡ window_bytes payloads → out_bytes heard ≡ [] →
        HasOneInFlight ((talk ++ sent) ++ heard) }
{}

/// In a talk of nothing no window is owed. A law; it computes nothing.
pub fn nothing_is_settled()
    ensures { IsSettled [] [] }
{}

/// One more window is settled by pieces of it and then acknowledgements of it, none above its count and one of them its
/// count. A law; it computes nothing.
pub fn a_window_is_settled()
    ensures { (talk sent heard : List Piece) (windows : List (List (List ℕ)))
        (payloads : List (List ℕ))
        (numbers : List ℕ) → IsSettled talk windows → IsWindow payloads →
        out_bytes sent ≡ window_bytes payloads → in_bytes sent ≡ [] →
        out_bytes heard ≡ [] → in_bytes heard ≡ ack_bytes numbers →
        All (λ number. number ≤ length payloads) numbers → Contains numbers (length payloads) →
        IsSettled ((talk ++ sent) ++ heard) (windows ++ payloads ∷ []) }
{}

/// A talk whose windows were acknowledged in full acknowledges all their payloads. A law; it computes nothing.
pub fn settled_is_acknowledged()
    ensures { (talk : List Piece) (windows : List (List (List ℕ))) → IsSettled talk windows →
        Acknowledges talk (flat_map (λ window. window) windows) }
{}

/// What a talk acknowledges it acknowledges still, whatever is sent and received afterwards. A law; it computes nothing.
pub fn acknowledged_stays()
    ensures { (talk more : List Piece) (payloads : List (List ℕ)) → Acknowledges talk payloads →
        (later : List (List ℕ)) × Acknowledges (talk ++ more) later ×
        All (Contains later) payloads }
{}

/// The payloads of windows that were acknowledged in full are the first of what the talk acknowledges, whatever is sent
/// and received afterwards. A law; it computes nothing.
pub fn settled_stays_acknowledged()
    ensures { (talk more : List Piece) (windows : List (List (List ℕ))) → IsSettled talk windows →
        (later : List (List ℕ)) ×
        Acknowledges (talk ++ more) (flat_map (λ window. window) windows ++ later) }
{}

/// Bytes begin no acknowledgement exactly if there is none that they begin, however they go on. A law; it computes
/// nothing.
pub fn no_acknowledgement_begins()
    ensures none { (bytes more : List ℕ) (number used : ℕ) → BeginsNoAcknowledgement bytes →
        ¬ (BeginsWithFrame (bytes ++ more) (Ack number) used) }
    ensures only { (bytes : List ℕ) → All (λ byte. byte < 256) bytes →
        ((more : List ℕ) (number used : ℕ) →
        ¬ (BeginsWithFrame (bytes ++ more) (Ack number) used)) →
        BeginsNoAcknowledgement bytes }
{}

/// A client that waits for the acknowledgement of one more window hits a peer's fault if, after acknowledgements
/// none above the window's count, there come bytes that begin no acknowledgement, or an acknowledgement of a number above
/// the count, whatever follows it. A law; it computes nothing.
pub fn a_fault_is_met()
    ensures no_acknowledgement { (talk sent heard : List Piece) (windows : List (List (List ℕ)))
        (payloads : List (List ℕ)) (numbers bytes : List ℕ) → IsSettled talk windows →
        IsWindow payloads →
        out_bytes sent ≡ window_bytes payloads → in_bytes sent ≡ [] →
        out_bytes heard ≡ [] → in_bytes heard ≡ ack_bytes numbers ++ bytes →
        All (λ number. number ≤ length payloads) numbers → BeginsNoAcknowledgement bytes →
        HasPeerFault ((talk ++ sent) ++ heard) }
    ensures above_the_count { (talk sent heard : List Piece) (windows : List (List (List ℕ)))
        (payloads : List (List ℕ)) (numbers bytes : List ℕ) (number : ℕ) → IsSettled talk windows →
        IsWindow payloads →
        out_bytes sent ≡ window_bytes payloads → in_bytes sent ≡ [] →
        out_bytes heard ≡ [] → in_bytes heard ≡ ack_bytes (numbers ++ number ∷ []) ++ bytes →
        All (λ number. number ≤ length payloads) numbers → number < 2 ^ 32 →
        length payloads < number →
        HasPeerFault ((talk ++ sent) ++ heard) }
{}

/// A settled talk has no peer's fault, and neither has one that goes on by one more window and by acknowledgements none
/// above its count, after which another may have begun. A law; it computes nothing.
pub fn no_fault_is_met()
    ensures settled { (talk : List Piece) (windows : List (List (List ℕ))) →
        IsSettled talk windows →
        ¬ (HasPeerFault talk) }
    ensures waiting { (talk sent heard : List Piece) (windows : List (List (List ℕ)))
        (payloads : List (List ℕ)) (numbers bytes : List ℕ) → IsSettled talk windows →
        IsWindow payloads →
        out_bytes sent ≡ window_bytes payloads → in_bytes sent ≡ [] →
        out_bytes heard ≡ [] → in_bytes heard ≡ ack_bytes numbers ++ bytes →
        All (λ number. number ≤ length payloads) numbers → length bytes < 6 →
        ¬ (BeginsNoAcknowledgement bytes) →
        ¬ (HasPeerFault ((talk ++ sent) ++ heard)) }
{}

/// One more window after a settled talk is not acknowledged in full by acknowledgements below its count, after which
/// another may have begun. A law; it computes nothing.
pub fn a_window_is_unanswered()
    ensures { (talk sent heard : List Piece) (windows : List (List (List ℕ)))
        (payloads : List (List ℕ))
        (numbers bytes : List ℕ) → IsSettled talk windows → IsWindow payloads →
        out_bytes sent ≡ window_bytes payloads → in_bytes sent ≡ [] →
        out_bytes heard ≡ [] → in_bytes heard ≡ ack_bytes numbers ++ bytes →
        All (λ number. number < length payloads) numbers → length bytes < 6 →
        (acknowledged : List (List ℕ)) × Acknowledges ((talk ++ sent) ++ heard) acknowledged ×
        (length acknowledged < length (flat_map (λ window. window) (windows ++ payloads ∷ []))) }
{}

/// A peer's fault stays, whatever is sent and received afterwards. A law; it computes nothing.
pub fn a_fault_stays()
    ensures { (talk more : List Piece) → HasPeerFault talk → HasPeerFault (talk ++ more) }
{}

ghost use Rattle.std.specs.Prelude.{ℕ, List, [], ◌∷◌, ◌++◌};
ghost use Rattle.wire_base.specs.declared.talk.Piece.{Piece};
ghost use Rattle.wire_base.specs.declared.talk.Piece.TheVariants.{In};
ghost use Rattle.lumber_frame.specs.Acknowledged.{Acknowledges};
ghost use Rattle.lumber_frame.specs.PeerFault.{HasPeerFault};
ghost use Rattle.lumber_client.specs.Exchange.{Exchange, acknowledged_in, payloads_of, with_talk};
ghost use Rattle.lumber_client.specs.Held.{Held};
ghost use Rattle.lumber_client.specs.Standing.{StandsFor};

/// The talk for which a window stands acknowledges the payloads of the parcels that the window
/// settles as acknowledged, in their order. A law; it computes nothing.
pub fn acknowledged_is_of_the_talk()
    ensures { (window : Held) (e : Exchange) → StandsFor window e →
        Acknowledges e.talk (payloads_of (acknowledged_in e)) }
{}

/// Received bytes may be given one by one or many at once: a window stands for the one talk if
/// it stands for the other, and both talks acknowledge the same. A law; it computes nothing.
pub fn received_pieces_join()
    ensures window { (window : Held) (e : Exchange) (talk : List Piece) (front back : List ℕ) →
        StandsFor window (with_talk e (talk ++ In front ∷ In back ∷ [])) →
        StandsFor window (with_talk e (talk ++ In (front ++ back) ∷ [])) }
    ensures acknowledged { (talk : List Piece) (front back : List ℕ) (payloads : List (List ℕ)) →
        Acknowledges (talk ++ In front ∷ In back ∷ []) payloads →
        Acknowledges (talk ++ In (front ++ back) ∷ []) payloads }
    ensures fault { (talk : List Piece) (front back : List ℕ) →
        HasPeerFault (talk ++ In front ∷ In back ∷ []) →
        HasPeerFault (talk ++ In (front ++ back) ∷ []) }
{}

/// After a peer's fault nothing counts: whatever is sent and received afterwards, the talk
/// acknowledges the same. A law; it computes nothing.
pub fn nothing_counts_behind_a_fault()
    ensures { (talk more : List Piece) (payloads : List (List ℕ)) → HasPeerFault talk →
        Acknowledges talk payloads → Acknowledges (talk ++ more) payloads }
{}

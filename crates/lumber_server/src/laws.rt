ghost use Rattle.std.specs.Prelude.{◌≡◌, ℕ, List};
ghost use Rattle.lumber_frame.specs.declared.frame.Frame.{Frame};
ghost use Rattle.lumber_server.specs.Received.{AreReceived};

/// Bytes are received as one list of frames. A law; it computes nothing.
pub fn received_in_one_way()
    ensures { (bytes : List ℕ) (f g : List Frame) → AreReceived bytes f → AreReceived bytes g → f ≡ g }
{}

ghost use Rattle.std.specs.Prelude.{◌≡◌, ℕ, List, length};
ghost use Rattle.spool_queue.specs.Spool.{IsBad, IsReadAs};
ghost use Rattle.wire_base.specs.Ranges.{IsPlace};

/// The bytes of a disk are read as one list of payloads at most, and bytes that are bad as none; they are bad at one place.
/// A law; it computes nothing.
pub fn one_reading()
    ensures one_list { (bytes : List ℕ) (one other : List (List ℕ)) → IsPlace (length bytes) →
        IsReadAs bytes one → IsReadAs bytes other → one ≡ other }
    ensures never_both { (bytes : List ℕ) (list : List (List ℕ)) (at : ℕ) → IsPlace (length bytes) →
        IsReadAs bytes list → ¬ (IsBad bytes at) }
    ensures one_place { (bytes : List ℕ) (at other : ℕ) → IsPlace (length bytes) →
        IsBad bytes at → IsBad bytes other → at ≡ other }
{}
